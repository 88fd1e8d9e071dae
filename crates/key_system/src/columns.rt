//! What each unknown of the system is multiplied with: a polynomial in k.

ghost use Rattle.std.specs.Prelude.{◌≡◌, ◌<◌, ◌≤◌, ◌++◌, map, IsFalse, ⊤};
ghost use Rattle.ring_laws.specs.Answer.{Gives};
ghost use Rattle.poly_generic.specs.ListAnswer.{GivesValue, GivesList};
ghost use Rattle.key_laws.specs.KeyEquation.{key_difference};
ghost use Rattle.key_laws.specs.KeyRows.{power_of_k as power_of_k_meant, listing, key_columns};
ghost use Rattle.key_system.specs.Reckoning.{ColumnInBounds, RowsInBounds};

use poly_generic::Poly;
use ring_laws::{Domain, Ring, RingFault};
use std::alloc::Global;

// k^power.
fn power_of_k<B: Ring>(alloc: Global, power: usize) -> Result<Poly<B>, RingFault>
    requires few { power < 256 }
    ensures gives { Gives ⟦<Poly<B> as Ring>⟧.meaning (power_of_k_meant B.algebra.ops power) result }
{
    let mut list = Vec::new(alloc);
    for _at in 0..power {
        let item = B::zero(alloc)?;
        list.push(item)?;
    }
    let item = B::one(alloc)?;
    list.push(item)?;
    Poly::from_coefficients(list)
}

// q(k) (k+1)^power - b(k) k^power.
fn column<B: Domain>(
    alloc: Global,
    q: &Poly<B>,
    b: &Poly<B>,
    power: usize,
) -> Result<Poly<B>, RingFault>
    requires few { power < 256 }
    requires not_zero { IsFalse (⟦<Poly<B> as Ring>⟧.algebra.ops.is_nought (⟦<Poly<B> as Ring>⟧.meaning q.now)) }
    ensures gives { GivesValue ⟦<Poly<B> as Ring>⟧.meaning
        (ColumnInBounds B.algebra (⟦<Poly<B> as Ring>⟧.meaning q.now) (⟦<Poly<B> as Ring>⟧.meaning b.now) power)
        (key_difference B.algebra.ops (⟦<Poly<B> as Ring>⟧.meaning q.now) (⟦<Poly<B> as Ring>⟧.meaning b.now)
        (power_of_k_meant B.algebra.ops power)) result }
{
    let y = power_of_k(alloc, power)?;
    let next = y.shift_by(alloc, 1)?;
    let left = q.mul(alloc, &next)?;
    let right = b.mul(alloc, &y)?;
    left.sub(alloc, &right)
}

// The columns of the coefficients of Y.
fn unknown_columns<B: Domain>(
    alloc: Global,
    q: &Poly<B>,
    b: &Poly<B>,
    count: usize,
) -> Result<Vec<Poly<B>>, RingFault>
    requires few { count ≤ 256 }
    requires not_zero { IsFalse (⟦<Poly<B> as Ring>⟧.algebra.ops.is_nought (⟦<Poly<B> as Ring>⟧.meaning q.now)) }
    ensures gives { GivesList ⟦<Poly<B> as Ring>⟧.meaning
        (RowsInBounds B.algebra (⟦<Poly<B> as Ring>⟧.meaning q.now) (⟦<Poly<B> as Ring>⟧.meaning b.now) count)
        (listing count (λ i. key_difference B.algebra.ops (⟦<Poly<B> as Ring>⟧.meaning q.now) (⟦<Poly<B> as Ring>⟧.meaning b.now)
        (power_of_k_meant B.algebra.ops i))) result }
{
    let mut columns = Vec::new(alloc);
    for power in 0..count {
        let item = column(alloc, q, b, power)?;
        columns.push(item)?;
    }
    Ok(columns)
}

// The columns, and after them the negatives of the sides.
fn with_sides<B: Ring>(
    alloc: Global,
    columns: Vec<Poly<B>>,
    sides: &[Poly<B>],
) -> Result<Vec<Poly<B>>, RingFault>
    ensures gives { GivesList ⟦<Poly<B> as Ring>⟧.meaning ⊤
        (map ⟦<Poly<B> as Ring>⟧.meaning columns.items
        ++ map ⟦<Poly<B> as Ring>⟧.algebra.ops.neg (map ⟦<Poly<B> as Ring>⟧.meaning sides.now)) result }
{
    let mut columns = columns;
    for side in sides {
        let negative = side.neg(alloc)?;
        columns.push(negative)?;
    }
    Ok(columns)
}

// The columns of so many coefficients of Y, and then those of the multipliers.
pub(crate) fn columns_of<B: Domain>(
    alloc: Global,
    q: &Poly<B>,
    b: &Poly<B>,
    sides: &[Poly<B>],
    count: usize,
) -> Result<Vec<Poly<B>>, RingFault>
    requires few { count ≤ 256 }
    requires not_zero { IsFalse (⟦<Poly<B> as Ring>⟧.algebra.ops.is_nought (⟦<Poly<B> as Ring>⟧.meaning q.now)) }
    ensures gives { GivesList ⟦<Poly<B> as Ring>⟧.meaning
        (RowsInBounds B.algebra (⟦<Poly<B> as Ring>⟧.meaning q.now) (⟦<Poly<B> as Ring>⟧.meaning b.now) count)
        (key_columns B.algebra.ops (⟦<Poly<B> as Ring>⟧.meaning q.now) (⟦<Poly<B> as Ring>⟧.meaning b.now) count
        (map ⟦<Poly<B> as Ring>⟧.meaning sides.now)) result }
{
    let columns = unknown_columns(alloc, q, b, count)?;
    with_sides(alloc, columns, sides)
}
