//! The vector of a free column: one entry for each pivot row, from the last row to the first.

ghost use Rattle.std.specs.Prelude.{◌≡◌, ◌<◌, IsFalse, length, map, All, ⊤};
ghost use Rattle.poly_laws.specs.Bounds.{ScalingInBounds};
ghost use Rattle.poly_generic.specs.ListAnswer.{GivesList, GivesValue};
ghost use Rattle.kernel_laws.specs.Rows.{entry_at};
ghost use Rattle.kernel_laws.specs.Pivots.{IsPivotRow};
ghost use Rattle.kernel_laws.specs.Reduction.{IsCoreBy};
ghost use Rattle.kernel_laws.specs.BackSubstitution.{unit_vector, times_vector, TimesInBounds, AbsorbingInBounds, BackStep, BackStepInBounds};
ghost use Rattle.kernel_laws.specs.BackSubstitution.{BackRun, BackInBounds};
ghost use Rattle.reducing.specs.RowAnswer.{GivesRow};
ghost use Rattle.fraction_free.specs.RoundAnswers.{pivots_meant, HasCore};
ghost use Rattle.fraction_free.specs.VectorAnswers.{GivesAbsorbed};

use crate::rounds::PivotRow;
use reducing::Reducing;
use ring_laws::{Ring, RingFault};
use std::alloc::Global;

// What is left of a number, and the vector with it.
#[derive(Drop)]
struct Absorbed<R> {
    rest: R,
    vector: Vec<R>,
}

// The row times the vector.
fn row_times<R: Ring>(alloc: Global, row: &[R], vector: &[R]) -> Result<R, RingFault>
    requires same_length { length row.now ≡ length vector.now }
    ensures gives { GivesValue R.meaning (TimesInBounds R.algebra (length vector.now) (map R.meaning row.now) (map R.meaning vector.now))
        (times_vector R.algebra (length vector.now) (map R.meaning row.now) (map R.meaning vector.now)) result }
{
    let mut sum = R::zero(alloc)?;
    let mut at = row.len();
    while at > 0 {
        at -= 1;
        let product = row[at].mul(alloc, &vector[at])?;
        sum = product.add(alloc, &sum)?;
    }
    Ok(sum)
}

// Each entry times the factor.
fn multiplied<R: Ring>(alloc: Global, factor: &R, vector: &[R]) -> Result<Vec<R>, RingFault>
    ensures gives { GivesList R.meaning (ScalingInBounds R.algebra (R.meaning factor.now) (map R.meaning vector.now))
        (map (R.algebra.ops.product (R.meaning factor.now)) (map R.meaning vector.now)) result }
{
    let mut out = Vec::new(alloc);
    for entry in vector {
        let product = factor.mul(alloc, entry)?;
        out.push(product)?;
    }
    Ok(out)
}

// The number divided by the divisor where that can be; else the vector is multiplied by it.
fn absorb<R: Reducing>(
    alloc: Global,
    divisor: &R,
    number: R,
    vector: Vec<R>,
) -> Result<Absorbed<R>, RingFault>
    requires not_zero { IsFalse (R.algebra.ops.is_nought (R.meaning divisor.now)) }
    ensures absorbs { GivesAbsorbed R.meaning R.algebra (R.meaning divisor.now) (R.meaning number) (map R.meaning vector.items)
        (AbsorbingInBounds R.division_in_bounds R.algebra (R.meaning divisor.now) (R.meaning number) (map R.meaning vector.items)) result }
{
    if divisor.is_one() {
        return Ok(Absorbed {
            rest: number,
            vector,
        });
    }
    match number.divide_exact(alloc, divisor)? {
        Some(rest) => Ok(Absorbed { rest, vector }),
        None => {
            let vector = multiplied(alloc, divisor, &vector)?;
            Ok(Absorbed {
                rest: number,
                vector,
            })
        }
    }
}

// The entry at the column of a pivot row, whose core is known there, and the whole vector reduced.
fn back_step<R: Reducing>(
    alloc: Global,
    row: &[R],
    column: usize,
    core: &R,
    vector: Vec<R>,
) -> Result<Vec<R>, RingFault>
    requires same_length { length row.now ≡ length vector.items }
    requires within { column < length vector.items }
    requires not_zero { IsFalse (R.algebra.ops.is_nought (entry_at R.algebra.ops (map R.meaning row.now) column)) }
    requires core { IsCoreBy R.reduction (entry_at R.algebra.ops (map R.meaning row.now) column) (R.meaning core.now) }
    ensures steps { GivesRow R.meaning
        (BackStep R.algebra R.reduction (length vector.items) column (map R.meaning row.now) (map R.meaning vector.items))
        (BackStepInBounds R.division_in_bounds R.algebra R.reduction (length vector.items) column (map R.meaning row.now)
        (map R.meaning vector.items)) result }
{
    let sum = row_times(alloc, row, &vector)?;
    let number = sum.neg(alloc)?;
    let plain = row[column].plain_part(alloc, core)?;
    let by_core = absorb(alloc, core, number, vector)?;
    let by_plain = absorb(alloc, &plain, by_core.rest, by_core.vector)?;
    let mut vector = by_plain.vector;
    vector[column] = by_plain.rest;
    R::reduce_row(alloc, vector)
}

// The vector with a one at the free column and zeros elsewhere.
fn start<R: Ring>(alloc: Global, columns: usize, free: usize) -> Result<Vec<R>, RingFault>
    requires within { free < columns }
    ensures gives { GivesList R.meaning ⊤ (unit_vector R.algebra.ops columns free) result }
{
    let mut vector = Vec::new(alloc);
    for _column in 0..columns {
        vector.push(R::zero(alloc)?)?;
    }
    vector[free] = R::one(alloc)?;
    Ok(vector)
}

// The vector of the free column.
pub fn free_vector<R: Reducing>(
    alloc: Global,
    pivots: &[PivotRow<R>],
    columns: usize,
    free: usize,
) -> Result<Vec<R>, RingFault>
    requires pivot_rows { All (IsPivotRow R.algebra columns columns) (pivots_meant R.meaning pivots.now) }
    requires cores { All (HasCore R.meaning R.algebra R.reduction) pivots.now }
    requires within { free < columns }
    ensures runs { GivesRow R.meaning (BackRun R.algebra R.reduction columns free (pivots_meant R.meaning pivots.now))
        (BackInBounds R.division_in_bounds R.algebra R.reduction columns free (pivots_meant R.meaning pivots.now)) result }
{
    let mut vector = start(alloc, columns, free)?;
    let mut at = pivots.len();
    while at > 0 {
        at -= 1;
        let pivot = &pivots[at];
        vector = back_step(alloc, &pivot.row, pivot.column, &pivot.core, vector)?;
    }
    Ok(vector)
}
