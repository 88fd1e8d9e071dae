//! Division by a linear form.

ghost use Rattle.std.specs.Prelude.{◌≡◌, ◌≢◌, ◌≤◌, ◌<ℤ◌, pos, ◌∷◌, [], IsFalse};
ghost use Rattle.ring_laws.specs.Meaning.{listed};
ghost use Rattle.ring_laws.specs.Answer.{Gives};
ghost use Rattle.ring_laws.specs.Division.{Divides};
ghost use Rattle.poly_divide.specs.Forms.{linear, form_in_n, form_in_k};

use poly_generic::{Poly, Zn, Znk};
use ring_laws::{Domain, Ring, RingFault, Whole};
use std::alloc::Global;

// constant + slope * (the variable)
fn line<R: Ring>(alloc: Global, constant: R, slope: R) -> Result<Poly<R>, RingFault>
    requires not_zero { IsFalse (R.algebra.ops.is_nought (R.meaning slope)) }
    ensures { Gives ⟦<Poly<R> as Ring>⟧.meaning (listed (R.meaning constant ∷ R.meaning slope ∷ [])) result }
{
    let mut list = Vec::new(alloc);
    list.push(constant)?;
    list.push(slope)?;
    Poly::from_coefficients(list)
}

/// The quotient by `u*n + v` for a slope above 0, or `None` exactly where there is none.
///
/// `TooLarge` comes only where a step of the long division is out of bounds.
pub fn divide_by_linear(alloc: Global, f: &Zn, u: u8, v: i128) -> Result<Option<Zn>, RingFault>
    requires slope { 1 ≤ u }
    requires offset { v ≢ i128.MIN }
    ensures divides { Divides ⟦<Zn as Ring>⟧.meaning ⟦<Zn as Ring>⟧.algebra (⟦<Zn as Domain>⟧.division_in_bounds (⟦<Zn as Ring>⟧.meaning f.now) (linear (pos u) v))
        (⟦<Zn as Ring>⟧.meaning f.now) (linear (pos u) v) result }
{
    let Some(constant) = Whole::new(v) else {
        return Err(RingFault::TooLarge);
    };
    let Some(slope) = Whole::new(i128::from(u)) else {
        return Err(RingFault::TooLarge);
    };
    let form = line(alloc, constant, slope)?;
    let quotient = f.divide_exact(alloc, &form)?;
    Ok(quotient)
}

/// The quotient by the form `k_slope*k + n_slope*n + offset` of positive k slope, or `None` exactly where there is none.
///
/// `TooLarge` comes only where a step of the long division is out of bounds.
pub fn divide_by_form(
    alloc: Global,
    f: &Znk,
    k_slope: i64,
    n_slope: i64,
    offset: i64,
) -> Result<Option<Znk>, RingFault>
    requires slope { pos 0 <ℤ k_slope }
    ensures divides { Divides ⟦<Znk as Ring>⟧.meaning ⟦<Znk as Ring>⟧.algebra
        (⟦<Znk as Domain>⟧.division_in_bounds (⟦<Znk as Ring>⟧.meaning f.now) (form_in_k k_slope n_slope offset))
        (⟦<Znk as Ring>⟧.meaning f.now) (form_in_k k_slope n_slope offset) result }
{
    let constant = in_n(alloc, n_slope, offset)?;
    let slope = in_n(alloc, 0, k_slope)?;
    let form = line(alloc, constant, slope)?;
    let quotient = f.divide_exact(alloc, &form)?;
    Ok(quotient)
}

// slope*n + offset
fn in_n(alloc: Global, slope: i64, offset: i64) -> Result<Zn, RingFault>
    ensures { Gives ⟦<Zn as Ring>⟧.meaning (form_in_n slope offset) result }
{
    let Some(slope) = Whole::new(i128::from(slope)) else {
        return Err(RingFault::TooLarge);
    };
    let Some(offset) = Whole::new(i128::from(offset)) else {
        return Err(RingFault::TooLarge);
    };
    let mut list = Vec::new(alloc);
    list.push(offset)?;
    list.push(slope)?;
    Poly::from_coefficients(list)
}
