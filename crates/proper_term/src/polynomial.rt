//! The value of a polynomial in n and k at a point.

ghost use Rattle.std.specs.Prelude.{◌≡◌, ◌≢◌, ◌≤◌, ◌<◌, ◌^◌, ◌+◌, ◌*◌, ◌+ℤ◌, ◌*ℤ◌, pos, unsigned_abs, map, take, length, IfOk, IfErr};
ghost use Rattle.ring_laws.specs.Answer.{OnFault};
ghost use Rattle.poly_laws.specs.Values.{horner};
ghost use Rattle.hypergeometric.specs.Point.{point};
ghost use Rattle.hypergeometric.specs.ProperTerm.{poly_value, value_in_n};
ghost use Rattle.proper_term.specs.Points.{point_of};
ghost use Rattle.proper_term.specs.ValueBounds.{sizes, size_in_n, size_at};

use crate::point::Point;
use poly_generic::{Zn, Znk};
use ring_laws::{Ring, RingFault, Whole};
use std::alloc::Global;

// The value of a coefficient, plus k times the rest.
fn with_constant(
    alloc: Global,
    constant: &Zn,
    n: Whole,
    k: Whole,
    rest: Whole,
) -> Result<Whole, RingFault>
    ensures value { IfOk result (λ value. value.value ≡ value_in_n (⟦<Zn as Ring>⟧.meaning constant.now) (point n.value k.value)
        +ℤ k.value *ℤ rest.value) }
    ensures too_large { IfErr result (OnFault (¬ (size_in_n (point n.value k.value)
        (⟦<Zn as Ring>⟧.meaning constant.now) + unsigned_abs k.value * unsigned_abs rest.value < 2 ^ 127))) }
{
    let constant = constant.eval(alloc, &n)?;
    let product = k.mul(alloc, &rest)?;
    let value = constant.add(alloc, &product)?;
    Ok(value)
}

// The value of the polynomial of these coefficients, by Horner's rule. Where k is 0, coefficients of k don't count.
fn value_of_coefficients(
    alloc: Global,
    coefficients: &[Zn],
    n: Whole,
    k: Whole,
) -> Result<Whole, RingFault>
    requires counted { k.value ≡ pos 0 → length coefficients.now ≤ 1 }
    ensures value { IfOk result (λ value. value.value ≡ horner (λ c. value_in_n c (point n.value k.value)) k.value
        (map ⟦<Zn as Ring>⟧.meaning coefficients.now)) }
    ensures too_large { IfErr result (OnFault (¬ (sizes (size_in_n (point n.value k.value)) (unsigned_abs k.value)
        (map ⟦<Zn as Ring>⟧.meaning coefficients.now) < 2 ^ 127))) }
{
    let mut value = Whole::zero(alloc)?;
    let mut power = coefficients.len();
    while power > 0 {
        power -= 1;
        value = with_constant(alloc, &coefficients[power], n, k, value)?;
    }
    Ok(value)
}

// The value of the polynomial, `TooLarge` only where the sum of the magnitudes reaches 2^127.
pub(crate) fn polynomial_value(alloc: Global, poly: &Znk, point: Point) -> Result<Whole, RingFault>
    ensures value { IfOk result (λ value. value.value ≡ poly_value (⟦<Znk as Ring>⟧.meaning poly.now) (point_of point)) }
    ensures too_large { IfErr result (OnFault (¬ (size_at (point_of point) (⟦<Znk as Ring>⟧.meaning poly.now) < 2 ^ 127))) }
{
    let n = point.whole_n();
    let k = point.whole_k();
    let coefficients = poly.coefficients();
    if k.is_zero() {
        return value_of_coefficients(alloc, first_of(coefficients), n, k);
    }
    value_of_coefficients(alloc, coefficients, n, k)
}

// The first coefficient, where there is one.
fn first_of(coefficients: &[Zn]) -> &[Zn]
    ensures few { length result.now ≤ 1 }
    ensures first { result.now ≡ take 1 coefficients.now }
{
    if coefficients.is_empty() {
        return coefficients;
    }
    &coefficients[..1]
}
