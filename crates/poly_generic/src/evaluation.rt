//! Values and shifts of lists of coefficients, by Horner's rule, and a cheap test that shows of most shifts that they are in bounds.

ghost use Rattle.std.specs.Prelude.{◌≡◌, map, IsTrue, IfOk};
ghost use Rattle.poly_laws.specs.Evaluation.{list_value, ValueInBounds};
ghost use Rattle.poly_laws.specs.Shift.{raised_by, list_shift, ListShiftInBounds};
ghost use Rattle.poly_generic.specs.ListAnswer.{GivesValue, GivesList, GivesListInBounds, RaisingInBounds};

use crate::lists::magnitudes;
use ring_laws::{Ring, RingFault};
use std::alloc::Global;
use std::mem;

// The value of the polynomial of these coefficients.
pub fn value_of_list<R: Ring>(alloc: Global, list: &[R], at: &R) -> Result<R, RingFault>
    ensures { GivesValue R.meaning (ValueInBounds R.algebra (R.meaning at.now) (map R.meaning list.now))
        (list_value R.algebra.ops (R.meaning at.now) (map R.meaning list.now)) result }
{
    let mut value = R::zero(alloc)?;
    let mut power = list.len();
    while power > 0 {
        power -= 1;
        let coefficient = &list[power];
        let product = at.mul(alloc, &value)?;
        value = coefficient.add(alloc, &product)?;
    }
    Ok(value)
}

// The constant, and the list times the variable plus a value, in the places of the list: each coefficient times the value, and the one below.
fn raised_with<R: Ring>(
    alloc: Global,
    constant: &R,
    by: &R,
    list: Vec<R>,
) -> Result<Vec<R>, RingFault>
    ensures { GivesList R.meaning (RaisingInBounds R.algebra (R.meaning by.now) (R.meaning constant.now) (map R.meaning list.items))
        (raised_by R.algebra.ops (R.meaning by.now) (R.meaning constant.now) (map R.meaning list.items)) result }
{
    let mut list = list;
    let mut below = constant.duplicate(alloc)?;
    for power in 0..list.len() {
        let product = by.mul(alloc, &list[power])?;
        let item = product.add(alloc, &below)?;
        below = mem::replace(&mut list[power], item);
    }
    list.push(below)?;
    Ok(list)
}

// The coefficients of the polynomial at the variable plus a value. Where it answers `TooLarge`, some coefficient of the shift of the
// magnitudes doesn't fit.
fn shift_of_list<R: Ring>(alloc: Global, list: &[R], by: &R) -> Result<Vec<R>, RingFault>
    ensures { GivesList R.meaning (ListShiftInBounds R.algebra (R.meaning by.now) (map R.meaning list.now))
        (list_shift R.algebra.ops (R.meaning by.now) (map R.meaning list.now)) result }
{
    let mut shifted: Vec<R> = Vec::new(alloc);
    let _room = shifted.reserve(list.len());
    let mut power = list.len();
    while power > 0 {
        power -= 1;
        shifted = raised_with(alloc, &list[power], by, shifted)?;
    }
    Ok(shifted)
}

// The value of the polynomial of the magnitudes of these coefficients.
fn value_of_magnitudes<R: Ring>(alloc: Global, list: &[R], at: &R) -> Result<R, RingFault>
    ensures { IfOk result (λ value. R.meaning value ≡ list_value R.algebra.ops (R.meaning at.now) (map R.algebra.ops.magnitude (map R.meaning list.now))) }
{
    let mut value = R::zero(alloc)?;
    let mut power = list.len();
    while power > 0 {
        power -= 1;
        let size = list[power].magnitude(alloc)?;
        let product = at.mul(alloc, &value)?;
        value = size.add(alloc, &product)?;
    }
    Ok(value)
}

// Whether the value of the magnitudes at 1 more than that of `by` is a value of the ring. It is the sum of all coefficients of the
// shift of the magnitudes, so then each of these fits. Where it isn't, or where there is no memory for it, nothing is known.
fn is_shift_surely_in_bounds<R: Ring>(alloc: Global, list: &[R], by: &R) -> bool
    ensures { IsTrue result → ListShiftInBounds R.algebra (R.meaning by.now) (map R.meaning list.now) }
{
    let Ok(one) = R::one(alloc) else {
        return false;
    };
    let Ok(size) = by.magnitude(alloc) else {
        return false;
    };
    let Ok(above) = one.add(alloc, &size) else {
        return false;
    };
    value_of_magnitudes(alloc, list, &above).is_ok()
}

// The same, where the shift of the magnitudes decides: it covers each step of the shift, and doesn't fit exactly where the shift is out
// of bounds.
pub fn shift_by_magnitudes<R: Ring>(alloc: Global, list: &[R], by: &R) -> Result<Vec<R>, RingFault>
    ensures { GivesListInBounds R.meaning (ListShiftInBounds R.algebra (R.meaning by.now) (map R.meaning list.now))
        (list_shift R.algebra.ops (R.meaning by.now) (map R.meaning list.now)) result }
{
    let sizes = magnitudes(alloc, list)?;
    let size = by.magnitude(alloc)?;
    let _bound = shift_of_list(alloc, &sizes, &size)?;
    shift_of_list(alloc, list, by)
}

// The coefficients of the polynomial at the variable plus a value, or `TooLarge` exactly where some coefficient of the shift of the
// magnitudes doesn't fit.
pub fn bounded_shift<R: Ring>(alloc: Global, list: &[R], by: &R) -> Result<Vec<R>, RingFault>
    ensures { GivesListInBounds R.meaning (ListShiftInBounds R.algebra (R.meaning by.now) (map R.meaning list.now))
        (list_shift R.algebra.ops (R.meaning by.now) (map R.meaning list.now)) result }
{
    if !is_shift_surely_in_bounds(alloc, list, by) {
        return shift_by_magnitudes(alloc, list, by);
    }
    shift_of_list(alloc, list, by)
}
