//! Lists of coefficients, from power 0 up.

ghost use Rattle.std.specs.Prelude.{◌≡◌, ◌↔◌, ◌⊎◌, ◌<◌, ◌+◌, IsTrue, map, length, ⊤};
ghost use Rattle.ring_laws.specs.Answer.{GivesInBounds};
ghost use Rattle.poly_laws.specs.Lists.{coefficient_at, list_sum, list_product, trimmed, is_trimmed};
ghost use Rattle.poly_laws.specs.Bounds.{SumInBoundsAt, ListSumInBounds, ListProductInBounds};
ghost use Rattle.poly_generic.specs.ListAnswer.{GivesValue, GivesList, GivesListInBounds};

use ring_laws::{Ring, RingFault};
use std::alloc::Global;

// Whether the last coefficient isn't zero.
fn is_trimmed_list<R: Ring>(list: &[R]) -> bool
    ensures { result ≡ is_trimmed R.algebra.ops (map R.meaning list.now) }
{
    if list.is_empty() {
        return true;
    }
    !list[list.len() - 1].is_zero()
}

// The list without the zeros at its end.
pub fn trim<R: Ring>(list: Vec<R>) -> Vec<R>
    ensures { map R.meaning result.items ≡ trimmed R.algebra.ops (map R.meaning list.items) }
{
    let mut list = list;
    while !is_trimmed_list(&list) {
        list.pop();
    }
    list
}

// The sum of two coefficients at a power, where one may be missing.
fn sum_at<R: Ring>(alloc: Global, a: &[R], b: &[R], power: usize) -> Result<R, RingFault>
    requires in_range { (power < length a.now) ⊎ (power < length b.now) }
    ensures { GivesInBounds R.meaning (SumInBoundsAt R.algebra (map R.meaning a.now) (map R.meaning b.now) power)
        (coefficient_at R.algebra.ops (list_sum R.algebra.ops (map R.meaning a.now) (map R.meaning b.now)) power) result }
{
    if power >= a.len() {
        return b[power].duplicate(alloc);
    }
    if power >= b.len() {
        return a[power].duplicate(alloc);
    }
    a[power].add(alloc, &b[power])
}

// The sums of the coefficients.
pub fn sums<R: Ring>(alloc: Global, a: &[R], b: &[R]) -> Result<Vec<R>, RingFault>
    ensures { GivesListInBounds R.meaning (ListSumInBounds R.algebra (map R.meaning a.now) (map R.meaning b.now))
        (list_sum R.algebra.ops (map R.meaning a.now) (map R.meaning b.now)) result }
{
    let count = a.len().max(b.len());
    let mut out = Vec::new(alloc);
    let _room = out.reserve(count);
    for power in 0..count {
        let item = sum_at(alloc, a, b, power)?;
        out.push(item)?;
    }
    Ok(out)
}

// The difference of two coefficients at a power, where one may be missing.
fn difference_at<R: Ring>(alloc: Global, a: &[R], b: &[R], power: usize) -> Result<R, RingFault>
    requires in_range { (power < length a.now) ⊎ (power < length b.now) }
    ensures { GivesInBounds R.meaning (SumInBoundsAt R.algebra (map R.meaning a.now) (map R.meaning b.now) power)
        (coefficient_at R.algebra.ops (list_sum R.algebra.ops (map R.meaning a.now) (map R.algebra.ops.neg (map R.meaning b.now))) power) result }
{
    if power >= a.len() {
        return b[power].neg(alloc);
    }
    if power >= b.len() {
        return a[power].duplicate(alloc);
    }
    a[power].sub(alloc, &b[power])
}

// The differences of the coefficients.
pub fn differences<R: Ring>(alloc: Global, a: &[R], b: &[R]) -> Result<Vec<R>, RingFault>
    ensures { GivesListInBounds R.meaning (ListSumInBounds R.algebra (map R.meaning a.now) (map R.meaning b.now))
        (list_sum R.algebra.ops (map R.meaning a.now) (map R.algebra.ops.neg (map R.meaning b.now))) result }
{
    let count = a.len().max(b.len());
    let mut out = Vec::new(alloc);
    let _room = out.reserve(count);
    for power in 0..count {
        let item = difference_at(alloc, a, b, power)?;
        out.push(item)?;
    }
    Ok(out)
}

// The coefficient of the product at the sum of two places: the products of the coefficients of `a` from `last` down with those of `b` from
// `first` up, as far as both go, where that is all of them.
fn product_at<R: Ring>(
    alloc: Global,
    a: &[R],
    b: &[R],
    last: usize,
    first: usize,
) -> Result<R, RingFault>
    requires within { last < length a.now }
    requires whole { (first ≡ 0) ⊎ (last + 1 ≡ length a.now) }
    ensures { GivesValue R.meaning (ListProductInBounds R.algebra (map R.meaning a.now) (map R.meaning b.now))
        (coefficient_at R.algebra.ops (list_product R.algebra.ops (map R.meaning a.now) (map R.meaning b.now)) (last + first)) result }
{
    let mut sum = R::zero(alloc)?;
    let mut left = last + 1;
    let mut at = first;
    while left > 0 {
        if at >= b.len() {
            return Ok(sum);
        }
        left -= 1;
        let product = a[left].mul(alloc, &b[at])?;
        sum = product.add(alloc, &sum)?;
        at += 1;
    }
    Ok(sum)
}

// The product of two lists of coefficients, from power 0 up. Where it answers `TooLarge`, some coefficient of the product of the
// magnitudes doesn't fit.
pub fn product_of_lists<R: Ring>(alloc: Global, a: &[R], b: &[R]) -> Result<Vec<R>, RingFault>
    ensures { GivesList R.meaning (ListProductInBounds R.algebra (map R.meaning a.now) (map R.meaning b.now))
        (list_product R.algebra.ops (map R.meaning a.now) (map R.meaning b.now)) result }
{
    let mut out: Vec<R> = Vec::new(alloc);
    let _room = out.reserve(a.len().saturating_add(b.len()));
    for last in 0..a.len() {
        let item = product_at(alloc, a, b, last, 0)?;
        out.push(item)?;
    }
    if a.is_empty() {
        return Ok(out);
    }
    for first in 1..b.len() {
        let item = product_at(alloc, a, b, a.len() - 1, first)?;
        out.push(item)?;
    }
    Ok(out)
}

// A copy of each coefficient.
pub fn copies<R: Ring>(alloc: Global, list: &[R]) -> Result<Vec<R>, RingFault>
    ensures { GivesList R.meaning ⊤ (map R.meaning list.now) result }
{
    let mut out = Vec::new(alloc);
    let _room = out.reserve(list.len());
    for item in list {
        let copy = item.duplicate(alloc)?;
        out.push(copy)?;
    }
    Ok(out)
}

/// The negative of each coefficient.
pub fn negatives<R: Ring>(alloc: Global, list: &[R]) -> Result<Vec<R>, RingFault>
    ensures { GivesList R.meaning ⊤ (map R.algebra.ops.neg (map R.meaning list.now)) result }
{
    let mut out = Vec::new(alloc);
    let _room = out.reserve(list.len());
    for item in list {
        let negative = item.neg(alloc)?;
        out.push(negative)?;
    }
    Ok(out)
}

// The magnitude of each coefficient.
pub fn magnitudes<R: Ring>(alloc: Global, list: &[R]) -> Result<Vec<R>, RingFault>
    ensures { GivesList R.meaning ⊤ (map R.algebra.ops.magnitude (map R.meaning list.now)) result }
{
    let mut out = Vec::new(alloc);
    let _room = out.reserve(list.len());
    for item in list {
        let magnitude = item.magnitude(alloc)?;
        out.push(magnitude)?;
    }
    Ok(out)
}

// Whether both lists have the same coefficients.
pub fn same_lists<R: Ring>(a: &[R], b: &[R]) -> bool
    ensures { IsTrue result ↔ (map R.meaning a.now ≡ map R.meaning b.now) }
{
    if a.len() != b.len() {
        return false;
    }
    for power in 0..a.len() {
        if !a[power].same(&b[power]) {
            return false;
        }
    }
    true
}
