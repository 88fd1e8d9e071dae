//! What callers see of forms and factor lists, at values worked out by hand.

use crate::{FactorList, LinForm};
use poly_generic::Znk;
use ring_laws::{RingFault, Whole};
use std::alloc::Global;
use std::test::Fail;

// n slope, k slope and offset.
type Numbers = (i64, i64, i64);

fn form((n_slope, k_slope, offset): Numbers) -> Option<LinForm> {
    LinForm::new(n_slope, k_slope, offset)
}

fn shift_of(numbers: Numbers, other: Numbers) -> Option<Option<u64>> {
    let form = form(numbers)?;
    let other = LinForm::new(other.0, other.1, other.2)?;
    if form.k_slope() <= 0 {
        return None;
    }
    Some(form.match_shift(&other))
}

fn primitive_of(numbers: Numbers) -> Option<(i64, Numbers)> {
    let form = form(numbers)?;
    if form.k_slope() == 0 && form.n_slope() == 0 && form.offset() == 0 {
        return None;
    }
    let (factor, form) = form.primitive();
    Some((factor, (form.n_slope(), form.k_slope(), form.offset())))
}

fn times(list: &mut FactorList, numbers: Numbers, power: u32) -> Result<(), RingFault> {
    let Some(form) = form(numbers) else {
        return Err(RingFault::TooLarge);
    };
    if power == 0 || power > 1_000 || list.power(&form) > 1_000 {
        return Err(RingFault::TooLarge);
    }
    list.multiply(form, power)
}

fn list_of(alloc: Global, factors: &[(Numbers, u32)]) -> Result<FactorList, RingFault> {
    let mut list = FactorList::new(alloc)?;
    for (numbers, power) in factors {
        times(&mut list, *numbers, *power)?;
    }
    Ok(list)
}

// The constant coefficient at a power of k.
fn number_at(poly: &Znk, power: u32) -> Option<i128> {
    let coefficient = poly.coefficient(power)?;
    let number = coefficient.coefficient(0)?;
    Some(number.value())
}

#[test]
fn bounds_hold_at_their_ends(rt: HostRuntime) {
    for (numbers, within) in [
        ((64, -64, 1 << 40), true),
        ((65, 0, 0), false),
        ((0, -65, 0), false),
        ((0, 0, -(1 << 40) - 1), false),
    ] {
        assert_eq!(rt; form(numbers).is_some(), within);
    }
}

#[test]
fn values_reach_past_64_bits(rt: HostRuntime) {
    let greatest = form((64, 64, 1 << 40)).map(|form| form.at(i64::MAX, i64::MAX));
    assert_eq!(rt; greatest, Some(1_180_591_621_816_922_931_072));
    let least = form((64, 64, 1 << 40)).map(|form| form.at(i64::MIN, i64::MIN));
    assert_eq!(rt; least, Some(-1_180_591_619_617_899_675_648));
}

#[test]
fn forms_match(rt: HostRuntime) {
    for (numbers, other, shift) in [
        ((0, 1, 4), (0, 1, 1), Some(3)),
        ((0, 1, 1), (0, 1, 4), None),
        ((0, 2, 5), (0, 2, 1), Some(2)),
        ((-1, 1, 0), (0, 1, 1), None),
    ] {
        assert_eq!(rt; shift_of(numbers, other), Some(shift));
    }
}

#[test]
fn forms_become_primitive(rt: HostRuntime) {
    for (numbers, factor, primitive) in [
        ((4, -6, -2), -2, (-2, 3, 1)),
        ((0, 0, -3), -3, (0, 0, 1)),
        ((0, 0, 12), 12, (0, 0, 1)),
    ] {
        assert_eq!(rt; primitive_of(numbers), Some((factor, primitive)));
    }
}

#[test]
fn a_form_again_adds_its_power(rt: HostRuntime) -> Result<(), Fail> {
    let alloc = rt.alloc();
    let square = list_of(alloc, &[((0, 1, 1), 1), ((0, 1, 1), 1)])?;
    assert_eq!(rt; square.len(), 1);
    let poly = square.to_poly(alloc)?;
    for (power, number) in [(0, Some(1)), (1, Some(2)), (2, Some(1)), (3, None)] {
        assert_eq!(rt; number_at(&poly, power), number);
    }
    Ok(())
}

#[test]
fn a_list_is_sorted(rt: HostRuntime) -> Result<(), Fail> {
    let mut list = list_of(rt.alloc(), &[((0, 1, 1), 1), ((0, 1, 0), 1)])?;
    if let Some(three) = Whole::new(3) {
        list.multiply_scale(three)?;
    }
    let sorted = list.sorted()?;
    assert_eq!(rt; sorted.scale().value(), 3);
    let mut items = sorted.iter();
    for offset in [Some(0), Some(1), None] {
        let item = items.next();
        assert_eq!(rt; item.map(|item| item.0.offset()), offset);
    }
    Ok(())
}

#[test]
fn polynomials_end_at_their_bounds(rt: HostRuntime) -> Result<(), Fail> {
    let alloc = rt.alloc();
    for (offset, power, fault) in [
        (0, 255, None),
        (0, 256, Some(RingFault::TooLarge)),
        (1, 130, None),
        (1, 131, Some(RingFault::TooLarge)),
    ] {
        let list = list_of(alloc, &[((0, 1, offset), power)])?;
        assert_eq!(rt; list.to_poly(alloc).err(), fault);
    }
    Ok(())
}

#[test]
fn too_many_forms_have_no_polynomial(rt: HostRuntime) -> Result<(), Fail> {
    let alloc = rt.alloc();
    let mut many = FactorList::new(alloc)?;
    for offset in 1..64 {
        times(&mut many, (0, 1, offset), 1)?;
    }
    assert_eq!(rt; many.to_poly(alloc).err(), Some(RingFault::TooLarge));
    Ok(())
}
