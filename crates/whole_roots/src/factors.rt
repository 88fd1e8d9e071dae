//! The linear factors of a polynomial, with their powers.
//!
//! Where `u*n + v` divides f, -v is a whole root of `u^degree * f(n/u)`.

ghost use Rattle.std.specs.Prelude.{◌≡◌, ◌≢◌, false, ◌+◌, ◌≤◌, ◌<◌, ◌^◌, pos, neg_ℤ, ◌*ℤ◌, ◌≤ℤ◌, unsigned_abs, [], IfOk, IfErr, OnOk, ℕ, ℤ};
ghost use Rattle.std.specs.List.{AllByRecursion};
ghost use Rattle.ring_laws.specs.Meaning.{listed, items};
ghost use Rattle.ring_laws.specs.Answer.{OnFault};
ghost use Rattle.ring_laws.specs.Wholes.{whole_algebra};
ghost use Rattle.poly_laws.specs.Lists.{coefficient_at};
ghost use Rattle.whole_roots.specs.LinearFactors.{Entry, IsProfileForm, PowerDivides, IsBefore, IsGreatestPower, AreLinearFactors, AreSmall};
ghost use Rattle.whole_roots.specs.FactorSearch.{AreFactorsAmong, AddsFactor};
ghost use Rattle.whole_roots.specs.FactorBounds.{stretched, stretched_list, DivisionsInBounds, FactorsInBounds};

use crate::roots::whole_roots;
use indexmap::IndexMap;
use poly_divide::divide_by_linear;
use poly_generic::{Poly, Zn};
use ring_laws::{Ring, RingFault, Whole, gcd_whole};
use std::alloc::Global;

// The number times a power of the slope.
fn times_power(alloc: Global, number: Whole, slope: Whole, power: usize) -> Result<Whole, RingFault>
    requires slope { pos 1 ≤ℤ slope.value }
    ensures product { IfOk result (λ out. out.value ≡ number.value *ℤ pos (unsigned_abs slope.value ^ power)) }
    ensures too_large { IfErr result (OnFault (¬ (unsigned_abs (number.value *ℤ pos (unsigned_abs slope.value ^ power)) < 2 ^ 127))) }
{
    let mut product = number;
    for _turn in 0..power {
        product = product.mul(alloc, &slope)?;
    }
    Ok(product)
}

// slope^degree * f(n/slope), of which a whole number w is a root where w/slope is one of f.
fn stretched(alloc: Global, f: &Zn, slope: u8) -> Result<Zn, RingFault>
    requires slope { 1 ≤ slope }
    ensures gives { IfOk result (λ out. ⟦<Zn as Ring>⟧.meaning out ≡ stretched slope (⟦<Zn as Ring>⟧.meaning f.now)) }
    ensures too_large { IfErr result (OnFault (¬ ((k : ℕ) → whole_algebra.ops.Fits (coefficient_at whole_algebra.ops
        (stretched_list slope (items (⟦<Zn as Ring>⟧.meaning f.now))) k)))) }
{
    let Some(slope) = Whole::new(i128::from(slope)) else {
        return Err(RingFault::TooLarge);
    };
    let coefficients = f.coefficients();
    let mut list = Vec::new(alloc);
    for index in 0..coefficients.len() {
        let power = coefficients.len() - 1 - index;
        let item = times_power(alloc, coefficients[index], slope, power)?;
        list.push(item)?;
    }
    Poly::from_coefficients(list)
}

// How often the form divides f.
fn power_of(alloc: Global, f: &Zn, slope: u8, constant: i128) -> Result<u32, RingFault>
    requires not_zero { ⟦<Zn as Ring>⟧.meaning f.now ≢ listed [] }
    requires slope { 1 ≤ slope }
    requires constant { constant ≢ i128.MIN }
    ensures power { IfOk result (λ power. IsGreatestPower slope constant power (⟦<Zn as Ring>⟧.meaning f.now)) }
    ensures too_large { IfErr result (OnFault (¬ (DivisionsInBounds slope constant (⟦<Zn as Ring>⟧.meaning f.now)))) }
{
    let mut quotient = f.duplicate(alloc)?;
    let mut power: u32 = 0;
    while let Some(next) = divide_by_linear(alloc, &quotient, slope, constant)? {
        quotient = next;
        power += 1;
    }
    Ok(power)
}

// Adds the form with its power, where its two numbers have no common divisor above 1 and it divides f.
fn push_factor(
    alloc: Global,
    factors: &mut IndexMap<(u8, i128), u32>,
    f: &Zn,
    slope: u8,
    constant: i128,
) -> Result<(), RingFault>
    requires not_zero { ⟦<Zn as Ring>⟧.meaning f.now ≢ listed [] }
    requires from_one { 1 ≤ slope }
    requires to_four { slope ≤ 4 }
    requires constant { constant ≢ i128.MIN }
    requires last { AllByRecursion (λ (x : Entry). IsBefore x.0 (slope, constant)) factors.old.entries }
    ensures adds { OnOk result (AddsFactor (⟦<Zn as Ring>⟧.meaning f.now) slope constant factors.old.entries factors.new.entries) }
    ensures too_large { IfErr result (OnFault (IsProfileForm slope constant × ¬ (DivisionsInBounds slope constant (⟦<Zn as Ring>⟧.meaning f.now)))) }
{
    if gcd_whole(u128::from(slope), constant.unsigned_abs()) != 1 {
        return Ok(());
    }
    let power = power_of(alloc, f, slope, constant)?;
    if power > 0 {
        factors.insert((slope, constant), power)?;
    }
    Ok(())
}

// Whether some form of this slope may divide f: f isn't constant, and the slope divides its lead.
fn may_divide(f: &Zn, slope: u8) -> bool
    requires not_zero { ⟦<Zn as Ring>⟧.meaning f.now ≢ listed [] }
    requires slope { 1 ≤ slope }
    ensures none { result ≡ false → (v : ℤ) → ¬ (PowerDivides slope v 1 (⟦<Zn as Ring>⟧.meaning f.now)) }
{
    let list = f.coefficients();
    list.len() > 1 && list[list.len() - 1].value().unsigned_abs() % u128::from(slope) == 0
}

// Adds the factors of a slope to those of smaller slopes.
fn push_factors(
    alloc: Global,
    factors: &mut IndexMap<(u8, i128), u32>,
    f: &Zn,
    slope: u8,
) -> Result<(), RingFault>
    requires not_zero { ⟦<Zn as Ring>⟧.meaning f.now ≢ listed [] }
    requires from_one { 1 ≤ slope }
    requires to_four { slope ≤ 4 }
    requires found { AreFactorsAmong (λ u v. u < slope) (⟦<Zn as Ring>⟧.meaning f.now) factors.old.entries }
    ensures found { OnOk result (AreFactorsAmong (λ u v. u < slope + 1) (⟦<Zn as Ring>⟧.meaning f.now) factors.new.entries) }
    ensures too_large { IfErr result (OnFault (¬ (FactorsInBounds (⟦<Zn as Ring>⟧.meaning f.now)))) }
{
    if !may_divide(f, slope) {
        return Ok(());
    }
    let stretched = stretched(alloc, f, slope)?;
    let roots = whole_roots(alloc, &stretched)?;
    let mut left = roots.len();
    while left > 0 {
        left -= 1;
        push_factor(alloc, factors, f, slope, -roots[left])?;
    }
    Ok(())
}

/// Every form `u*n + v` that divides f, with u from 1 to 4 and no common divisor of u and v above 1, and its greatest power: by
/// rising u, and then rising v.
///
/// `TooLarge` comes only where, for some u from 1 to 4, a number of the list `f_i * u^(degree - i)` or one of its iterated differences
/// is out of bounds, or a step of a division by a factor, which is divided out of f as often as it goes, and once more.
pub fn linear_factors(alloc: Global, f: &Zn) -> Result<IndexMap<(u8, i128), u32>, RingFault>
    requires not_zero { ⟦<Zn as Ring>⟧.meaning f.now ≢ listed [] }
    ensures factors { IfOk result (λ factors. AreLinearFactors (⟦<Zn as Ring>⟧.meaning f.now) factors.entries) }
    ensures small { IfOk result (λ factors. AreSmall factors.entries) }
    ensures too_large { IfErr result (OnFault (¬ (FactorsInBounds (⟦<Zn as Ring>⟧.meaning f.now)))) }
{
    let mut factors = IndexMap::new(alloc);
    for slope in 1..5 {
        push_factors(alloc, &mut factors, f, slope)?;
    }
    Ok(factors)
}
