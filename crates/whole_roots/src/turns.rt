//! Where the sign of a polynomial's values changes.
//!
//! Between two neighbouring changes of the difference's sign the values rise or fall all along, so bisection finds the changes of
//! their own sign there. Which number between the two ends is tried next is free: it is sought outwards from a known place.

ghost use Rattle.std.specs.Prelude.{◌≡◌, ◌≢◌, ◌+ℤ◌, ◌<ℤ◌, ◌≤ℤ◌, pos, IfOk, IfErr, OnOk, IsTrue, ◌↔◌};
ghost use Rattle.ring_laws.specs.Answer.{OnFault};
ghost use Rattle.ring_laws.specs.declared.faults.RingFault.TheVariants.{Memory};
ghost use Rattle.whole_roots.specs.Signs.{sign_of, value};
ghost use Rattle.whole_roots.specs.Differences.{difference, DifferencesInBounds};
ghost use Rattle.whole_roots.specs.Turns.{greatest, least, IsTurn, AreAll, IsMonotone, StaysUpTo, IsNextTurn};

use crate::differences::difference;
use crate::signs::{has_sign, sign_at};
use poly_generic::Zn;
use ring_laws::{Ring, RingFault, Sign};
use std::alloc::Global;

// A number between two that aren't neighbours.
fn middle(low: i128, high: i128) -> i128
    requires apart { (low +ℤ pos 1) <ℤ high }
    requires least { low ≢ i128.MIN }
    ensures between { (low <ℤ result) × (result <ℤ high) }
{
    if low < 0 && high > 0 {
        (low + high) / 2
    } else {
        low + (high - low) / 2
    }
}

// A power of 2 with about half as many digits as the two distances have together.
fn half_way(near: u128, far: u128) -> i128 {
    let digits = 256u32
        .saturating_sub(near.leading_zeros())
        .saturating_sub(far.leading_zeros());
    1i128.wrapping_shl(digits / 2)
}

// The number that is tried between two that aren't neighbours: behind a 0 its neighbour; `place` or 0, where it is between them; else one
// whose distance from the nearer of these has about half as many digits as it may have.
fn tried(low: i128, high: i128, sign: Sign, place: i128) -> i128
    requires apart { (low +ℤ pos 1) <ℤ high }
    requires least { low ≢ i128.MIN }
    ensures between { (low <ℤ result) × (result <ℤ high) }
{
    if sign == Sign::Zero {
        return low + 1;
    }
    if low < place && place < high {
        return place;
    }
    if low < 0 && 0 < high {
        return 0;
    }
    let from_place = low.abs_diff(place).max(high.abs_diff(place));
    let from_zero = low.unsigned_abs().max(high.unsigned_abs());
    let known = if from_place < from_zero { place } else { 0 };
    let step = half_way(low.abs_diff(known), high.abs_diff(known));
    let outwards = if known <= low {
        known.saturating_add(step)
    } else {
        known.saturating_sub(step)
    };
    if low < outwards && outwards < high {
        return outwards;
    }
    middle(low, high)
}

// The first change of the sign above `start`, up to `end`, of which `sign` isn't the sign.
fn next_turn(f: &Zn, start: i128, end: i128, sign: Sign, place: i128) -> i128
    requires least { start ≢ i128.MIN }
    requires order { start ≤ℤ end }
    requires monotone { IsMonotone (value (⟦<Zn as Ring>⟧.meaning f.now)) start end }
    requires begun { sign ≡ sign_of (value (⟦<Zn as Ring>⟧.meaning f.now) start) }
    requires ended { sign ≢ sign_of (value (⟦<Zn as Ring>⟧.meaning f.now) end) }
    ensures turn { IsNextTurn (value (⟦<Zn as Ring>⟧.meaning f.now)) start end result }
{
    let mut low = start;
    let mut high = end;
    while low < high - 1 {
        let between = tried(low, high, sign, place);
        if has_sign(f, between, sign) {
            low = between;
        } else {
            high = between;
        }
    }
    high
}

// Whether two signs are one.
fn is_same(sign: Sign, other: Sign) -> bool
    ensures same { IsTrue result ↔ (sign ≡ other) }
{
    sign == other
}

// Adds the changes above `start`, up to `end`, to those up to `start`, and gives the sign at `end`.
fn push_turns(
    found: &mut Vec<i128>,
    f: &Zn,
    start: i128,
    end: i128,
    sign: Sign,
    place: i128,
) -> Result<Sign, RingFault>
    requires least { start ≢ i128.MIN }
    requires order { start ≤ℤ end }
    requires monotone { IsMonotone (value (⟦<Zn as Ring>⟧.meaning f.now)) start end }
    requires begun { sign ≡ sign_of (value (⟦<Zn as Ring>⟧.meaning f.now) start) }
    requires found { AreAll (IsTurn (value (⟦<Zn as Ring>⟧.meaning f.now))) least start found.old.items }
    ensures found { OnOk result (AreAll (IsTurn (value (⟦<Zn as Ring>⟧.meaning f.now))) least end found.new.items) }
    ensures ended { IfOk result (λ sign. sign ≡ sign_of (value (⟦<Zn as Ring>⟧.meaning f.now) end)) }
    ensures memory { IfErr result (λ fault. fault ≡ Memory) }
{
    let last = sign_at(f, end);
    let mut at = start;
    let mut sign = sign;
    while !is_same(sign, last) {
        at = next_turn(f, at, end, sign, place);
        found.push(at)?;
        sign = sign_at(f, at);
    }
    Ok(last)
}

// Less the quotient of the two greatest coefficients, which is about the sum of all roots: near it is the greatest, where the others are
// small. No answer depends on it.
fn likely_root(f: &Zn) -> i128 {
    let list = f.coefficients();
    if list.len() < 2 {
        return 0;
    }
    let lead = list[list.len() - 1].value();
    if lead == 0 {
        return 0;
    }
    (list[list.len() - 2].value() / lead).wrapping_neg()
}

// All changes of the sign, from those of the difference's sign.
fn turns_from(alloc: Global, f: &Zn, cuts: &[i128]) -> Result<Vec<i128>, RingFault>
    requires cuts { AreAll (IsTurn (value (difference (⟦<Zn as Ring>⟧.meaning f.now)))) least greatest cuts.now }
    ensures turns { IfOk result (λ turns. AreAll (IsTurn (value (⟦<Zn as Ring>⟧.meaning f.now))) least greatest turns.items) }
    ensures memory { IfErr result (λ fault. fault ≡ Memory) }
{
    let place = likely_root(f);
    let mut found = Vec::new(alloc);
    let mut start = -i128::MAX;
    let mut sign = sign_at(f, start);
    for index in 0..cuts.len() {
        let cut = cuts[index];
        sign = push_turns(&mut found, f, start, cut, sign, place)?;
        start = cut;
    }
    let _last = push_turns(&mut found, f, start, i128::MAX, sign, place)?;
    Ok(found)
}

// All changes of the sign within the numbers of 127 bits, rising.
pub fn turns(alloc: Global, f: &Zn) -> Result<Vec<i128>, RingFault>
    ensures turns { IfOk result (λ turns. AreAll (IsTurn (value (⟦<Zn as Ring>⟧.meaning f.now))) least greatest turns.items) }
    ensures too_large { IfErr result (OnFault (¬ (DifferencesInBounds (⟦<Zn as Ring>⟧.meaning f.now)))) }
{
    if f.coefficients().len() < 2 {
        return Ok(Vec::new(alloc));
    }
    let difference = difference(alloc, f)?;
    let cuts = turns(alloc, &difference)?;
    turns_from(alloc, f, &cuts)
}
