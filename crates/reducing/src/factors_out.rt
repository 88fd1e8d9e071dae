//! Taking linear factors out of a row of polynomials, each as often as it divides every entry.

ghost use Rattle.std.specs.Prelude.{◌≡◌, ◌≢◌, ◌≤◌, ◌<◌, ◌^◌, pos, unsigned_abs, map, length, slice_get, Some, IfOk, IfErr, IsFalse};
ghost use Rattle.std.specs.List.{AllByRecursion};
ghost use Rattle.ring_laws.specs.declared.faults.RingFault.TheVariants.{Memory};
ghost use Rattle.poly_divide.specs.Forms.{linear};
ghost use Rattle.whole_roots.specs.Differences.{polynomials};
ghost use Rattle.whole_roots.specs.LinearFactors.{Entry};
ghost use Rattle.reducing.specs.RowAnswer.{GivesRow};
ghost use Rattle.reducing.specs.TakenOut.{TakenOut, AllTakenOut};
ghost use Rattle.reducing.specs.PolynomialRows.{OfRows, forms};
ghost use Rattle.reducing.specs.PolynomialAnswers.{IsMost, FactorInBounds, FactorsOfRowInBounds};

use crate::row_divisions::divide_row;
use indexmap::IndexMap;
use poly_generic::{Poly, Zn};
use ring_laws::{Ring, RingFault, Whole};
use std::alloc::Global;

// The polynomial `u*n + v`.
fn form_of(alloc: Global, u: u8, v: i128) -> Result<Zn, RingFault>
    requires slope { 1 ≤ u }
    requires offset { v ≢ i128.MIN }
    ensures form { IfOk result (λ form. ⟦<Zn as Ring>⟧.meaning form ≡ linear (pos u) v) }
    ensures memory { IfErr result (λ fault. fault ≡ Memory) }
{
    let constant = Whole::new(v).unwrap();
    let slope = Whole::new(i128::from(u)).unwrap();
    let mut list = Vec::new(alloc);
    list.push(constant)?;
    list.push(slope)?;
    Poly::from_coefficients(list)
}

// The row divided by the form as often as that divides every entry, which is at most so often.
fn without_factor(alloc: Global, row: Vec<Zn>, form: &Zn, most: u32) -> Result<Vec<Zn>, RingFault>
    requires not_zero { IsFalse (polynomials.ops.is_nought (⟦<Zn as Ring>⟧.meaning form.now)) }
    requires most { IsMost (⟦<Zn as Ring>⟧.meaning form.now) most (map ⟦<Zn as Ring>⟧.meaning row.items) }
    ensures takes_out { GivesRow ⟦<Zn as Ring>⟧.meaning
        (OfRows (TakenOut polynomials (⟦<Zn as Ring>⟧.meaning form.now)) (map ⟦<Zn as Ring>⟧.meaning row.items))
        (FactorInBounds (⟦<Zn as Ring>⟧.meaning form.now) (map ⟦<Zn as Ring>⟧.meaning row.items)) result }
{
    let mut rest = row;
    for _time in 0..most {
        match divide_row(alloc, &rest, form)? {
            Some(quotients) => rest = quotients,
            None => return Ok(rest),
        }
    }
    Ok(rest)
}

// The row without one of the factors.
fn without_entry(
    alloc: Global,
    row: Vec<Zn>,
    factors: &IndexMap<(u8, i128), u32>,
    index: usize,
) -> Result<Vec<Zn>, RingFault>
    requires within { index < length factors.now.entries }
    requires slope { (x : Entry) → slice_get factors.now.entries index ≡ Some x → 1 ≤ x.0.0 }
    requires offset { (x : Entry) → slice_get factors.now.entries index ≡ Some x → unsigned_abs x.0.1 < 2 ^ 127 }
    requires most { (x : Entry) → slice_get factors.now.entries index ≡ Some x →
        IsMost (linear (pos x.0.0) x.0.1) x.1 (map ⟦<Zn as Ring>⟧.meaning row.items) }
    ensures takes_out { (x : Entry) → slice_get factors.now.entries index ≡ Some x → GivesRow ⟦<Zn as Ring>⟧.meaning
        (OfRows (TakenOut polynomials (linear (pos x.0.0) x.0.1)) (map ⟦<Zn as Ring>⟧.meaning row.items))
        (FactorInBounds (linear (pos x.0.0) x.0.1) (map ⟦<Zn as Ring>⟧.meaning row.items)) result }
{
    match factors.get_index(index) {
        Some((form, power)) => {
            let form = form_of(alloc, form.0, form.1)?;
            without_factor(alloc, row, &form, *power)
        }
        None => Ok(row),
    }
}

// The row divided by each factor, in its order, as often as that divides every entry.
pub fn without_factors(
    alloc: Global,
    row: Vec<Zn>,
    factors: &IndexMap<(u8, i128), u32>,
) -> Result<Vec<Zn>, RingFault>
    requires slopes { AllByRecursion (λ (x : Entry). 1 ≤ x.0.0) factors.now.entries }
    requires offsets { AllByRecursion (λ (x : Entry). unsigned_abs x.0.1 < 2 ^ 127) factors.now.entries }
    requires most { AllByRecursion (λ (x : Entry). IsMost (linear (pos x.0.0) x.0.1) x.1 (map ⟦<Zn as Ring>⟧.meaning row.items)) factors.now.entries }
    ensures takes_out { GivesRow ⟦<Zn as Ring>⟧.meaning
        (OfRows (AllTakenOut polynomials (forms factors.now.entries)) (map ⟦<Zn as Ring>⟧.meaning row.items))
        (FactorsOfRowInBounds factors.now.entries (map ⟦<Zn as Ring>⟧.meaning row.items)) result }
{
    let mut rest = row;
    for index in 0..factors.len() {
        rest = without_entry(alloc, rest, factors, index)?;
    }
    Ok(rest)
}
