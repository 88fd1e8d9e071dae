//! The content of a row of polynomials in n, and its quotients by it.

ghost use Rattle.std.specs.Prelude.{◌≡◌, ◌≢◌, ◌≤ℤ◌, pos, unsigned_abs, map, IfOk, IfErr};
ghost use Rattle.ring_laws.specs.declared.faults.RingFault.TheVariants.{Memory};
ghost use Rattle.poly_divide.specs.Content.{sizes_of, row_sizes, DividesAll, IsContent};
ghost use Rattle.whole_roots.specs.Differences.{polynomials};

use crate::whole_rows::divided;
use poly_divide::whole_content;
use poly_generic::{Poly, Zn};
use ring_laws::{Ring, RingFault, Whole};
use std::alloc::Global;

// The same numbers once more.
fn copied(alloc: Global, list: &[Whole]) -> Result<Vec<Whole>, RingFault>
    ensures copy { IfOk result (λ copy. copy.items ≡ list.now) }
    ensures memory { IfErr result (λ fault. fault ≡ Memory) }
{
    let mut copy = Vec::new(alloc);
    for number in list {
        copy.push(*number)?;
    }
    Ok(copy)
}

// The quotient by a number that divides each coefficient.
fn quotient_by(alloc: Global, f: &Zn, divisor: Whole) -> Result<Zn, RingFault>
    requires divides { DividesAll (unsigned_abs divisor.value) (sizes_of (⟦<Zn as Ring>⟧.meaning f.now)) }
    requires not_zero { divisor.value ≢ pos 0 }
    ensures quotient { IfOk result (λ quotient. ⟦<Zn as Ring>⟧.meaning f.now
        ≡ polynomials.ops.product (⟦<Zn as Ring>⟧.meaning quotient) (polynomials.ops.whole divisor.value)) }
    ensures memory { IfErr result (λ fault. fault ≡ Memory) }
{
    let list = copied(alloc, f.coefficients())?;
    Poly::from_coefficients(divided(list, divisor))
}

// The quotients by a number that divides each coefficient of each entry.
fn quotients_by(alloc: Global, row: &[Zn], divisor: Whole) -> Result<Vec<Zn>, RingFault>
    requires divides { DividesAll (unsigned_abs divisor.value) (row_sizes (map ⟦<Zn as Ring>⟧.meaning row.now)) }
    requires not_zero { divisor.value ≢ pos 0 }
    ensures quotients { IfOk result (λ quotients. map ⟦<Zn as Ring>⟧.meaning row.now
        ≡ map (λ f. polynomials.ops.product (⟦<Zn as Ring>⟧.meaning f) (polynomials.ops.whole divisor.value)) quotients.items) }
    ensures memory { IfErr result (λ fault. fault ≡ Memory) }
{
    let mut quotients = Vec::new(alloc);
    for entry in row {
        let quotient = quotient_by(alloc, entry, divisor)?;
        quotients.push(quotient)?;
    }
    Ok(quotients)
}

// The whole content of the row.
pub fn content_of(row: &[Zn]) -> Whole
    ensures content { IsContent (row_sizes (map ⟦<Zn as Ring>⟧.meaning row.now)) (unsigned_abs result.value) }
    ensures sign { pos 0 ≤ℤ result.value }
{
    Whole::new(whole_content(row) as i128).unwrap()
}

// The quotients by a content that isn't 0. Those by 1 are the row itself.
pub fn without_content(alloc: Global, row: Vec<Zn>, content: Whole) -> Result<Vec<Zn>, RingFault>
    requires content { IsContent (row_sizes (map ⟦<Zn as Ring>⟧.meaning row.items)) (unsigned_abs content.value) }
    requires not_zero { content.value ≢ pos 0 }
    ensures quotients { IfOk result (λ quotients. map ⟦<Zn as Ring>⟧.meaning row.items
        ≡ map (λ f. polynomials.ops.product (⟦<Zn as Ring>⟧.meaning f) (polynomials.ops.whole content.value)) quotients.items) }
    ensures memory { IfErr result (λ fault. fault ≡ Memory) }
{
    if content.value() == 1 {
        return Ok(row);
    }
    quotients_by(alloc, &row, content)
}
