//! What the fields of a document say, and what stands in for a field that can't be read.

ghost use Rattle.std.specs.Prelude.{◌≡◌, ◌≢◌, ◌≤◌, ◌↔◌, [], ℕ, ℤ, pos, IsTrue, IfOk, length};
ghost use Rattle.std.specs.Fmt.{signed_decimal};
ghost use Rattle.ring_laws.specs.Meaning.{Meaning, items};
ghost use Rattle.document_text.specs.Spelling.{polynomial_text};
ghost use Rattle.hypergeometric.specs.TermFacts.{IsNumber, IsPolynomial};
ghost use Rattle.cert_text.specs.PolynomialDocument.{in_k};

use crate::numbers::read_whole;
use crate::polynomials::read_polynomial;
use poly_generic::Zn;
use ring_laws::{Ring, RingFault, Whole};
use std::alloc::{AllocError, Global};

// The greatest degree of the polynomial of a term.
const MAX_DEGREE: u32 = 4;

// A number, 0 for none.
pub(crate) fn number_of_field(field: &[u8]) -> Whole
    ensures read { (z : ℤ) → IsNumber z → field.now ≡ signed_decimal z → result.value ≡ z }
{
    match read_whole(field) {
        Some(number) => number,
        None => small_whole(0),
    }
}

// A scale, 1 for none.
pub(crate) fn scale_of_field(field: &[u8]) -> Whole
    ensures read { (z : ℤ) → IsNumber z → z ≢ pos 0 → field.now ≡ signed_decimal z → result.value ≡ z }
    ensures not_zero { result.value ≢ pos 0 }
{
    match read_whole(field) {
        Some(scale) if scale.value() != 0 => scale,
        _ => small_whole(1),
    }
}

// A small number.
fn small_whole(value: i8) -> Whole
    ensures value { result.value ≡ value }
{
    match Whole::new(i128::from(value)) {
        Some(number) => number,
        None => unreachable!(),
    }
}

// Whether the polynomial of a term may be this one.
fn is_term_polynomial(poly: &Zn) -> bool
    ensures test { IsTrue result ↔ ((items (⟦<Zn as Ring>⟧.meaning poly.now) ≢ []) × (length (items (⟦<Zn as Ring>⟧.meaning poly.now)) ≤ 5)) }
{
    match poly.degree() {
        Some(degree) => degree <= MAX_DEGREE,
        None => false,
    }
}

// A polynomial, 0 for none.
pub(crate) fn polynomial_of_field(alloc: Global, field: &[u8]) -> Result<Zn, AllocError>
    ensures read { (p : Meaning) → IsPolynomial 1 p → field.now ≡ polynomial_text (in_k p)
        → IfOk result (λ poly. ⟦<Zn as Ring>⟧.meaning poly ≡ p) }
    ensures bounded { IfOk result (λ poly. IsPolynomial 1 (⟦<Zn as Ring>⟧.meaning poly)) }
{
    if let Some(poly) = read_polynomial(alloc, field)? {
        return Ok(poly);
    }
    match Zn::zero(alloc) {
        Ok(zero) => Ok(zero),
        Err(RingFault::TooLarge) => unreachable!(),
        Err(RingFault::Memory) => Err(AllocError),
    }
}

// The polynomial of a term, 1 for none.
pub(crate) fn term_polynomial_of_field(alloc: Global, field: &[u8]) -> Result<Zn, AllocError>
    ensures read { (p : Meaning) → IsPolynomial 1 p → items p ≢ [] → length (items p) ≤ 5 → field.now ≡ polynomial_text (in_k p)
        → IfOk result (λ poly. ⟦<Zn as Ring>⟧.meaning poly ≡ p) }
    ensures bounded { IfOk result (λ poly. IsPolynomial 1 (⟦<Zn as Ring>⟧.meaning poly)) }
    ensures not_zero { IfOk result (λ poly. items (⟦<Zn as Ring>⟧.meaning poly) ≢ []) }
    ensures degree { IfOk result (λ poly. length (items (⟦<Zn as Ring>⟧.meaning poly)) ≤ 5) }
{
    let poly = polynomial_of_field(alloc, field)?;
    if is_term_polynomial(&poly) {
        return Ok(poly);
    }
    match Zn::one(alloc) {
        Ok(one) => Ok(one),
        Err(RingFault::TooLarge) => unreachable!(),
        Err(RingFault::Memory) => Err(AllocError),
    }
}
