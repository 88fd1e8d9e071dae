//! Reads polynomials in k. More spellings are read than a document has: whoever reads a document compares it with its one text.

ghost use Rattle.std.specs.Prelude.{◌≡◌, ◌<◌, ◌^◌, ◌++◌, ℕ, ℤ, pos, Bool, true, List, length, Some, IfOk, IfSome, MatchOption};
ghost use Rattle.ring_laws.specs.Meaning.{Meaning};
ghost use Rattle.document_text.specs.Spelling.{Monomial, power_text, magnitude_text, polynomial_text};
ghost use Rattle.hypergeometric.specs.TermFacts.{IsNumber, IsPolynomial};
ghost use Rattle.exact_texts.proofs.Cuts.{Stops};
ghost use Rattle.cert_text.specs.PolynomialDocument.{in_k};
ghost use Rattle.cert_text.specs.Printing.{monomial_in_k, placed_text};
ghost use Rattle.cert_text.specs.Reading.{unsigned, IsMagnitudeText, IsStarOf, AreFalling, rest_text, value_in, coefficient_of};

use crate::cutting::until;
use crate::numbers::{read_natural, read_sign, with_sign};
use poly_generic::{Poly, Zn};
use ring_laws::{Ring, RingFault, Whole};
use std::alloc::{AllocError, Global};

// What follows the star, if there is one.
fn without_star(text: &[u8]) -> &[u8]
    ensures star { IsStarOf text.now result.now }
{
    text.strip_prefix(b"*".as_slice()).unwrap_or(text)
}

// The power that is spelled `k`, or `k^power`, or by nothing.
fn read_power(text: &[u8]) -> Option<u32>
    ensures read { (power : ℕ) → power < 256 → text.now ≡ power_text 107 power → result ≡ Some power }
{
    if text.is_empty() {
        return Some(0);
    }
    let rest = text.strip_prefix(b"k".as_slice())?;
    if rest.is_empty() {
        return Some(1);
    }
    let power = read_natural(rest.strip_prefix(b"^".as_slice())?)?;
    u32::try_from(power).ok()
}

// A magnitude, 1 where no digits are there.
fn read_magnitude(digits: &[u8]) -> Option<u128>
    ensures read { (n : ℕ) → n < 2 ^ 127 → IsMagnitudeText digits.now n → result ≡ Some n }
{
    if digits.is_empty() {
        return Some(1);
    }
    read_natural(digits)
}

// The magnitude of a coefficient and its power of k.
fn read_unsigned(text: &[u8]) -> Option<(u128, u32)>
    ensures read { (magnitude power : ℕ) → magnitude < 2 ^ 127 → power < 256 → text.now ≡ magnitude_text magnitude (power_text 107 power)
        → result ≡ Some (magnitude, power) }
{
    let (digits, tail) = until(text, b"*k");
    let magnitude = read_magnitude(digits)?;
    let power = read_power(without_star(tail))?;
    Some((magnitude, power))
}

// The coefficient and the power of the monomial in front, and what follows it.
fn read_monomial(text: &[u8]) -> Option<(Whole, u32, &[u8])>
    ensures read { (first : Bool) (z : ℤ) (power : ℕ) (behind : List ℕ) → IsNumber z → power < 256 → Stops unsigned behind
        → text.now ≡ placed_text first (monomial_in_k z power) ++ behind
        → MatchOption result ⊥ (λ x. (x.0.value ≡ z) × (x.1 ≡ power) × (x.2.now ≡ behind)) }
{
    let (negative, body) = read_sign(text);
    let (piece, rest) = until(body, b"+-");
    let (magnitude, power) = read_unsigned(piece)?;
    let coefficient = with_sign(negative, magnitude)?;
    Some((coefficient, power, rest))
}

// The most coefficients of a polynomial.
const MAX_LENGTH: usize = 256;

// As many zeros as a polynomial has coefficients at most.
fn noughts(alloc: Global) -> Result<Vec<Whole>, AllocError>
    ensures many { IfOk result (λ list. length list.items ≡ 256) }
    ensures each { IfOk result (λ list. (k : ℕ) → value_in list.items k ≡ pos 0) }
{
    let Some(nought) = with_sign(false, 0) else {
        unreachable!()
    };
    vec![in alloc; nought; MAX_LENGTH]
}

// The coefficients of monomials in falling powers, from the power 0 up, with zeros behind them.
fn read_coefficients(alloc: Global, text: &[u8]) -> Result<Option<Vec<Whole>>, AllocError>
    ensures short { IfOk result (λ found. IfSome found (λ list. length list.items ≡ 256)) }
    ensures read { (ms : List Monomial) → AreFalling 256 ms → text.now ≡ rest_text true ms
        → IfOk result (λ found. MatchOption found ⊥ (λ list. (k : ℕ) → value_in list.items k ≡ coefficient_of ms k)) }
{
    let mut coefficients = noughts(alloc)?;
    let mut bound = MAX_LENGTH as u32;
    let mut rest = text;
    while !rest.is_empty() {
        let Some((coefficient, power, behind)) = read_monomial(rest) else {
            return Ok(None);
        };
        if power >= bound {
            return Ok(None);
        }
        coefficients[power as usize] = coefficient;
        bound = power;
        rest = behind;
    }
    Ok(Some(coefficients))
}

// The polynomial in k that a text spells.
pub(crate) fn read_polynomial(alloc: Global, text: &[u8]) -> Result<Option<Zn>, AllocError>
    ensures read { (p : Meaning) → IsPolynomial 1 p → text.now ≡ polynomial_text (in_k p)
        → IfOk result (λ found. MatchOption found ⊥ (λ poly. ⟦<Zn as Ring>⟧.meaning poly ≡ p)) }
{
    let Some(coefficients) = read_coefficients(alloc, text)? else {
        return Ok(None);
    };
    match Poly::from_coefficients(coefficients) {
        Ok(poly) => Ok(Some(poly)),
        Err(RingFault::TooLarge) => unreachable!(),
        Err(RingFault::Memory) => Err(AllocError),
    }
}
