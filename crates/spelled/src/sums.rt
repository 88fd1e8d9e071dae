//! Sums of monomials: polynomials and linear forms in n, k and x.

ghost use Rattle.std.specs.Prelude.{◌≡◌, ◌++◌, Bool, ℕ, List, ◌∷◌, map, IfOk, IfSome, OnOk, MatchOption, string_bytes, unsigned_abs};
ghost use Rattle.std.specs.List.{AllByRecursion, flat_map};
ghost use Rattle.exact_texts.specs.Texts.{Only};
ghost use Rattle.exact_texts.specs.Sums.{body_text, signed_text, IsMonomial, sums};
ghost use Rattle.exact_texts.proofs.SumLists.{unsigned};
ghost use Rattle.exact_texts.proofs.SumItems.{sums_within_line, sums_are_items};
ghost use Rattle.spelled.specs.Monomials.{signed_number, sign_byte, IsSigned, monomial_of, MonomialValue};

use crate::cutting::{behind, is_same};
use crate::lists::ItemSpelling;
use crate::monomials::{Monomial, has_text, monomial_of_factors};
use crate::spelled::Spelling;
use crate::splitting::pieces;
use crate::sum_writing::write_sum;
use std::alloc::{AllocError, Global};

// The monomial with this sign that a text without signs spells.
fn read_body(alloc: Global, negative: bool, text: &[u8]) -> Result<Option<Monomial>, AllocError>
    ensures read { (m : MonomialValue) → IsMonomial m → IsSigned negative m → text.now ≡ body_text m
        → IfOk result (λ found. MatchOption found ⊥ (λ x. monomial_of x ≡ m)) }
    ensures has { IfOk result (λ found. IfSome found (λ x. IsMonomial (monomial_of x))) }
{
    let factors = pieces(alloc, text, b'*', b"")?;
    let Some(monomial) = monomial_of_factors(negative, &factors) else {
        return Ok(None);
    };
    if has_text(&monomial) {
        return Ok(Some(monomial));
    }
    Ok(None)
}

// What stands in front of the first sign; whether that is a minus, and what stands behind it.
fn cut_at_sign(text: &[u8]) -> (&[u8], Option<(bool, &[u8])>)
    ensures body { Only unsigned result.0.now }
    ensures rest { MatchOption result.1 (text.now ≡ result.0.now) (λ x. text.now ≡ result.0.now ++ sign_byte x.0 ∷ x.1.now) }
{
    for (index, byte) in text.iter().enumerate() {
        if *byte == b'+' || *byte == b'-' {
            return (&text[..index], Some((*byte == b'-', &text[index + 1..])));
        }
    }
    (text, None)
}

// The monomials of a text without the sign of the first.
fn read_signed(
    alloc: Global,
    first_negative: bool,
    text: &[u8],
) -> Result<Option<Vec<Monomial>>, AllocError>
    ensures read { (m : MonomialValue) (ms : List MonomialValue) → AllByRecursion IsMonomial (m ∷ ms) → IsSigned first_negative m
        → text.now ≡ body_text m ++ flat_map signed_text ms
        → IfOk result (λ found. MatchOption found ⊥ (λ x. map monomial_of x.items ≡ m ∷ ms)) }
    ensures has { IfOk result (λ found. IfSome found (λ x. AllByRecursion IsMonomial (map monomial_of x.items))) }
{
    let mut monomials = Vec::new(alloc);
    let mut negative = first_negative;
    let mut rest = text;
    loop {
        let (body, more) = cut_at_sign(rest);
        match read_body(alloc, negative, body)? {
            Some(monomial) => monomials.push(monomial)?,
            None => return Ok(None),
        }
        match more {
            Some((next_negative, behind_sign)) => {
                negative = next_negative;
                rest = behind_sign;
            }
            None => return Ok(Some(monomials)),
        }
    }
}

// The monomials of a sum.
fn read_sum(alloc: Global, text: &[u8]) -> Result<Option<Vec<Monomial>>, AllocError>
    ensures read { (ms : List MonomialValue) → sums.Has ms → text.now ≡ sums.text ms
        → IfOk result (λ found. MatchOption found ⊥ (λ x. map monomial_of x.items ≡ ms)) }
    ensures has { IfOk result (λ found. IfSome found (λ x. sums.Has (map monomial_of x.items))) }
{
    if is_same(text, b"0") {
        return Ok(Some(Vec::new(alloc)));
    }
    match behind(text, b"-") {
        Some(rest) => read_signed(alloc, true, rest),
        None => read_signed(alloc, false, text),
    }
}

/// Sums of monomials in n, k and x, each with a coefficient other than 0 and powers below 256, in any order.
#[derive(Clone, Copy)]
pub struct Sums;

impl Spelling for Sums {
    type Item = Vec<Monomial>;

    ghost Value = { List MonomialValue };

    ghost value_of = { λ v. map monomial_of v.items };

    ghost format = { λ _. sums };

    fn write(&self, monomials: &Vec<Monomial>, text: &mut String) -> Result<(), AllocError> {
        write_sum(text, monomials)
    }

    fn read(&self, alloc: Global, text: &[u8]) -> Result<Option<Vec<Monomial>>, AllocError> {
        read_sum(alloc, text)
    }

    ghost within_line = { λ _. sums_within_line };
}

impl ItemSpelling for Sums {
    ghost are_items = { λ _. sums_are_items };
}
