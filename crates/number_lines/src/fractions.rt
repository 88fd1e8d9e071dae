//! Fractions of whole numbers in lowest terms.

ghost use Rattle.std.specs.Prelude.{◌≡◌, ◌≢◌, ◌++◌, List, ℤ, pos, map, None, Some, IfOk, IfSome, OnOk, MatchOption, string_bytes};
ghost use Rattle.std.specs.Fmt.{signed_decimal};
ghost use Rattle.hypergeometric.specs.Fraction.{Fraction};
ghost use Rattle.hypergeometric.specs.TermFacts.{IsNumber, IsLowest};
ghost use Rattle.poly_fraction.specs.FractionOf.{fraction_of};
ghost use Rattle.proper_term.specs.Fields.{number_fraction, number_fraction_of};
ghost use Rattle.number_lines.specs.Fractions.{fractions, nonzero_fractions, fraction_pieces, denominator_text};
ghost use Rattle.number_lines.specs.FractionLaws.{fractions_within_line, fractions_are_items, nonzero_within_line, nonzero_are_items};

use crate::numbers::WholeNumbers;
use poly_fraction::Frac;
use ring_laws::{Whole, gcd_whole};
use spelled::{ItemSpelling, Spelling, pieces};
use std::alloc::{AllocError, Global};

// The fraction of two numbers, none where it isn't in lowest terms.
fn lowest_fraction(top: Whole, bottom: Whole) -> Option<Frac<Whole>>
    ensures { MatchOption result (¬ fractions.Has (number_fraction top.value bottom.value))
        (λ f. (number_fraction_of (fraction_of f) ≡ number_fraction top.value bottom.value) × fractions.Has (number_fraction_of (fraction_of f))) }
{
    if bottom.value() <= 0 {
        return None;
    }
    if gcd_whole(top.unsigned_abs(), bottom.unsigned_abs()) != 1 {
        return None;
    }
    Frac::new(top, bottom)
}

// The denominator that a text spells, 1 where there is no text of it.
fn read_denominator(alloc: Global, text: Option<&[u8]>) -> Result<Option<Whole>, AllocError>
    ensures one { text.entry ≡ None → IfOk result (λ found. MatchOption found ⊥ (λ x. x.value ≡ pos 1)) }
    ensures more { (z : ℤ) → IsNumber z → MatchOption text.entry ⊥ (λ t. t.now ≡ signed_decimal z)
        → IfOk result (λ found. MatchOption found ⊥ (λ x. x.value ≡ z)) }
{
    match text {
        None => Ok(Some(Whole::ONE)),
        Some(text) => WholeNumbers.read(alloc, text),
    }
}

// The numerator and the denominator that pieces spell.
fn read_pieces(alloc: Global, pieces: &[&[u8]]) -> Result<Option<(Whole, Whole)>, AllocError>
    ensures read { (f : Fraction) → fractions.Has f → map (λ p. p.now) pieces.now ≡ fraction_pieces f
        → IfOk result (λ found. MatchOption found ⊥ (λ x. number_fraction x.0.value x.1.value ≡ f)) }
{
    let Some((first, others)) = pieces.split_first() else {
        return Ok(None);
    };
    let Some(top) = WholeNumbers.read(alloc, first)? else {
        return Ok(None);
    };
    let Some(bottom) = read_denominator(alloc, others.first().copied())? else {
        return Ok(None);
    };
    Ok(Some((top, bottom)))
}

// Writes the slash and the denominator, nothing where it is 1.
fn write_denominator(bottom: Whole, text: &mut String) -> Result<(), AllocError>
    ensures { OnOk result (string_bytes text.new ≡ string_bytes text.old ++ denominator_text bottom.value) }
{
    if bottom.unsigned_abs() == 1 {
        return Ok(());
    }
    text.push_str("/")?;
    WholeNumbers.write(&bottom, text)
}

/// Fractions in lowest terms with a positive denominator, whose numbers are below 2^127 in magnitude.
#[derive(Clone, Copy)]
pub struct Fractions;

impl Spelling for Fractions {
    type Item = Frac<Whole>;

    ghost Value = { Fraction };

    ghost value_of = { λ f. number_fraction_of (fraction_of f) };

    ghost format = { λ _. fractions };

    fn write(&self, fraction: &Frac<Whole>, text: &mut String) -> Result<(), AllocError> {
        WholeNumbers.write(fraction.top(), text)?;
        write_denominator(*fraction.bottom(), text)
    }

    fn read(&self, alloc: Global, text: &[u8]) -> Result<Option<Frac<Whole>>, AllocError> {
        let pieces = pieces(alloc, text, b'/', b"")?;
        let Some((top, bottom)) = read_pieces(alloc, &pieces)? else {
            return Ok(None);
        };
        Ok(lowest_fraction(top, bottom))
    }

    ghost within_line = { λ _. fractions_within_line };
}

impl ItemSpelling for Fractions {
    ghost are_items = { λ _. fractions_are_items };
}

/// Fractions other than 0, as those of `Fractions`.
#[derive(Clone, Copy)]
pub struct NonzeroFractions;

impl Spelling for NonzeroFractions {
    type Item = Frac<Whole>;

    ghost Value = { Fraction };

    ghost value_of = { λ f. number_fraction_of (fraction_of f) };

    ghost format = { λ _. nonzero_fractions };

    fn write(&self, fraction: &Frac<Whole>, text: &mut String) -> Result<(), AllocError> {
        Fractions.write(fraction, text)
    }

    fn read(&self, alloc: Global, text: &[u8]) -> Result<Option<Frac<Whole>>, AllocError> {
        let Some(fraction) = Fractions.read(alloc, text)? else {
            return Ok(None);
        };
        if fraction.top().value() == 0 {
            return Ok(None);
        }
        Ok(Some(fraction))
    }

    ghost within_line = { λ _. nonzero_within_line };
}

impl ItemSpelling for NonzeroFractions {
    ghost are_items = { λ _. nonzero_are_items };
}
