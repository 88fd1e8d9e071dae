//! The fields of a term: the polynomial, the scale and the bases, and the lists.

ghost use Rattle.std.specs.Prelude.{◌≡◌, ◌++◌, IfOk, IfSome, OnOk, MatchOption, string_bytes};
ghost use Rattle.term_lines.specs.Fields.{TermParts};
ghost use Rattle.term_lines.specs.TermTexts.{term_fields};

use crate::lists::{Lists, TermLists};
use crate::words::FieldWord;
use number_lines::NonzeroFractions;
use poly_fraction::Frac;
use poly_generic::Znk;
use polynomial_lines::{POLYNOMIALS_IN_N_AND_K, Polynomials};
use ring_laws::Whole;
use spelled::{Beside, Separator, Spelling, Worded};
use std::alloc::{AllocError, Global};

type PolyField = Worded<FieldWord, Polynomials<Znk>>;

type FractionField = Worded<FieldWord, NonzeroFractions>;

pub(crate) type TermFields = Beside<
    PolyField,
    Beside<FractionField, Beside<FractionField, Beside<FractionField, TermLists>>>,
>;

// The items of the fields.
pub(crate) type TermItems = (Znk, (Frac<Whole>, (Frac<Whole>, (Frac<Whole>, Lists))));

pub(crate) const POLY: PolyField = Worded {
    word: FieldWord::Poly,
    each: POLYNOMIALS_IN_N_AND_K,
};

pub(crate) const SCALE: FractionField = Worded {
    word: FieldWord::Scale,
    each: NonzeroFractions,
};

pub(crate) const NBASE: FractionField = Worded {
    word: FieldWord::NBase,
    each: NonzeroFractions,
};

pub(crate) const KBASE: FractionField = Worded {
    word: FieldWord::KBase,
    each: NonzeroFractions,
};

const FIELDS: TermFields = Beside {
    first: POLY,
    separator: Separator::Semicolon,
    second: Beside {
        first: SCALE,
        separator: Separator::Semicolon,
        second: Beside {
            first: NBASE,
            separator: Separator::Semicolon,
            second: Beside {
                first: KBASE,
                separator: Separator::Semicolon,
                second: TermLists,
            },
        },
    },
};

// The fields of a text.
pub(crate) fn read_fields(alloc: Global, text: &[u8]) -> Result<Option<TermItems>, AllocError>
    ensures read { (v : TermParts) → term_fields.Has v → text.now ≡ term_fields.text v
        → IfOk result (λ found. MatchOption found ⊥ (λ x. ⟦<TermFields as Spelling>⟧.value_of x ≡ v)) }
    ensures has { IfOk result (λ found. IfSome found (λ x. term_fields.Has (⟦<TermFields as Spelling>⟧.value_of x))) }
{
    FIELDS.read(alloc, text)
}
