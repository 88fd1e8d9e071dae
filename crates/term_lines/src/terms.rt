//! The terms that documents speak of, and their carriers.

ghost use Rattle.std.specs.Prelude.{◌≡◌, ◌++◌, ◌↔◌, IsTrue, OnOk, IfOk, MatchOption, string_bytes};
ghost use Rattle.hypergeometric.specs.ProperTerm.{ProperTerm};
ghost use Rattle.hypergeometric.specs.TermFacts.{IsProper};
ghost use Rattle.proper_term.specs.TermOf.{term_of};
ghost use Rattle.documents.specs.WellFormed.{IsCarrierIn};
ghost use Rattle.term_lines.specs.TermTexts.{term_text, terms, carriers};
ghost use Rattle.term_lines.specs.TermLaws.{terms_within_line, carriers_within_line};

use crate::propers::{read_proper, write_proper};
use documents::Version;
use gosper_form::{is_plain, total_power};
use proper_term::Proper;
use spelled::Spelling;
use std::alloc::{AllocError, Global};

// Whether a term is within the bound of a carrier in a version.
fn is_carrier(version: Version, term: &Proper) -> bool
    ensures test { IsTrue result ↔ IsCarrierIn version (term_of term.now) }
{
    let powers = total_power(term.up())
        + total_power(term.down())
        + total_power(term.over())
        + total_power(term.guard());
    match version {
        Version::One => powers <= 168,
    }
}

// The proper term of a text in a version.
fn read_term(alloc: Global, version: Version, text: &[u8]) -> Result<Option<Proper>, AllocError>
    ensures read { (t : ProperTerm) → IsProper t → text.now ≡ term_text version t
        → IfOk result (λ found. MatchOption found ⊥ (λ x. term_of x ≡ t)) }
{
    match version {
        Version::One => read_proper(alloc, text),
    }
}

// Writes a term in a version.
fn write_term(text: &mut String, version: Version, term: &Proper) -> Result<(), AllocError>
    ensures { OnOk result (string_bytes text.new ≡ string_bytes text.old ++ term_text version (term_of term.now)) }
{
    match version {
        Version::One => write_proper(text, term),
    }
}

/// Plain terms in a version: the subjects of documents.
#[derive(Clone, Copy)]
pub struct Terms {
    /// The version of the text.
    pub version: Version,
}

impl Spelling for Terms {
    type Item = Proper;

    ghost Value = { ProperTerm };

    ghost value_of = { term_of };

    ghost format = { λ spelling. terms spelling.version };

    fn write(&self, term: &Proper, text: &mut String) -> Result<(), AllocError> {
        write_term(text, self.version, term)
    }

    fn read(&self, alloc: Global, text: &[u8]) -> Result<Option<Proper>, AllocError> {
        let Some(term) = read_term(alloc, self.version, text)? else {
            return Ok(None);
        };
        if is_plain(&term) {
            return Ok(Some(term));
        }
        Ok(None)
    }

    ghost within_line = { λ spelling. terms_within_line spelling.version };
}

/// Carriers in a version: proper terms, plain or not, whose powers sum to at most 168 in version 1.
#[derive(Clone, Copy)]
pub struct Carriers {
    /// The version of the text.
    pub version: Version,
}

impl Spelling for Carriers {
    type Item = Proper;

    ghost Value = { ProperTerm };

    ghost value_of = { term_of };

    ghost format = { λ spelling. carriers spelling.version };

    fn write(&self, term: &Proper, text: &mut String) -> Result<(), AllocError> {
        write_term(text, self.version, term)
    }

    fn read(&self, alloc: Global, text: &[u8]) -> Result<Option<Proper>, AllocError> {
        let Some(term) = read_term(alloc, self.version, text)? else {
            return Ok(None);
        };
        if is_carrier(self.version, &term) {
            return Ok(Some(term));
        }
        Ok(None)
    }

    ghost within_line = { λ spelling. carriers_within_line spelling.version };
}
