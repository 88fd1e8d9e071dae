//! Proper terms: what every term and every carrier keeps.

ghost use Rattle.std.specs.Prelude.{◌≡◌, ◌++◌, IfOk, IfSome, OnOk, MatchOption, string_bytes};
ghost use Rattle.hypergeometric.specs.ProperTerm.{ProperTerm};
ghost use Rattle.hypergeometric.specs.TermFacts.{IsProper};
ghost use Rattle.proper_term.specs.TermOf.{term_of};
ghost use Rattle.term_lines.specs.Fields.{parts_of_term};
ghost use Rattle.term_lines.specs.TermTexts.{proper_terms};

use crate::fields::{KBASE, NBASE, POLY, SCALE, TermFields, TermItems, read_fields};
use crate::lists::write_lists;
use proper_term::Proper;
use spelled::Spelling;
use std::alloc::{AllocError, Global};

// The term of these fields, none where they aren't those of a proper term.
fn proper_of(items: TermItems) -> Option<Proper>
    ensures read { (t : ProperTerm) → IsProper t → ⟦<TermFields as Spelling>⟧.value_of items ≡ parts_of_term t
        → MatchOption result ⊥ (λ x. term_of x ≡ t) }
{
    let (poly, (scale, (n_base, (k_base, lists)))) = items;
    Proper::new(
        poly,
        scale,
        n_base,
        k_base,
        lists.up,
        lists.down,
        lists.over,
        lists.guard,
    )
}

// The proper term of a text.
pub(crate) fn read_proper(alloc: Global, text: &[u8]) -> Result<Option<Proper>, AllocError>
    ensures read { (t : ProperTerm) → IsProper t → text.now ≡ proper_terms.text t
        → IfOk result (λ found. MatchOption found ⊥ (λ x. term_of x ≡ t)) }
{
    match read_fields(alloc, text)? {
        Some(items) => Ok(proper_of(items)),
        None => Ok(None),
    }
}

// Writes a term by its fields.
pub(crate) fn write_proper(text: &mut String, term: &Proper) -> Result<(), AllocError>
    ensures { OnOk result (string_bytes text.new ≡ string_bytes text.old ++ proper_terms.text (term_of term.now)) }
{
    POLY.write(term.poly(), text)?;
    text.push_str("; ")?;
    SCALE.write(term.scale(), text)?;
    text.push_str("; ")?;
    NBASE.write(term.n_base(), text)?;
    text.push_str("; ")?;
    KBASE.write(term.k_base(), text)?;
    text.push_str("; ")?;
    write_lists(text, term.up(), term.down(), term.over(), term.guard())
}
