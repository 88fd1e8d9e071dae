//! What shows that an order is empty.

ghost use Rattle.std.specs.Prelude.{◌≡◌, ◌≤◌, ℕ, IfOk, IfSome, MatchOption};
ghost use Rattle.std.specs.Fmt.{decimal};
ghost use Rattle.documents.specs.Documents.{Evidence as EvidenceValue};
ghost use Rattle.documents.specs.Views.{evidence_said};
ghost use Rattle.document_lines.specs.ClaimTexts.{witnesses};
ghost use Rattle.document_lines.specs.WitnessLaws.{witnesses_within_line};

use documents::Evidence;
use spelled::{NumberBelow, Spelling, is_same};
use std::alloc::{AllocError, Global};

// A number of at most 255.
fn read_number(alloc: Global, text: &[u8]) -> Result<Option<u32>, AllocError>
    ensures read { (n : ℕ) → n ≤ 255 → text.now ≡ decimal n → IfOk result (λ found. MatchOption found ⊥ (λ number. number ≡ n)) }
    ensures small { IfOk result (λ found. IfSome found (λ number. number ≤ 255)) }
{
    match NumberBelow::new(256).read(alloc, text)? {
        Some(number) => Ok(u32::try_from(number).ok()),
        None => Ok(None),
    }
}

/// What shows that an order is empty: `unsought`, `none`, or a number of at most 255.
#[derive(Clone, Copy)]
pub struct Witnesses;

impl Spelling for Witnesses {
    type Item = Evidence;

    ghost Value = { EvidenceValue };

    ghost value_of = { evidence_said };

    ghost format = { λ _. witnesses };

    fn write(&self, evidence: &Evidence, text: &mut String) -> Result<(), AllocError> {
        match evidence {
            Evidence::Unsought => text.push_str("unsought"),
            Evidence::None => text.push_str("none"),
            Evidence::At(number) => write!(text, "{number}"),
        }
    }

    fn read(&self, alloc: Global, text: &[u8]) -> Result<Option<Evidence>, AllocError> {
        if is_same(text, b"unsought") {
            return Ok(Some(Evidence::Unsought));
        }
        if is_same(text, b"none") {
            return Ok(Some(Evidence::None));
        }
        Ok(read_number(alloc, text)?.map(Evidence::At))
    }

    ghost within_line = { λ _. witnesses_within_line };
}
