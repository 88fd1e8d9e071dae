//! The verdict on the text of a document, as a text.

ghost use Rattle.std.specs.Prelude.{◌≡◌, ◌≤◌, length, IfOk, IfErr};
ghost use Rattle.ekhad_cli.specs.Refusals.{IsInside};
ghost use Rattle.ekhad_cli.specs.Check.{reason_word, verdict_text, verdict_status, IsVerdictText};
ghost use Rattle.ekhad_cli.specs.Commands.{most_bytes, IsCause};
ghost use Rattle.ekhad_cli.specs.Converted.{refusal_of_document, IsRefusalOfClaim};

use crate::output::Output;
use crate::refusal::Refusal;
use crate::status::Status;
use crate::words::Command;
use cert_checker::{Reason, Verdict, check_poly};
use cert_text::{DocFault, read_poly_doc};
use documents::{EngineFault, Place};
use std::alloc::{AllocError, Global};

// The word of a test.
fn word_of(reason: Reason) -> &'static str
    ensures word { result.now ≡ reason_word reason }
{
    match reason {
        Reason::Shape => "shape",
        Reason::Normal => "normal",
        Reason::Carrier => "carrier",
        Reason::Zero => "zero",
        Reason::Poles => "poles",
        Reason::Equation => "equation",
        Reason::Case => "case",
        Reason::Same => "same",
        Reason::Sums => "sums",
    }
}

// What is written of a verdict, and how the run then ends.
fn output_of(alloc: Global, verdict: &Verdict) -> Result<Output, AllocError>
    ensures text { IfOk result (λ output. output.text.items ≡ verdict_text verdict.now) }
    ensures status { IfOk result (λ output. output.status ≡ verdict_status verdict.now) }
{
    match verdict {
        Verdict::Accepted { .. } => Ok(Output {
            text: Vec::from_slice(alloc, b"accepted\n")?,
            status: Status::Found,
        }),
        Verdict::Rejected { claim, reason } => {
            let word = word_of(*reason);
            let text = format!(in alloc; "rejected {claim} {word}\n")?;
            Ok(Output {
                text: text.into_bytes(),
                status: Status::Empty,
            })
        }
    }
}

// How a text is refused that is no document.
fn refusal_of(fault: DocFault) -> Refusal
    ensures exact { result ≡ refusal_of_document fault }
{
    match fault {
        DocFault::Line { at } => Refusal::Line { at },
        DocFault::Memory => Refusal::Memory,
    }
}

// How a document is refused whose claim isn't checked.
fn refusal_of_claim(fault: EngineFault) -> Refusal
    requires known { (refusal : Refusal) × IsRefusalOfClaim fault refusal }
    ensures exact { IsRefusalOfClaim fault result }
{
    match fault {
        EngineFault::TooLarge {
            place: Place::Claim(claim),
        } => Refusal::ClaimTooLarge { claim },
        EngineFault::TooLarge { .. } | EngineFault::Limit { .. } => unreachable!(),
        EngineFault::Memory => Refusal::Memory,
    }
}

/// The verdict on a document, which is read as a text.
pub(crate) fn check(alloc: Global, text: &[u8]) -> Result<Output, Refusal>
    ensures output { IfOk result (λ output. IsVerdictText text.now output.status output.text.items) }
    ensures cause { length text.now ≤ most_bytes Command.Check → IfErr result (λ refusal. IsCause Command.Check text.now refusal) }
    ensures inside { IfErr result IsInside }
{
    let doc = match read_poly_doc(alloc, text) {
        Ok(doc) => doc,
        Err(fault) => return Err(refusal_of(fault)),
    };
    let verdict = match check_poly(alloc, &doc) {
        Ok(verdict) => verdict,
        Err(fault) => return Err(refusal_of_claim(fault)),
    };
    match output_of(alloc, &verdict) {
        Ok(output) => Ok(output),
        Err(_) => Err(Refusal::Memory),
    }
}
