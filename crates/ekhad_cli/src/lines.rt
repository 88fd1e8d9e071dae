//! The line that a run says where it gives no answer.

ghost use Rattle.std.specs.Prelude.{◌≡◌, ◌⊎◌, IfOk, IsOk, string_bytes};
ghost use Rattle.std.specs.Cow.{cow_str_bytes};
ghost use Rattle.ek_io.specs.Faults.{Rose};
ghost use Rattle.ekhad_cli.specs.Refusals.{limit_name, term_limit_name, kind_name, limit_line, line_text, status_of, IsFixed, GrewByLine};

use crate::refusal::{Refusal, RunLimit, SyntaxKind};
use crate::status::Status;
use ek_io::{Sink, write_all_counted};
use std::alloc::{AllocError, Global};
use std::borrow::CowStr;
use steps::LimitName;

// The name of a limit, as it is said.
fn name_of_limit(limit: RunLimit) -> &'static str
    ensures name { result.now ≡ limit_name limit }
{
    match limit {
        RunLimit::InputBytes => "input bytes",
        RunLimit::DocumentBytes => "document bytes",
    }
}

// The name of a limit on terms, as it is said.
fn name_of_term_limit(limit: LimitName) -> &'static str
    ensures name { result.now ≡ term_limit_name limit }
{
    match limit {
        LimitName::Factors => "factors",
        LimitName::Slope => "slope",
        LimitName::Offset => "offset",
        LimitName::Exponent => "exponent",
        LimitName::Order => "order",
        LimitName::Degree => "degree",
        LimitName::MatchShifts => "match shifts",
        LimitName::Columns => "columns",
        LimitName::HyperPairs => "hyper pairs",
        LimitName::BoxSide => "box",
    }
}

// The name of a kind, as it is said.
fn name_of_kind(kind: SyntaxKind) -> &'static str
    ensures name { result.now ≡ kind_name kind }
{
    match kind {
        SyntaxKind::Unexpected => "unexpected",
        SyntaxKind::UnknownName => "unknown name",
        SyntaxKind::Unclosed => "unclosed",
        SyntaxKind::NotAscii => "not ascii",
        SyntaxKind::Nesting => "nesting",
    }
}

// The line of a term that isn't proper.
fn improper_line(alloc: Global, reason: u8, at: u32) -> Result<String, AllocError>
    ensures line { IfOk result (λ line. string_bytes line ≡ line_text (Refusal.Improper reason at)) }
{
    format!(in alloc; "ekhad: improper: reason {reason} at {at}\n")
}

// The line of a term that passes a limit, or whose steps at an order do.
fn term_limit_line(alloc: Global, name: LimitName, counted: u64) -> Result<String, AllocError>
    ensures line { IfOk result (λ line. string_bytes line ≡ limit_line name counted) }
{
    let limit = name_of_term_limit(name);
    format!(in alloc; "ekhad: limit: {limit} {counted}\n")
}

// The line of a refusal. Only one with a number takes memory.
fn line_of(alloc: Global, refusal: Refusal) -> Result<CowStr<'static>, AllocError>
    ensures line { IfOk result (λ line. cow_str_bytes line ≡ line_text refusal) }
    ensures fixed { IsFixed refusal → IsOk result }
{
    Ok(match refusal {
        Refusal::Usage => CowStr::Borrowed("ekhad: usage\n"),
        Refusal::EmptyInput => CowStr::Borrowed("ekhad: syntax: empty input\n"),
        Refusal::Syntax { kind, at } => {
            let name = name_of_kind(kind);
            CowStr::Owned(format!(in alloc; "ekhad: syntax: {name} at {at}\n")?)
        }
        Refusal::Line { at } => CowStr::Owned(format!(in alloc; "ekhad: syntax: line {at}\n")?),
        Refusal::LiteralTooLarge { at } => {
            CowStr::Owned(format!(in alloc; "ekhad: too large: literal at {at}\n")?)
        }
        Refusal::Improper { reason, at } => CowStr::Owned(improper_line(alloc, reason, at)?),
        Refusal::TermTooLarge { at } => {
            CowStr::Owned(format!(in alloc; "ekhad: too large: term at {at}\n")?)
        }
        Refusal::OrderTooLarge { order } => {
            CowStr::Owned(format!(in alloc; "ekhad: too large: order {order}\n")?)
        }
        Refusal::ClaimTooLarge { claim } => {
            CowStr::Owned(format!(in alloc; "ekhad: too large: claim {claim}\n")?)
        }
        Refusal::Limit { limit, counted } => {
            let name = name_of_limit(limit);
            CowStr::Owned(format!(in alloc; "ekhad: limit: {name} {counted}\n")?)
        }
        Refusal::TermLimit { name, counted } | Refusal::OrderLimit { name, counted } => {
            CowStr::Owned(term_limit_line(alloc, name, counted)?)
        }
        Refusal::Unbuilt => CowStr::Borrowed("ekhad: limit: unbuilt 1\n"),
        Refusal::Memory => CowStr::Borrowed("ekhad: memory\n"),
        Refusal::ReadFault => CowStr::Borrowed("ekhad: read fault\n"),
        Refusal::WriteFault => CowStr::Borrowed("ekhad: write fault\n"),
    })
}

// Writes a line to `err`, whose own faults change nothing.
fn say<E: Sink>(line: &str, err: &mut E)
    ensures line { GrewByLine (E.written err.old) (E.written err.new) line.now (Rose (E.faults err.old) (E.faults err.new)) }
{
    let _ = write_all_counted(err, line.as_bytes());
}

/// Ends a run that gives no answer: writes the line of the refusal to `err`, whose own faults change nothing.
///
/// Where there is no memory for the line, that is what is said, and the run ends with `Memory`; a line without a number takes none.
pub fn refuse<E: Sink>(alloc: Global, refusal: Refusal, err: &mut E) -> Status
    ensures said { (said : Refusal) × ((said ≡ refusal) ⊎ ((said ≡ Refusal.Memory) × (¬ IsFixed refusal))) × (result ≡ status_of said)
        × GrewByLine (E.written err.old) (E.written err.new) (line_text said) (Rose (E.faults err.old) (E.faults err.new)) }
    ensures fixed { IsFixed refusal → result ≡ status_of refusal }
{
    match line_of(alloc, refusal) {
        Ok(line) => {
            say(&line, err);
            refusal.status()
        }
        Err(_) => {
            say("ekhad: memory\n", err);
            Status::Memory
        }
    }
}
