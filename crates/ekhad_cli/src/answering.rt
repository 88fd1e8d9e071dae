//! The document of a term, from text to text.

ghost use Rattle.std.specs.Prelude.{◌≡◌, ◌≤◌, ℕ, List, [], ◌∷◌, length, Ok, IfOk, IfErr};
ghost use Rattle.grammar.specs.Tree.{Tree};
ghost use Rattle.grammar.specs.Reading.{HasTrees};
ghost use Rattle.grammar.specs.Several.{a_term};
ghost use Rattle.term_text.specs.Answers.{HasFault};
ghost use Rattle.hypergeometric.specs.TermFacts.{IsPlain};
ghost use Rattle.proper_term.specs.TermOf.{term_of};
ghost use Rattle.term_classes.specs.Walk.{class_of};
ghost use Rattle.steps.specs.Answers.{HasCause};
ghost use Rattle.steps.specs.TermFaults.{term_cause};
ghost use Rattle.ekhad_cli.specs.Refusals.{IsInside};
ghost use Rattle.ekhad_cli.specs.Gosper.{IsAnswerText};
ghost use Rattle.ekhad_cli.specs.Commands.{most_bytes, IsCause};
ghost use Rattle.ekhad_cli.specs.Converted.{refusal_of_text, refusal_of_term, refusal_of_order};
ghost use Rattle.ekhad_cli.specs.FirstRun.{IsFirstRunTerm};

use crate::gosper::gosper;
use crate::orders::test_order;
use crate::output::Output;
use crate::refusal::{Refusal, SyntaxKind};
use crate::small_terms::small_term;
use crate::status::Status;
use crate::words::Command;
use cert_text::print_poly_doc;
use proper_term::Proper;
use ring_laws::RingFault;
use std::alloc::Global;
use steps::{StepFault, TermFault};
use term_text::{TextFault, read_term};
use term_walk::classify;

// How a text with this first fault is refused.
fn refusal_of(fault: TextFault) -> Refusal
    ensures cause { (text : List ℕ) → length text ≤ most_bytes Command.Gosper → HasFault a_term text fault → IsCause Command.Gosper text result }
    ensures inside { IsInside result }
    ensures exact { result ≡ refusal_of_text fault }
{
    match fault {
        TextFault::Unexpected { at } => syntax(SyntaxKind::Unexpected, at),
        TextFault::UnknownName { at } => syntax(SyntaxKind::UnknownName, at),
        TextFault::UnclosedParen { at } => syntax(SyntaxKind::Unclosed, at),
        TextFault::EmptyInput => Refusal::EmptyInput,
        TextFault::NotAscii { at } => syntax(SyntaxKind::NotAscii, at),
        TextFault::Nesting { at } => syntax(SyntaxKind::Nesting, at),
        TextFault::LiteralTooLarge { at } => Refusal::LiteralTooLarge { at },
        TextFault::Memory => Refusal::Memory,
    }
}

// How a text is refused whose tree has no class.
fn refusal_of_class(fault: TermFault) -> Refusal
    ensures cause { (text : List ℕ) (tree : Tree) → length text ≤ most_bytes Command.Gosper → HasTrees a_term text (tree ∷ [])
        → HasCause (class_of tree) (term_cause fault) → IsCause Command.Gosper text result }
    ensures inside { IsInside result }
    ensures exact { result ≡ refusal_of_term fault }
{
    match fault {
        TermFault::Improper { reason, at } => Refusal::Improper { reason, at },
        TermFault::Limit { name, counted } => Refusal::TermLimit { name, counted },
        TermFault::TooLarge { at } => Refusal::TermTooLarge { at },
        TermFault::Memory => Refusal::Memory,
    }
}

// How a term is refused that isn't answered yet: by the first limit that its steps at the order 0 pass, or where they are out of bounds.
fn refusal_of_further(alloc: Global, term: &Proper) -> Refusal
    requires plain { IsPlain (term_of term.now) }
    ensures cause { (text : List ℕ) (tree : Tree) → length text ≤ most_bytes Command.Gosper → HasTrees a_term text (tree ∷ [])
        → (class_of tree).outcome ≡ Ok (term_of term.now) → (¬ IsFirstRunTerm (term_of term.now)) → IsCause Command.Gosper text result }
    ensures inside { IsInside result }
{
    match test_order(alloc, term, 0) {
        Ok(()) => Refusal::Unbuilt,
        Err(fault) => refusal_of_order(0, fault),
    }
}

// How a term is refused whose steps at an order give no normal form.
fn refusal_of_order(order: u32, fault: StepFault) -> Refusal
    ensures inside { IsInside result }
    ensures exact { result ≡ refusal_of_order order fault }
{
    match fault {
        StepFault::Limit { name, counted } => Refusal::OrderLimit { name, counted },
        StepFault::TooLarge => Refusal::OrderTooLarge { order },
        StepFault::Memory => Refusal::Memory,
    }
}

fn syntax(kind: SyntaxKind, at: u32) -> Refusal
    ensures syntax { result ≡ Refusal.Syntax kind at }
{
    Refusal::Syntax { kind, at }
}

/// The document that answers a term, which is read as a text.
pub(crate) fn answer_term(alloc: Global, input: &[u8]) -> Result<Output, Refusal>
    requires short { length input.now ≤ most_bytes Command.Gosper }
    ensures output { IfOk result (λ output. (output.status ≡ Status.Found) × IsAnswerText input.now output.text.items) }
    ensures cause { IfErr result (λ refusal. IsCause Command.Gosper input.now refusal) }
    ensures inside { IfErr result IsInside }
{
    let ast = match read_term(alloc, input) {
        Ok(ast) => ast,
        Err(fault) => return Err(refusal_of(fault)),
    };
    let class = match classify(alloc, &ast) {
        Ok(class) => class,
        Err(fault) => return Err(refusal_of_class(fault)),
    };
    let Some(term) = small_term(&class) else {
        return Err(refusal_of_further(alloc, &class));
    };
    let doc = match gosper(alloc, &term) {
        Ok(doc) => doc,
        Err(RingFault::TooLarge) => unreachable!(),
        Err(RingFault::Memory) => return Err(Refusal::Memory),
    };
    match print_poly_doc(alloc, &doc) {
        Ok(text) => Ok(Output {
            text,
            status: Status::Found,
        }),
        Err(_) => Err(Refusal::Memory),
    }
}
