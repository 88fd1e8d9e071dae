//! Reads a text of one term, of a pair, of a box or of a recurrence: its trees and bounds, or its first fault.
ghost use Rattle.std.specs.Prelude.{◌≡◌, [], ◌∷◌, ◌≤◌, ◌<◌, ◌^◌, length, IfOk, IfErr, Some, None, ℕ, List};
ghost use Rattle.grammar.specs.Token.{Placed};
ghost use Rattle.grammar.specs.Several.{a_recurrence};
ghost use Rattle.term_text.specs.Code.SeveralImage.{kind_of};
ghost use Rattle.term_text.specs.Answers.{ReadsTerms, ReadsTerm, ReadsPair, ReadsBoxed};
ghost use Rattle.term_text.specs.Code.Progress.{start, placed, taken, Gives, fault_of_flaw, end_fault, ended, IsAfter, IsTurn, ReadsContents};

use crate::ast::Ast;
use crate::bounds::{BoxRange, range_of};
use crate::fault::TextFault;
use crate::front::{Flaw, Front, front_at, past_spaces};
use crate::places::Places;
use crate::several::{Contents, Kind, Now, Several, begin};
use crate::state::Token;
use sqlite_items::Items;
use std::alloc::{AllocError, Global};

/// The most open parentheses.
const MAX_OPEN: usize = 64;

/// How far a text is read.
#[derive(Drop)]
struct Progress {
    from: usize,
    several: Several,
    places: Places,
    empty: bool,
}

fn start(alloc: Global) -> Progress
    ensures start { result ≡ start }
{
    let several = Several {
        before: Items::new(alloc),
        now: Now::Term(begin(alloc)),
    };
    Progress {
        from: 0,
        several,
        places: Places::new(alloc),
        empty: true,
    }
}

/// The places of the open parentheses behind a token.
fn placed(places: Places, token: Token, at: u32) -> Result<Places, AllocError>
    ensures placed { IfOk result (λ r. r ≡ placed places token at) }
{
    let mut places = places;
    match token {
        Token::Opening => places.push(at)?,
        Token::Closing => {
            let _last = places.pop();
        }
        _ => {}
    }
    Ok(places)
}

/// Takes one token in.
fn taken(
    alloc: Global,
    kind: Kind,
    progress: Progress,
    token: Token,
    at: u32,
    end: usize,
) -> Result<Progress, TextFault>
    ensures taken { Gives result (taken kind progress token at end) }
{
    let Progress {
        from: _,
        several,
        places,
        empty: _,
    } = progress;
    if token == Token::Opening && places.len() == MAX_OPEN {
        return Err(TextFault::Nesting { at });
    }
    let places = placed(places, token, at)?;
    match several.step(alloc, kind, token, at)? {
        None => Err(TextFault::Unexpected { at }),
        Some(several) => Ok(Progress {
            from: end,
            several,
            places,
            empty: false,
        }),
    }
}

fn fault_of_flaw(flaw: Flaw, at: u32) -> TextFault
    ensures fault { result ≡ fault_of_flaw flaw at }
{
    match flaw {
        Flaw::Strange => TextFault::Unexpected { at },
        Flaw::NotAscii => TextFault::NotAscii { at },
        Flaw::UnknownName => TextFault::UnknownName { at },
        Flaw::LiteralTooLarge => TextFault::LiteralTooLarge { at },
    }
}

/// The fault of an end where more is needed.
fn end_fault(places: Places, empty: bool, len: u32) -> TextFault
    ensures fault { result ≡ end_fault places empty len }
{
    if empty {
        return TextFault::EmptyInput;
    }
    let mut places = places;
    match places.pop() {
        None => TextFault::Unexpected { at: len },
        Some(at) => TextFault::UnclosedParen { at },
    }
}

// The trees and bounds, where the text may end here, or the fault of its end.
fn ended(alloc: Global, kind: Kind, progress: Progress, len: u32) -> Result<Contents, TextFault>
    ensures ended { Gives result (ended kind progress len) }
{
    let Progress {
        from: _,
        several,
        places,
        empty,
    } = progress;
    let fault = end_fault(places, empty, len);
    match several.whole(alloc, kind)? {
        Some(contents) => Ok(contents),
        None => Err(fault),
    }
}

#[derive(Drop)]
enum Turn {
    Done(Contents),
    More(Progress),
}

// Reads one token, or the end.
fn next_turn(alloc: Global, kind: Kind, text: &[u8], progress: Progress) -> Result<Turn, TextFault>
    requires short { length text.now ≤ 65536 }
    requires within { progress.from ≤ length text.now }
    ensures turn { (ts : List Placed) → IsAfter (kind_of kind) text.now progress ts → IsTurn (kind_of kind) text.now progress result }
{
    let at = past_spaces(text, progress.from);
    match front_at(text, at) {
        Front::End => match ended(alloc, kind, progress, text.len() as u32) {
            Ok(contents) => Ok(Turn::Done(contents)),
            Err(fault) => Err(fault),
        },
        Front::Flawed(flaw) => Err(fault_of_flaw(flaw, at as u32)),
        Front::Token(token, len) => match taken(alloc, kind, progress, token, at as u32, at + len) {
            Ok(next) => Ok(Turn::More(next)),
            Err(fault) => Err(fault),
        },
    }
}

// The trees and bounds of a text, or its first fault.
fn read_contents(alloc: Global, kind: Kind, text: &[u8]) -> Result<Contents, TextFault>
    requires short { length text.now ≤ 65536 }
    ensures reads { ReadsContents (kind_of kind) text.now result }
{
    let mut progress = start(alloc);
    loop {
        match next_turn(alloc, kind, text, progress) {
            Ok(Turn::Done(contents)) => return Ok(contents),
            Ok(Turn::More(next)) => progress = next,
            Err(fault) => return Err(fault),
        }
    }
}

// The only one of some trees.
fn only(terms: Items<Ast>) -> Ast
    requires one { length terms ≡ 1 }
    ensures only { terms ≡ result ∷ [] }
{
    let mut terms = terms;
    terms.remove(0)
}

// The first and the last of two trees.
fn both(terms: Items<Ast>) -> (Ast, Ast)
    requires two { length terms ≡ 2 }
    ensures both { terms ≡ result.0 ∷ result.1 ∷ [] }
{
    let mut terms = terms;
    let first = terms.remove(0);
    (first, terms.remove(0))
}

/// The tree of the text of a term, or exactly its first fault.
pub fn read_term(alloc: Global, text: &[u8]) -> Result<Ast, TextFault>
    requires short { length text.now ≤ 65536 }
    ensures reads { ReadsTerm text.now result }
{
    match read_contents(alloc, Kind::Term, text) {
        Ok(contents) => Ok(only(contents.terms)),
        Err(fault) => Err(fault),
    }
}

/// The trees of the text of two terms with a semicolon between, or exactly its first fault.
pub fn read_pair(alloc: Global, text: &[u8]) -> Result<(Ast, Ast), TextFault>
    requires short { length text.now ≤ 65536 }
    ensures reads { ReadsPair text.now result }
{
    match read_contents(alloc, Kind::Pair, text) {
        Ok(contents) => Ok(both(contents.terms)),
        Err(fault) => Err(fault),
    }
}

/// The trees of the text of two terms, and the range of the four bounds behind them, or exactly its first fault.
///
/// Semicolons stand behind the terms, commas between the bounds. A bound is digits, or a minus and then digits.
pub fn read_boxed(alloc: Global, text: &[u8]) -> Result<(Ast, Ast, BoxRange), TextFault>
    requires short { length text.now ≤ 65536 }
    ensures reads { ReadsBoxed text.now result }
{
    match read_contents(alloc, Kind::Boxed, text) {
        Ok(contents) => {
            let range = range_of(contents.bounds.as_slice());
            let (first, last) = both(contents.terms);
            Ok((first, last, range))
        }
        Err(fault) => Err(fault),
    }
}

/// The trees of the text of two or more terms with semicolons between, in their order, or exactly its first fault.
pub fn read_recurrence(alloc: Global, text: &[u8]) -> Result<Items<Ast>, TextFault>
    requires short { length text.now ≤ 65536 }
    ensures reads { ReadsTerms a_recurrence text.now result }
{
    match read_contents(alloc, Kind::Recurrence, text) {
        Ok(contents) => Ok(contents.terms),
        Err(fault) => Err(fault),
    }
}

#[cfg(test)]
mod tests;
