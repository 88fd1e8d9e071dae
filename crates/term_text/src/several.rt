//! What a reader of a text has taken in: its terms, and the bounds behind them.
ghost use Rattle.std.specs.Prelude.{◌≡◌, ◌++◌, ◌∷◌, [], IfOk, Some, None};
ghost use Rattle.term_text.specs.Code.SeveralSteps.{begin, is_open, takes_bounds, is_whole, whole, with_last, only_terms, whole_contents, next_term, first_bound, next_part, step_term, step_several};

use crate::ast::Ast;
use crate::bounds::{Bounds, no_bounds};
use crate::state::{Stage, State, Token, empty_level, whole_sum};
use sqlite_items::Items;
use std::alloc::{AllocError, Global};

/// What a text consists of, with semicolons between.
#[derive(Clone, Copy, Debug, PartialEq, Eq)]
pub enum Kind {
    /// One term.
    Term,
    /// Two terms.
    Pair,
    /// Two terms, and four bounds with commas between.
    Boxed,
    /// Two terms or more.
    Recurrence,
}

impl Kind {
    // Whether a term may follow the one behind these.
    fn is_open(self, before: &Items<Ast>) -> bool
        ensures open { result ≡ is_open self before.now }
    {
        match self {
            Kind::Term => false,
            Kind::Pair | Kind::Boxed => before.is_empty(),
            Kind::Recurrence => true,
        }
    }

    // Whether bounds follow the term behind these.
    fn takes_bounds(self, before: &Items<Ast>) -> bool
        ensures takes { result ≡ takes_bounds self before.now }
    {
        match self {
            Kind::Boxed => !before.is_empty(),
            _ => false,
        }
    }

    // Whether the term behind these may be the last.
    fn is_whole(self, before: &Items<Ast>) -> bool
        ensures whole { result ≡ is_whole self before.now }
    {
        match self {
            Kind::Term => before.is_empty(),
            Kind::Boxed => false,
            Kind::Pair | Kind::Recurrence => !before.is_empty(),
        }
    }
}

/// What is read behind the terms that have ended.
#[derive(Drop)]
pub enum Now {
    Term(State),
    Bounds(Bounds),
}

/// The terms that have ended, and how far what follows has come.
#[derive(Drop)]
pub struct Several {
    pub before: Items<Ast>,
    pub now: Now,
}

/// The terms and the bounds of a text.
#[derive(Drop)]
pub struct Contents {
    pub terms: Items<Ast>,
    pub bounds: Items<i128>,
}

/// No token of a term is read.
pub fn begin(alloc: Global) -> State
    ensures begin { result ≡ begin }
{
    State {
        stage: Stage::Atom,
        level: empty_level(alloc),
        outer: Items::new(alloc),
    }
}

// The tree of a term, where it may end here.
fn whole(state: State) -> Result<Option<Ast>, AllocError>
    ensures whole { IfOk result (λ a. a ≡ whole state) }
{
    let State {
        stage,
        level,
        outer,
    } = state;
    match stage {
        Stage::More(ast, _) => {
            if outer.is_empty() {
                Ok(Some(whole_sum(level, ast)?))
            } else {
                Ok(None)
            }
        }
        Stage::Atom => Ok(None),
        Stage::Opening(_) => Ok(None),
    }
}

// The terms with the last one, where there is one.
fn with_last(before: Items<Ast>, last: Option<Ast>) -> Result<Option<Items<Ast>>, AllocError>
    ensures last { IfOk result (λ r. r ≡ with_last before last) }
{
    match last {
        None => Ok(None),
        Some(ast) => {
            let mut terms = before;
            terms.push(ast)?;
            Ok(Some(terms))
        }
    }
}

// All the terms of a text without bounds, where it may end here.
fn only_terms(
    alloc: Global,
    kind: Kind,
    before: Items<Ast>,
    now: State,
) -> Result<Option<Contents>, AllocError>
    ensures whole { IfOk result (λ c. c ≡ only_terms kind before now) }
{
    if !kind.is_whole(&before) {
        return Ok(None);
    }
    match with_last(before, whole(now)?)? {
        None => Ok(None),
        Some(terms) => Ok(Some(Contents {
            terms,
            bounds: Items::new(alloc),
        })),
    }
}

// The next term begins behind these.
fn next_term(alloc: Global, before: Items<Ast>, now: State) -> Result<Option<Several>, AllocError>
    ensures next { IfOk result (λ s. s ≡ next_term before now) }
{
    match with_last(before, whole(now)?)? {
        None => Ok(None),
        Some(before) => Ok(Some(Several {
            before,
            now: Now::Term(begin(alloc)),
        })),
    }
}

// The bounds begin behind these.
fn first_bound(alloc: Global, before: Items<Ast>, now: State) -> Result<Option<Several>, AllocError>
    ensures first { IfOk result (λ s. s ≡ first_bound before now) }
{
    match with_last(before, whole(now)?)? {
        None => Ok(None),
        Some(before) => Ok(Some(Several {
            before,
            now: Now::Bounds(no_bounds(alloc)),
        })),
    }
}

// What follows a semicolon begins, where something may follow.
fn next_part(
    alloc: Global,
    kind: Kind,
    before: Items<Ast>,
    now: State,
) -> Result<Option<Several>, AllocError>
    ensures next { IfOk result (λ s. s ≡ next_part kind before now) }
{
    if kind.is_open(&before) {
        return next_term(alloc, before, now);
    }
    if kind.takes_bounds(&before) {
        return first_bound(alloc, before, now);
    }
    Ok(None)
}

// One more token of a term, or the semicolon behind it.
fn step_term(
    alloc: Global,
    kind: Kind,
    before: Items<Ast>,
    now: State,
    token: Token,
    at: u32,
) -> Result<Option<Several>, AllocError>
    ensures step { IfOk result (λ s. s ≡ step_term kind before now token at) }
{
    match token {
        Token::Semicolon => next_part(alloc, kind, before, now),
        _ => match now.step(alloc, token, at)? {
            None => Ok(None),
            Some(now) => Ok(Some(Several {
                before,
                now: Now::Term(now),
            })),
        },
    }
}

impl Several {
    /// The state behind one more token, where it may stand there.
    pub fn step(
        self,
        alloc: Global,
        kind: Kind,
        token: Token,
        at: u32,
    ) -> Result<Option<Several>, AllocError>
        ensures step { IfOk result (λ s. s ≡ step_several kind self token at) }
    {
        let Several { before, now } = self;
        match now {
            Now::Term(now) => step_term(alloc, kind, before, now, token, at),
            Now::Bounds(bounds) => match bounds.step(token)? {
                None => Ok(None),
                Some(bounds) => Ok(Some(Several {
                    before,
                    now: Now::Bounds(bounds),
                })),
            },
        }
    }

    /// All the terms and bounds, where the text may end here.
    pub fn whole(self, alloc: Global, kind: Kind) -> Result<Option<Contents>, AllocError>
        ensures whole { IfOk result (λ c. c ≡ whole_contents kind self) }
    {
        let Several { before, now } = self;
        match now {
            Now::Term(now) => only_terms(alloc, kind, before, now),
            Now::Bounds(bounds) => match bounds.whole() {
                None => Ok(None),
                Some(bounds) => Ok(Some(Contents {
                    terms: before,
                    bounds,
                })),
            },
        }
    }
}
