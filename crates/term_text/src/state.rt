//! What a reader has taken in, token by token.
ghost use Rattle.std.specs.Prelude.{◌≡◌, [], ◌∷◌, ◌++◌, IfOk, List, Some, None};
ghost use Rattle.term_text.specs.Code.Steps.{joined_product, joined_sum, filled, empty_level, inner, negated, step_atom, more_terms, more_factors, whole_sum, split_last, close_outer, comma_outer, step_closing, step_comma, step_bang, step_caret, step_more, step_stage, step};

use crate::ast::{Ast, Node, Part};
use ring_laws::Whole;
use sqlite_items::{Boxed, Items};
use std::alloc::{AllocError, Global};

#[derive(Clone, Copy, Debug, PartialEq, Eq)]
pub enum Token {
    Digits(Whole),
    N,
    K,
    Binomial,
    Plus,
    Minus,
    Star,
    Slash,
    Caret,
    Bang,
    Opening,
    Closing,
    Comma,
    Semicolon,
}

/// The base of a power, and the place of its `^`.
#[derive(Drop)]
pub struct Base {
    pub ast: Ast,
    pub at: u32,
}

/// What stands in a sum before the atom that is read next.
#[derive(Drop)]
pub struct Level {
    pub terms: Items<Part>,
    pub sum_at: u32,
    pub subtracted: bool,
    pub factors: Items<Part>,
    pub product_at: u32,
    pub divided: bool,
    pub base: Option<Base>,
}

/// How an inner sum was opened: with the place of `binomial`, and its first argument.
#[derive(Drop)]
pub enum Opened {
    Bracket,
    Upper(u32),
    Lower(u32, Ast),
}

#[derive(Drop)]
pub struct Outer {
    pub level: Level,
    pub opened: Opened,
}

/// What the last power ends with.
#[derive(Clone, Copy, Debug, PartialEq, Eq)]
pub enum Last {
    Atom,
    Bang,
    Exponent,
}

/// What may come next.
#[derive(Drop)]
pub enum Stage {
    Atom,
    Opening(u32),
    More(Ast, Last),
}

#[derive(Drop)]
pub struct State {
    pub stage: Stage,
    pub level: Level,
    pub outer: Items<Outer>,
}

/// The product that a power ends.
fn joined_product(factors: Items<Part>, at: u32, divided: bool, ast: Ast) -> Result<Ast, AllocError>
    ensures product { IfOk result (λ a. a ≡ joined_product factors at divided ast) }
{
    if factors.is_empty() {
        return Ok(ast);
    }
    let mut factors = factors;
    factors.push(Part {
        turned: divided,
        ast,
    })?;
    Ok(Ast {
        at,
        node: Node::Product(factors),
    })
}

/// The sum that a product ends.
fn joined_sum(terms: Items<Part>, at: u32, subtracted: bool, ast: Ast) -> Result<Ast, AllocError>
    ensures joined { IfOk result (λ a. a ≡ joined_sum terms at subtracted ast) }
{
    if terms.is_empty() && !subtracted {
        return Ok(ast);
    }
    let mut terms = terms;
    terms.push(Part {
        turned: subtracted,
        ast,
    })?;
    Ok(Ast {
        at,
        node: Node::Sum(terms),
    })
}

/// An atom stands where one may.
fn filled(alloc: Global, level: Level, outer: Items<Outer>, ast: Ast) -> Result<State, AllocError>
    ensures filled { IfOk result (λ s. s ≡ filled level outer ast) }
{
    let Level {
        terms,
        sum_at,
        subtracted,
        factors,
        product_at,
        divided,
        base,
    } = level;
    let level = Level {
        terms,
        sum_at,
        subtracted,
        factors,
        product_at,
        divided,
        base: None,
    };
    let stage = match base {
        None => Stage::More(ast, Last::Atom),
        Some(Base { ast: base, at }) => {
            let power = Ast {
                at,
                node: Node::Pow(Boxed::new(alloc, base)?, Boxed::new(alloc, ast)?),
            };
            Stage::More(power, Last::Exponent)
        }
    };
    Ok(State {
        stage,
        level,
        outer,
    })
}

pub fn empty_level(alloc: Global) -> Level
    ensures empty { result ≡ empty_level }
{
    Level {
        terms: Items::new(alloc),
        sum_at: 0,
        subtracted: false,
        factors: Items::new(alloc),
        product_at: 0,
        divided: false,
        base: None,
    }
}

/// An inner sum begins.
fn inner(
    alloc: Global,
    level: Level,
    opened: Opened,
    outer: Items<Outer>,
) -> Result<State, AllocError>
    ensures inner { IfOk result (λ s. s ≡ inner level opened outer) }
{
    let mut outer = outer;
    outer.push(Outer { level, opened })?;
    Ok(State {
        stage: Stage::Atom,
        level: empty_level(alloc),
        outer,
    })
}

// The level whose sum begins with a minus, where nothing stands there yet.
fn negated(level: Level, at: u32) -> Option<Level>
    ensures negated { result ≡ negated level at }
{
    let Level {
        terms,
        sum_at: _,
        subtracted,
        factors,
        product_at,
        divided,
        base,
    } = level;
    if !terms.is_empty() || subtracted || !factors.is_empty() || base.is_some() {
        return None;
    }
    Some(Level {
        terms,
        sum_at: at,
        subtracted: true,
        factors,
        product_at,
        divided,
        base,
    })
}

fn step_atom(
    alloc: Global,
    level: Level,
    outer: Items<Outer>,
    token: Token,
    at: u32,
) -> Result<Option<State>, AllocError>
    ensures step { IfOk result (λ s. s ≡ step_atom level outer token at) }
{
    match token {
        Token::Digits(value) => Ok(Some(filled(
            alloc,
            level,
            outer,
            Ast {
                at,
                node: Node::Literal(value),
            },
        )?)),
        Token::N => Ok(Some(filled(alloc, level, outer, Ast { at, node: Node::N })?)),
        Token::K => Ok(Some(filled(alloc, level, outer, Ast { at, node: Node::K })?)),
        Token::Binomial => Ok(Some(State {
            stage: Stage::Opening(at),
            level,
            outer,
        })),
        Token::Opening => Ok(Some(inner(alloc, level, Opened::Bracket, outer)?)),
        Token::Minus => match negated(level, at) {
            Some(level) => Ok(Some(State {
                stage: Stage::Atom,
                level,
                outer,
            })),
            None => Ok(None),
        },
        _ => Ok(None),
    }
}

fn more_terms(
    alloc: Global,
    level: Level,
    ast: Ast,
    at: u32,
    subtracted: bool,
) -> Result<Level, AllocError>
    ensures level { IfOk result (λ l. l ≡ more_terms level ast at subtracted) }
{
    let Level {
        terms,
        sum_at,
        subtracted: turned,
        factors,
        product_at,
        divided,
        base: _,
    } = level;
    let sum_at = if terms.is_empty() && !turned {
        at
    } else {
        sum_at
    };
    let product = joined_product(factors, product_at, divided, ast)?;
    let mut terms = terms;
    terms.push(Part {
        turned,
        ast: product,
    })?;
    Ok(Level {
        terms,
        sum_at,
        subtracted,
        factors: Items::new(alloc),
        product_at: 0,
        divided: false,
        base: None,
    })
}

fn more_factors(level: Level, ast: Ast, at: u32, divided: bool) -> Result<Level, AllocError>
    ensures level { IfOk result (λ l. l ≡ more_factors level ast at divided) }
{
    let Level {
        terms,
        sum_at,
        subtracted,
        factors,
        product_at,
        divided: turned,
        base: _,
    } = level;
    let product_at = if factors.is_empty() { at } else { product_at };
    let mut factors = factors;
    factors.push(Part { turned, ast })?;
    Ok(Level {
        terms,
        sum_at,
        subtracted,
        factors,
        product_at,
        divided,
        base: None,
    })
}

pub fn whole_sum(level: Level, ast: Ast) -> Result<Ast, AllocError>
    ensures whole { IfOk result (λ a. a ≡ whole_sum level ast) }
{
    let Level {
        terms,
        sum_at,
        subtracted,
        factors,
        product_at,
        divided,
        base: _,
    } = level;
    let product = joined_product(factors, product_at, divided, ast)?;
    joined_sum(terms, sum_at, subtracted, product)
}

/// All but the innermost, and the innermost.
fn split_last(outer: Items<Outer>) -> Option<(Items<Outer>, Outer)>
    ensures split { result ≡ split_last outer }
{
    let mut outer = outer;
    match outer.pop() {
        None => None,
        Some(last) => Some((outer, last)),
    }
}

fn step_closing(
    alloc: Global,
    level: Level,
    outer: Items<Outer>,
    ast: Ast,
) -> Result<Option<State>, AllocError>
    ensures step { IfOk result (λ s. s ≡ step_closing level outer ast) }
{
    match split_last(outer) {
        None => Ok(None),
        Some(
            (
                outer,
                Outer {
                    level: before,
                    opened,
                },
            ),
        ) => match opened {
            Opened::Bracket => {
                let sum = whole_sum(level, ast)?;
                Ok(Some(filled(alloc, before, outer, sum)?))
            }
            Opened::Upper(_) => Ok(None),
            Opened::Lower(at, upper) => {
                let sum = whole_sum(level, ast)?;
                let node = Node::Binomial(Boxed::new(alloc, upper)?, Boxed::new(alloc, sum)?);
                Ok(Some(filled(alloc, before, outer, Ast { at, node })?))
            }
        },
    }
}

fn step_comma(
    alloc: Global,
    level: Level,
    outer: Items<Outer>,
    ast: Ast,
) -> Result<Option<State>, AllocError>
    ensures step { IfOk result (λ s. s ≡ step_comma level outer ast) }
{
    match split_last(outer) {
        None => Ok(None),
        Some(
            (
                outer,
                Outer {
                    level: before,
                    opened,
                },
            ),
        ) => match opened {
            Opened::Upper(at) => {
                let sum = whole_sum(level, ast)?;
                Ok(Some(inner(alloc, before, Opened::Lower(at, sum), outer)?))
            }
            Opened::Bracket => Ok(None),
            Opened::Lower(_, _) => Ok(None),
        },
    }
}

fn step_bang(
    alloc: Global,
    level: Level,
    outer: Items<Outer>,
    ast: Ast,
    last: Last,
    at: u32,
) -> Result<Option<State>, AllocError>
    ensures step { IfOk result (λ s. s ≡ step_bang level outer ast last at) }
{
    match last {
        Last::Atom => {
            let ast = Ast {
                at,
                node: Node::Factorial(Boxed::new(alloc, ast)?),
            };
            Ok(Some(State {
                stage: Stage::More(ast, Last::Bang),
                level,
                outer,
            }))
        }
        Last::Bang | Last::Exponent => Ok(None),
    }
}

fn step_caret(level: Level, outer: Items<Outer>, ast: Ast, last: Last, at: u32) -> Option<State>
    ensures step { result ≡ step_caret level outer ast last at }
{
    match last {
        Last::Atom | Last::Bang => {
            let Level {
                terms,
                sum_at,
                subtracted,
                factors,
                product_at,
                divided,
                base: _,
            } = level;
            let base = Some(Base { ast, at });
            let level = Level {
                terms,
                sum_at,
                subtracted,
                factors,
                product_at,
                divided,
                base,
            };
            Some(State {
                stage: Stage::Atom,
                level,
                outer,
            })
        }
        Last::Exponent => None,
    }
}

fn step_more(
    alloc: Global,
    level: Level,
    outer: Items<Outer>,
    ast: Ast,
    last: Last,
    token: Token,
    at: u32,
) -> Result<Option<State>, AllocError>
    ensures step { IfOk result (λ s. s ≡ step_more level outer ast last token at) }
{
    match token {
        Token::Plus => Ok(Some(State {
            stage: Stage::Atom,
            level: more_terms(alloc, level, ast, at, false)?,
            outer,
        })),
        Token::Minus => Ok(Some(State {
            stage: Stage::Atom,
            level: more_terms(alloc, level, ast, at, true)?,
            outer,
        })),
        Token::Star => Ok(Some(State {
            stage: Stage::Atom,
            level: more_factors(level, ast, at, false)?,
            outer,
        })),
        Token::Slash => Ok(Some(State {
            stage: Stage::Atom,
            level: more_factors(level, ast, at, true)?,
            outer,
        })),
        Token::Caret => Ok(step_caret(level, outer, ast, last, at)),
        Token::Bang => step_bang(alloc, level, outer, ast, last, at),
        Token::Closing => step_closing(alloc, level, outer, ast),
        Token::Comma => step_comma(alloc, level, outer, ast),
        _ => Ok(None),
    }
}

impl State {
    /// The state behind one more token, where it may stand there.
    pub fn step(self, alloc: Global, token: Token, at: u32) -> Result<Option<State>, AllocError>
        ensures step { IfOk result (λ s. s ≡ step self token at) }
    {
        let State {
            stage,
            level,
            outer,
        } = self;
        match stage {
            Stage::Atom => step_atom(alloc, level, outer, token, at),
            Stage::Opening(name_at) => match token {
                Token::Opening => Ok(Some(inner(alloc, level, Opened::Upper(name_at), outer)?)),
                _ => Ok(None),
            },
            Stage::More(ast, last) => step_more(alloc, level, outer, ast, last, token, at),
        }
    }
}
