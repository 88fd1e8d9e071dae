//! The bounds of a box, token by token.
ghost use Rattle.std.specs.Prelude.{◌≡◌, ◌∷◌, [], IfOk, length};
ghost use Rattle.term_text.specs.Code.BoundSteps.{no_bounds, with_bound, next_bound, step_bounds, whole_bounds};

use crate::state::Token;
use sqlite_items::Items;
use std::alloc::{AllocError, Global};

/// The ranges of a box: n from `n0` to `n1`, k from `k0` to `k1`, each number below 2^127 in magnitude.
#[derive(Clone, Copy, Debug, PartialEq, Eq, Drop)]
pub struct BoxRange {
    pub n0: i128,
    pub n1: i128,
    pub k0: i128,
    pub k1: i128,
}

/// The bounds of a box.
const BOUNDS: usize = 4;

/// What the tokens of a bound have come to.
#[derive(Clone, Copy, Debug, PartialEq, Eq)]
pub enum Stage {
    /// No token of it is read.
    Begin,
    /// Its minus is read.
    Minus,
    /// It has ended.
    End,
}

/// The bounds that have ended, and how far the last or the next one has come.
#[derive(Drop)]
pub struct Bounds {
    pub values: Items<i128>,
    pub stage: Stage,
}

/// No token of a bound is read.
pub fn no_bounds(alloc: Global) -> Bounds
    ensures begin { result ≡ no_bounds }
{
    Bounds {
        values: Items::new(alloc),
        stage: Stage::Begin,
    }
}

// A bound has ended.
fn with_bound(values: Items<i128>, value: i128) -> Result<Bounds, AllocError>
    ensures bound { IfOk result (λ b. b ≡ with_bound values value) }
{
    let mut values = values;
    values.push(value)?;
    Ok(Bounds {
        values,
        stage: Stage::End,
    })
}

// The next bound begins, where one may follow.
fn next_bound(values: Items<i128>) -> Option<Bounds>
    ensures next { result ≡ next_bound values }
{
    if values.len() < BOUNDS {
        Some(Bounds {
            values,
            stage: Stage::Begin,
        })
    } else {
        None
    }
}

impl Bounds {
    /// The bounds behind one more token, where it may stand there.
    pub fn step(self, token: Token) -> Result<Option<Bounds>, AllocError>
        ensures step { IfOk result (λ b. b ≡ step_bounds self token) }
    {
        let Bounds { values, stage } = self;
        match stage {
            Stage::Begin => match token {
                Token::Digits(value) => Ok(Some(with_bound(values, value.value())?)),
                Token::Minus => Ok(Some(Bounds {
                    values,
                    stage: Stage::Minus,
                })),
                _ => Ok(None),
            },
            Stage::Minus => match token {
                Token::Digits(value) => Ok(Some(with_bound(values, -value.value())?)),
                _ => Ok(None),
            },
            Stage::End => match token {
                Token::Comma => Ok(next_bound(values)),
                _ => Ok(None),
            },
        }
    }

    /// All the bounds, where the text may end here.
    pub fn whole(self) -> Option<Items<i128>>
        ensures whole { result ≡ whole_bounds self }
    {
        let Bounds { values, stage } = self;
        if stage == Stage::End && values.len() == BOUNDS {
            Some(values)
        } else {
            None
        }
    }
}

/// The range that four bounds are.
pub fn range_of(bounds: &[i128]) -> BoxRange
    requires four { length bounds.now ≡ 4 }
    ensures range { bounds.now ≡ result.n0 ∷ result.n1 ∷ result.k0 ∷ result.k1 ∷ [] }
{
    BoxRange {
        n0: bounds[0],
        n1: bounds[1],
        k0: bounds[2],
        k1: bounds[3],
    }
}
