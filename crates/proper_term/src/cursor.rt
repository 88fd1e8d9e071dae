//! The numbers that are left of a quotient of factorials, one after another.

ghost use Rattle.std.specs.Prelude.{◌≡◌, ◌≤◌, ◌<◌, ◌^◌, ◌++◌, ◌-◌, ◌≢◌, [], ℕ, List, pos, map, length, replicate};
ghost use Rattle.proper_term.specs.Cursors.{argument_of, numbers_left, IsFilled};

use crate::argument::Argument;
use crate::arguments::{excess, next_of_both};
use ring_laws::Whole;

/// A number of the list, and how often it still comes before greater ones.
#[derive(Clone, Copy, Debug, PartialEq, Eq, Drop)]
pub(crate) struct Cursor {
    pub(crate) at: u128,
    pub(crate) left: u128,
    ghost some: { 1 ≤ at },
    ghost small: { at < 2 ^ 72 },
}

impl Cursor {
    ghost use Rattle.std.specs.Prelude.{◌≡◌, ◌≢◌, ◌++◌, [], ℕ, List, pos, map, replicate};
    ghost use Rattle.proper_term.specs.Cursors.{argument_of, numbers_left, first_of, rest_of, IsFilled};

    /// Before the first number, which is 2 or more.
    pub(crate) fn new() -> Cursor
        ensures at { result.at ≡ 1 }
        ensures left { result.left ≡ 0 }
    {
        Cursor { at: 1, left: 0 }
    }

    /// The number here, and 1 behind the last one.
    pub(crate) fn number(self) -> Whole
        ensures number { (later : List ℕ) → (self.left ≡ 0 → later ≡ []) → result.value ≡ pos (first_of (replicate self.left self.at ++ later)) }
        ensures not_zero { result.value ≢ pos 0 }
    {
        if self.left == 0 {
            return Whole::ONE;
        }
        Whole {
            value: self.at as i128,
        }
    }

    /// The cursor one number further.
    pub(crate) fn passed(self) -> Cursor
        ensures at { result.at ≡ self.at }
        ensures rest { (later : List ℕ) → (self.left ≡ 0 → later ≡ []) → replicate result.left self.at ++ later ≡ rest_of
            (replicate self.left self.at ++ later) }
    {
        Cursor {
            at: self.at,
            left: self.left.saturating_sub(1),
        }
    }

    /// The same numbers, with one here unless none is left.
    pub(crate) fn filled(self, above: &[Argument], below: &[Argument]) -> Cursor
        ensures same { numbers_left (map argument_of above.now) (map argument_of below.now) result.at result.left
            ≡ numbers_left (map argument_of above.now) (map argument_of below.now) self.at self.left }
        ensures filled { IsFilled (map argument_of above.now) (map argument_of below.now) result.at result.left }
    {
        if self.left > 0 {
            return self;
        }
        first_after(self.at, above, below)
    }

    /// The numbers behind this one.
    pub(crate) fn next(self, above: &[Argument], below: &[Argument]) -> Cursor
        requires filled { IsFilled (map argument_of above.now) (map argument_of below.now) self.at self.left }
        ensures rest { numbers_left (map argument_of above.now) (map argument_of below.now) result.at result.left
            ≡ rest_of (numbers_left (map argument_of above.now) (map argument_of below.now) self.at self.left) }
        ensures filled { IsFilled (map argument_of above.now) (map argument_of below.now) result.at result.left }
    {
        self.passed().filled(above, below)
    }
}

// The first number behind another one that stands above more often than below.
fn first_after(at: u128, above: &[Argument], below: &[Argument]) -> Cursor
    requires some { 1 ≤ at }
    requires small { at < 2 ^ 72 }
    ensures same { numbers_left (map argument_of above.now) (map argument_of below.now) result.at result.left
        ≡ numbers_left (map argument_of above.now) (map argument_of below.now) at 0 }
    ensures filled { IsFilled (map argument_of above.now) (map argument_of below.now) result.at result.left }
{
    let mut at = at;
    while excess(above, below, at + 1) == 0 {
        let Some(number) = next_of_both(above, below, at + 1) else {
            return Cursor { at, left: 0 };
        };
        at = number;
    }
    Cursor {
        at: at + 1,
        left: excess(above, below, at + 1),
    }
}
