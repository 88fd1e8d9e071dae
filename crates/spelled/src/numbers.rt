//! Numbers below a bound.

ghost use Rattle.std.specs.Prelude.{◌≡◌, ◌≤◌, ◌<◌, ◌^◌, ℕ, Some};
ghost use Rattle.std.specs.Fmt.{decimal};
ghost use Rattle.exact_texts.specs.Numbers.{numbers_below, naturals};
ghost use Rattle.exact_texts.proofs.Numerals.{numbers_within_line, naturals_within_line, naturals_are_items};

use crate::lists::ItemSpelling;
use crate::spelled::Spelling;
use std::alloc::{AllocError, Global};

/// Numbers below a bound.
#[derive(Clone, Copy)]
pub struct NumberBelow {
    bound: u128,
    ghost some: { 1 ≤ bound },
    ghost small: { bound ≤ 2 ^ 127 },
}

impl NumberBelow {
    pub fn new(bound: u128) -> NumberBelow
        requires some { 1 ≤ bound }
        requires small { bound ≤ 2 ^ 127 }
        ensures { result.bound ≡ bound }
    {
        NumberBelow { bound }
    }
}

// The number that decimal digits spell.
pub(crate) fn read_natural(text: &[u8]) -> Option<u128>
    ensures read { (n : ℕ) → n < 2 ^ 127 → text.now ≡ decimal n → result ≡ Some n }
{
    let Ok(digits) = str::from_utf8(text) else {
        return None;
    };
    digits.parse::<u128>().ok()
}

impl Spelling for NumberBelow {
    type Item = u128;

    ghost Value = { ℕ };

    ghost value_of = { λ n. n };

    ghost format = { λ spelling. numbers_below spelling.bound };

    fn write(&self, number: &u128, text: &mut String) -> Result<(), AllocError> {
        write!(text, "{number}")
    }

    fn read(&self, _alloc: Global, text: &[u8]) -> Result<Option<u128>, AllocError> {
        match read_natural(text) {
            Some(number) if number < self.bound => Ok(Some(number)),
            _ => Ok(None),
        }
    }

    ghost within_line = { λ spelling. numbers_within_line spelling.bound spelling.some spelling.small };
}

/// Numbers of at most 127 bits.
#[derive(Clone, Copy)]
pub struct Naturals;

impl Spelling for Naturals {
    type Item = u128;

    ghost Value = { ℕ };

    ghost value_of = { λ n. n };

    ghost format = { λ _. naturals };

    fn write(&self, number: &u128, text: &mut String) -> Result<(), AllocError> {
        write!(text, "{number}")
    }

    fn read(&self, _alloc: Global, text: &[u8]) -> Result<Option<u128>, AllocError> {
        match read_natural(text) {
            Some(number) if number < 1 << 127 => Ok(Some(number)),
            _ => Ok(None),
        }
    }

    ghost within_line = { λ _. naturals_within_line };
}

impl ItemSpelling for Naturals {
    ghost are_items = { λ _. naturals_are_items };
}
