//! Whole numbers of the ring.

ghost use Rattle.std.specs.Prelude.{ℤ};
ghost use Rattle.exact_texts.specs.Numbers.{whole_numbers};
ghost use Rattle.exact_texts.proofs.Numerals.{wholes_within_line, wholes_are_items};

use ring_laws::Whole;
use spelled::{ItemSpelling, Spelling, Wholes};
use std::alloc::{AllocError, Global};

/// Whole numbers, which are below 2^127 in magnitude.
#[derive(Clone, Copy)]
pub struct WholeNumbers;

impl Spelling for WholeNumbers {
    type Item = Whole;

    ghost Value = { ℤ };

    ghost value_of = { λ whole. whole.value };

    ghost format = { λ _. whole_numbers };

    fn write(&self, whole: &Whole, text: &mut String) -> Result<(), AllocError> {
        Wholes.write(&whole.value(), text)
    }

    fn read(&self, alloc: Global, text: &[u8]) -> Result<Option<Whole>, AllocError> {
        match Wholes.read(alloc, text)? {
            Some(number) => Ok(Whole::new(number)),
            None => Ok(None),
        }
    }

    ghost within_line = { λ _. wholes_within_line };
}

impl ItemSpelling for WholeNumbers {
    ghost are_items = { λ _. wholes_are_items };
}
