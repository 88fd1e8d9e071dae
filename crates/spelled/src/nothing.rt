//! Lines that say nothing behind their word.

ghost use Rattle.std.specs.Prelude.{[], ℕ};
ghost use Rattle.exact_texts.specs.Nothing.{nothing};
ghost use Rattle.exact_texts.proofs.Nothing.{nothing_within_line};

use crate::spelled::Spelling;
use std::alloc::{AllocError, Global};

/// No text.
#[derive(Clone, Copy)]
pub struct Nothing;

impl Spelling for Nothing {
    type Item = ();

    ghost Value = { Unit {0} };

    ghost value_of = { λ x. x };

    ghost format = { λ _. nothing };

    fn write(&self, _item: &(), _text: &mut String) -> Result<(), AllocError> {
        Ok(())
    }

    fn read(&self, _alloc: Global, text: &[u8]) -> Result<Option<()>, AllocError> {
        Ok(if text.is_empty() { Some(()) } else { None })
    }

    ghost within_line = { λ _. nothing_within_line };
}
