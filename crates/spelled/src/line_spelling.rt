//! The trait of line spellings: how values are written as whole lines, and read line by line.

ghost use Rattle.std.specs.Prelude.{◌≡◌, ◌++◌, OnOk, string_bytes};
ghost use Rattle.exact_texts.specs.Formats.{Format};
ghost use Rattle.exact_texts.specs.Lines.{AreLineTexts};
ghost use Rattle.spelled.specs.Reading.{ReadsLines};

use crate::faults::LineFault;
use crate::lines::Lines;
use std::alloc::{AllocError, Global};

/// A spelling of values as whole lines: each value that has a text has one, and the text tells the value, whatever follows it.
pub trait LineSpelling {
    /// What is spelled.
    type Item: Drop;

    // what an item stands for
    ghost Value: { Type 0 };

    ghost value_of: { Self.Item → Value };

    // which values have a text, and the text
    ghost format: { Self → Format Value };

    /// Writes the lines of an item at the end.
    fn write_lines(&self, item: &Self::Item, text: &mut String) -> Result<(), AllocError>
        requires { (format self.now).Has (value_of item.now) }
        ensures { OnOk result (string_bytes text.new ≡ string_bytes text.old ++ (format self.now).text (value_of item.now)) };

    /// The item that the next lines spell, or a stop in front of the first line that no item has there.
    fn read_lines(&self, alloc: Global, lines: &mut Lines<'_>) -> Result<Self::Item, LineFault>
        ensures { ReadsLines (format self.now) value_of lines.old.rest.now lines.new.rest.now result };

    // There is a value; texts are whole lines, and tell the value, also in front of others.
    ghost line_texts: { (spelling : Self) → AreLineTexts (format spelling) };
}
