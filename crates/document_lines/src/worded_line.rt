//! A line that begins with a word.

ghost use Rattle.std.specs.Prelude.{◌≡◌, ◌++◌};
ghost use Rattle.exact_texts.specs.Formats.{line_of};
ghost use Rattle.exact_texts.proofs.OneLine.{one_line_texts};

use spelled::{LineFault, LineSpelling, Lines, Spelling, Word, read_line, write_line};
use std::alloc::{AllocError, Global};

/// A line that begins with a word and says an item behind it.
#[derive(Clone, Copy)]
pub struct WordedLine<W, S> {
    /// The word.
    pub word: W,
    /// The spelling of the item.
    pub each: S,
}

impl<W: Word, S: Spelling> LineSpelling for WordedLine<W, S> {
    type Item = S::Item;

    ghost Value = { S.Value };

    ghost value_of = { λ x. S.value_of x };

    ghost format = { λ spelling. line_of (W.text spelling.word) (S.format spelling.each) };

    fn write_lines(&self, item: &S::Item, text: &mut String) -> Result<(), AllocError> {
        write_line(text, self.word.text(), &self.each, item)
    }

    fn read_lines(&self, alloc: Global, lines: &mut Lines<'_>) -> Result<S::Item, LineFault> {
        let word = self.word.text();
        read_line(alloc, lines, word.as_bytes(), &self.each)
    }

    ghost line_texts = { λ spelling. one_line_texts (S.format spelling.each) (W.text spelling.word) (W.in_one_line spelling.word)
        (S.within_line spelling.each) };
}
