//! The line of an item, and lines one after another.

ghost use Rattle.std.specs.Prelude.{◌≡◌, ◌++◌, [], refl};
ghost use Rattle.exact_texts.specs.Formats.{line_of, in_turn};
ghost use Rattle.exact_texts.proofs.Formats.{line_texts_in_turn};
ghost use Rattle.exact_texts.proofs.OneLine.{one_line_texts};

use crate::faults::LineFault;
use crate::line_spelling::LineSpelling;
use crate::lines::{Lines, read_line, write_line};
use crate::spelled::Spelling;
use std::alloc::{AllocError, Global};

/// A line that says an item.
#[derive(Clone, Copy)]
pub struct Line<S> {
    pub each: S,
}

impl<S: Spelling> LineSpelling for Line<S> {
    type Item = S::Item;

    ghost Value = { S.Value };

    ghost value_of = { λ x. S.value_of x };

    ghost format = { λ spelling. line_of [] (S.format spelling.each) };

    fn write_lines(&self, item: &S::Item, text: &mut String) -> Result<(), AllocError> {
        write_line(text, "", &self.each, item)
    }

    fn read_lines(&self, alloc: Global, lines: &mut Lines<'_>) -> Result<S::Item, LineFault> {
        read_line(alloc, lines, b"", &self.each)
    }

    ghost line_texts = { λ spelling. one_line_texts (S.format spelling.each) [] refl (S.within_line spelling.each) };
}

/// The lines of one item and then those of another.
#[derive(Clone, Copy)]
pub struct InTurn<A, B> {
    pub first: A,
    pub second: B,
}

impl<A: LineSpelling, B: LineSpelling> LineSpelling for InTurn<A, B> {
    type Item = (A::Item, B::Item);

    ghost Value = { A.Value × B.Value };

    ghost value_of = { λ p. (A.value_of p.0, B.value_of p.1) };

    ghost format = { λ spelling. in_turn (A.format spelling.first) (λ _. B.format spelling.second) };

    fn write_lines(&self, items: &(A::Item, B::Item), text: &mut String) -> Result<(), AllocError> {
        self.first.write_lines(&items.0, text)?;
        self.second.write_lines(&items.1, text)
    }

    fn read_lines(
        &self,
        alloc: Global,
        lines: &mut Lines<'_>,
    ) -> Result<(A::Item, B::Item), LineFault> {
        let first = self.first.read_lines(alloc, lines)?;
        let second = self.second.read_lines(alloc, lines)?;
        Ok((first, second))
    }

    ghost line_texts = { λ spelling. line_texts_in_turn (A.format spelling.first) (λ _. B.format spelling.second)
        (A.line_texts spelling.first) (λ _ _. B.line_texts spelling.second) };
}
