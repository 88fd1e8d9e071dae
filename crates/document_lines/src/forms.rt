//! The lines of a normal form.

ghost use Rattle.documents.specs.Documents.{Form as FormValue};
ghost use Rattle.documents.specs.Views.{form_said};
ghost use Rattle.document_lines.specs.ClaimTexts.{form_lines};
ghost use Rattle.document_lines.specs.FormLaws.{form_texts};

use crate::normal_matches::NormalMatches;
use crate::worded_line::WordedLine;
use crate::words::LineWord;
use documents::Form;
use form_lines::FactorLists;
use spelled::{InTurn, Items, LineFault, LineSpelling, Lines};
use std::alloc::{AllocError, Global};

type MatchesLine = WordedLine<LineWord, Items<NormalMatches>>;

// A line of a list with a scale.
pub(crate) type ListLine = WordedLine<LineWord, FactorLists>;

const MATCHES: MatchesLine = WordedLine {
    word: LineWord::Matches,
    each: Items {
        each: NormalMatches,
    },
};

const Q: ListLine = WordedLine {
    word: LineWord::Q,
    each: FactorLists,
};

const R: ListLine = WordedLine {
    word: LineWord::R,
    each: FactorLists,
};

const LINES: InTurn<MatchesLine, InTurn<ListLine, ListLine>> = InTurn {
    first: MATCHES,
    second: InTurn {
        first: Q,
        second: R,
    },
};

/// The lines of a normal form: `match MATCHES`, `q LIST` and `r LIST`.
#[derive(Clone, Copy)]
pub struct NormalForms;

impl LineSpelling for NormalForms {
    type Item = Form;

    ghost Value = { FormValue };

    ghost value_of = { form_said };

    ghost format = { λ _. form_lines };

    fn write_lines(&self, form: &Form, text: &mut String) -> Result<(), AllocError> {
        MATCHES.write_lines(&form.matches, text)?;
        Q.write_lines(&form.q, text)?;
        R.write_lines(&form.r, text)
    }

    fn read_lines(&self, alloc: Global, lines: &mut Lines<'_>) -> Result<Form, LineFault> {
        let (matches, (q, r)) = LINES.read_lines(alloc, lines)?;
        Ok(Form { matches, q, r })
    }

    ghost line_texts = { λ _. form_texts };
}
