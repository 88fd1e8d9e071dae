//! The words that lines begin with.

ghost use Rattle.document_lines.specs.Words.{word_text, word_in_one_line};

use spelled::Word;

/// The word that a line begins with, and the space behind it.
#[derive(Clone, Copy)]
pub enum LineWord {
    /// The version of a document.
    Version,
    /// The command of a document.
    Command,
    /// The term that a document speaks of.
    Term,
    /// The polynomials that a document speaks of.
    Recurrence,
    /// The end of a document, without a space.
    End,
    /// The matches of a normal form.
    Matches,
    /// What is left above.
    Q,
    /// What is left below.
    R,
    /// What shows that an order is empty.
    Witness,
    /// The multipliers of a recurrence.
    Multipliers,
    /// The carrier K.
    Carrier,
    /// The polynomial Y.
    Y,
    /// The poles D.
    Poles,
    /// The list above of the ratio.
    RatioTop,
    /// The list below of the ratio.
    RatioBottom,
    /// The range of the sum.
    Range,
}

impl Word for LineWord {
    ghost text = { word_text };

    fn text(&self) -> &'static str {
        match self {
            LineWord::Version => "ekhad ",
            LineWord::Command => "command ",
            LineWord::Term => "term ",
            LineWord::Recurrence => "recurrence ",
            LineWord::End => "end",
            LineWord::Matches => "match ",
            LineWord::Q => "q ",
            LineWord::R => "r ",
            LineWord::Witness => "witness ",
            LineWord::Multipliers => "a ",
            LineWord::Carrier => "K ",
            LineWord::Y => "Y ",
            LineWord::Poles => "D ",
            LineWord::RatioTop => "Rtop ",
            LineWord::RatioBottom => "Rbot ",
            LineWord::Range => "range ",
        }
    }

    ghost in_one_line = { word_in_one_line };
}
