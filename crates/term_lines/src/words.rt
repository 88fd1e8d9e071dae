//! The words in front of the fields of a term.

ghost use Rattle.term_lines.specs.Words.{word_text, word_in_one_line};

use spelled::Word;

/// The word in front of a field, with a space.
#[derive(Clone, Copy)]
pub enum FieldWord {
    /// The polynomial.
    Poly,
    /// The scale.
    Scale,
    /// The base of the power n.
    NBase,
    /// The base of the power k.
    KBase,
    /// The forms whose factorials stand above.
    Up,
    /// The forms whose factorials stand below.
    Down,
    /// The forms that the rest is divided by.
    Over,
    /// The forms whose factorials were cancelled.
    Guard,
}

impl Word for FieldWord {
    ghost text = { word_text };

    fn text(&self) -> &'static str {
        match self {
            FieldWord::Poly => "poly ",
            FieldWord::Scale => "scale ",
            FieldWord::NBase => "nbase ",
            FieldWord::KBase => "kbase ",
            FieldWord::Up => "up ",
            FieldWord::Down => "down ",
            FieldWord::Over => "over ",
            FieldWord::Guard => "guard ",
        }
    }

    ghost in_one_line = { word_in_one_line };
}
