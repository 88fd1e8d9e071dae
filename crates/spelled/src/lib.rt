//! Writes and reads items that have one text each, within a line and line by line, and names the first bad line of a text.
//!
//! Input: a spelling, and an item or a text. Output: the one text of the item; the item of the text, or the line at fault.
//! What a text is and which line is the first bad one is in the specs of `exact_texts`: Formats, Lines, FirstBadLine.
//! Read `spelled.rt` (within a line), `lines.rt` (one line), `line_spelling.rt` and `in_turn.rt` (several), `texts.rt` (whole texts),
//! `laws.rt` (what each spelling keeps); then the spellings: `numbers.rt`, `wholes.rt`, `lists.rt`, `sums.rt` and the others.
#![tactic(auto)]

mod beside;
mod cutting;
mod faults;
mod in_turn;
mod laws;
mod line_spelling;
mod lines;
mod lists;
mod monomials;
mod nothing;
mod numbers;
mod optional;
mod powered;
mod separators;
mod spelled;
mod splitting;
mod sum_writing;
mod sums;
mod texts;
mod whole;
mod wholes;

pub use beside::{Beside, Worded};
pub use cutting::{behind, is_same};
pub use faults::{LineFault, TextFault};
pub use in_turn::{InTurn, Line};
pub use laws::{first_bad_line_is_one, line_tells_value, lines_tell_value, text_tells_value};
pub use line_spelling::LineSpelling;
pub use lines::{Lines, read_line, write_line};
pub use lists::{ItemSpelling, Items, Parts};
pub use monomials::Monomial;
pub use nothing::Nothing;
pub use numbers::{Naturals, NumberBelow};
pub use optional::Optional;
pub use powered::Powered;
pub use separators::{Separator, Word};
pub use spelled::Spelling;
pub use splitting::pieces;
pub use sum_writing::write_monomial;
pub use sums::Sums;
pub use texts::{read_text, write_text};
pub use whole::line_number;
pub use wholes::Wholes;

#[cfg(test)]
mod tests;
