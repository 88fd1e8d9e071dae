//! Terms as texts within a line: `poly P; scale F; nbase F; kbase F; up ITEMS; down ITEMS; over ITEMS; guard ITEMS`.
//!
//! Input: a `Proper` or a text. Output: the one text of the term; the term of the text. Which terms have a text, and which, is in
//! `specs/TermTexts.antt`: plain terms, of which documents speak (`Terms`), and carriers, which needn't be plain (`Carriers`).
//! Read `words.rt`, `lists.rt` (the four lists of forms), `fields.rt` (the polynomial, the scale and the bases, and the lists), then
//! `propers.rt` (what every proper term keeps) and `terms.rt`.
#![tactic(auto)]

mod fields;
mod lists;
mod propers;
mod terms;
mod words;

pub use lists::{Lists, TermLists};
pub use terms::{Carriers, Terms};
pub use words::FieldWord;

#[cfg(test)]
mod tests;
