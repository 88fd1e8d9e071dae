//! Whole numbers and fractions as texts within a line.
//!
//! Input: a number or a fraction in lowest terms, or a text. Output: the one text of it; the number or the fraction of the text.
//! Which fractions have a text is in `specs/Fractions.antt`; what a format and a spelling are, in `exact_texts` and `spelled`.
//! Read `numbers.rt` (whole numbers of the ring), then `fractions.rt`.
#![tactic(auto)]

mod fractions;
mod numbers;

pub use fractions::{Fractions, NonzeroFractions};
pub use numbers::WholeNumbers;

#[cfg(test)]
mod tests;
