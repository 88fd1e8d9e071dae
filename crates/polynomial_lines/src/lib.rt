//! Polynomials as texts within a line: sums of monomials, by falling powers.
//!
//! Input: a polynomial or a text. Output: the one text of the polynomial; the polynomial of the text.
//! Which polynomials have a text, and which, is in polynomial_sums' `specs/PolynomialSums.antt`; what a format and a spelling are, in
//! `exact_texts` and `spelled`.
//! Read `letters.rt` (letters, and the lists of them that polynomials are written in), `rings.rt` (the trait of polynomials of any number of
//! levels), `wholes.rt` and `polys.rt` (its instances), `polynomials.rt` (the spelling), then `laws.rt`.
#![tactic(auto)]

mod laws;
mod letters;
mod polynomials;
mod polys;
mod rings;
mod wholes;

pub use laws::{every_polynomial_has_a_text, polynomials_have_their_texts_in_documents};
pub use letters::{Letter, Letters};
pub use polynomials::{POLYNOMIALS_IN_N, POLYNOMIALS_IN_N_AND_K, Polynomials};
pub use rings::PolynomialRing;

#[cfg(test)]
mod tests;
