//! The polynomial and the constant that a tree of a term stands for, or the first refusal in seeking them.
//!
//! Input: a tree. Output: its polynomial in k over those in n, or its constant, where it has one. What is sought in which order is in
//! `term_classes`, `specs/Finding.antt`; what an answer says of it is `Answers` in `specs/Answers.antt`.
//! Read `leaves.rt`, `sums.rt`, `products.rt`, `limits.rt` and `exponents.rt` (polynomials and numbers),
//! `operations.rt` (what a node makes of its parts), `polynomials.rt`; then `powers.rt`, `fractions.rt` and `factors.rt` (powers and
//! products of fractions), `constant_powers.rt` and `constants.rt`. `names_of_k.rt` finds the first name k.
#![tactic(auto)]

mod constant_powers;
#[cfg(test)]
mod constant_tests;
mod constants;
mod exponents;
mod factors;
mod fractions;
mod leaves;
mod limits;
mod names_of_k;
#[cfg(test)]
mod names_of_k_tests;
mod operations;
mod polynomials;
mod powers;
mod products;
mod sums;
#[cfg(test)]
mod tests;

pub use constants::constant_of_tree;
pub use fractions::times_power_of;
pub use limits::{capped_magnitude, number_within};
pub use names_of_k::free_of_k;
pub use polynomials::{constant_of, polynomial_of_tree};
