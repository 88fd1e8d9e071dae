//! Fractions over a domain: a numerator and a denominator that isn't zero, not reduced.
//!
//! Input: two values of a domain. Output: the sum, the difference and the product as taught, whether two fractions are the same
//! by cross-multiplying, and for whole numbers the lowest terms.
//! What the operations are, and when they are in bounds, is in `specs/Fractions.antt`; lowest terms are in `specs/LowestTerms.antt`.
//! Read `fractions.rt` (the type and its calls), then `products.rt` (sums of two products), `lowest_terms.rt` and `laws.rt` (being the same is an equivalence).
#![tactic(auto)]

mod fractions;
mod laws;
mod lowest_terms;
mod products;

pub use fractions::Frac;
pub use laws::sameness_is_an_equivalence;
pub use lowest_terms::lowest;

#[cfg(test)]
mod tests;
