//! Polynomials over any ring, as a ring: `Poly<R>`, with `Zn` in one variable and `Znk` in two.
//!
//! Input: coefficients from power 0 up. Output: a `Poly`, which is its list of coefficients without zeros at the end, of at
//! most 256 items. What the operations are is in the crate below, in its `specs/Lists.antt` and `specs/PolyAlgebra.antt`.
//! Read `lists.rt`, `evaluation.rt`, `division.rt` and `multiples.rt` (lists of coefficients), then `polys.rt` (the type, its calls, its ring and its domain)
//! `products.rt` (when a product is in bounds) and `powers.rt` (a value times a power).
#![tactic(auto)]

mod division;
mod evaluation;
mod lists;
mod multiples;
mod polys;
mod powers;
mod products;

pub use division::all_zero;
pub use lists::negatives;
pub use polys::{Poly, Zn, Znk};
pub use powers::times_power;

#[cfg(test)]
mod tests;
