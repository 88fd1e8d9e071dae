//! The sign of a polynomial's value at a whole number, the whole roots of a polynomial, and its linear factors.
//!
//! Input: polynomials in n. Output: a sign of a value of any size; the whole roots, rising; the forms `u*n + v` of small slope that divide it,
//! with their powers.
//! What a sign is, is in `specs/Signs.antt`; what the whole roots are, in `specs/Roots.antt`; the differences of a polynomial, and when
//! they are in bounds, in `specs/Differences.antt`; where its sign turns, in `specs/Turns.antt`; what the linear factors are, in
//! `specs/LinearFactors.antt`, and when finding them is in bounds, in `specs/FactorBounds.antt`.
//! Read `signs.rt`, then `differences.rt`, `turns.rt` (where the sign changes, from where that of the difference does), `roots.rt` and `factors.rt`.
#![tactic(auto)]

mod differences;
mod factors;
mod roots;
mod signs;
mod turns;

pub use factors::linear_factors;
pub use roots::whole_roots;
pub use signs::sign_at;

#[cfg(test)]
mod tests;
