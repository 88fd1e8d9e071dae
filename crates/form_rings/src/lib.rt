//! Rings of polynomials in n, or in n and x, over the whole numbers, which linear forms belong to.
//!
//! Input: slopes and an offset, or a value. Output: the linear part of a form as a value, or the value at a point, the whole number that
//! a value is, and the sign of its lead. What each means is in `specs/Forms.antt`, and for the polynomials in n in `specs/OneVariable.antt`.
//! Read `rings.rt` (the trait), then `one_variable.rt`.
#![tactic(auto)]

mod one_variable;
mod rings;

pub use rings::FormRing;

#[cfg(test)]
mod tests;
