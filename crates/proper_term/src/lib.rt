//! Proper hypergeometric terms: `Proper`, their values at points and their natural range.
//!
//! Input: a polynomial, fractions and lists of forms. Output: a `Proper`, which keeps the facts of every proper term, and
//! its value at a point, or none exactly where it isn't defined. What a term stands for is `term_of` in `specs/TermOf.antt`, its
//! facts are hypergeometric's `IsProper`, when a value is in bounds is in `specs/ValueBounds.antt`, and
//! in hypergeometric's `specs/NaturalRange.antt` what the natural range is.
//! Read `proper.rt` (the type) with `facts.rt` (its facts as tests) and `range.rt`; then `values.rt` (the value from
//! its factors), `point.rt` (where a term is defined), `arguments.rt`, `cursor.rt` and `factorials.rt` (what is left of the factorials),
//! `polynomial.rt` and `running.rt` (the running fraction).
#![tactic(auto)]

mod argument;
mod arguments;
mod cursor;
mod factorials;
mod facts;
mod point;
mod polynomial;
mod proper;
mod range;
mod running;
#[cfg(test)]
mod term_tests;
#[cfg(test)]
mod tests;
mod values;

pub use proper::Proper;
pub use range::natural;
pub use values::value;
