//! Rings whose values mean numbers of any size, and the whole numbers below 2^127 as the first of them.
//!
//! Input: values of a type that is a `Ring`. Output: the value of the same meaning that a call names, or a `RingFault`.
//! What a value means is in `specs/Meaning.antt`, the operations and their laws are in `specs/Algebra.antt`, what a call answers
//! is in `specs/Answer.antt` and `specs/Division.antt`, and the ring of whole numbers is in `specs/Wholes.antt`.
//! Read `rings.rt` and `domains.rt` (the traits), then `wholes.rt` (the number and its calls) and `divisors.rt`.
#![tactic(auto)]

mod divisors;
mod domains;
mod faults;
mod rings;
mod wholes;

pub use divisors::gcd_whole;
pub use domains::Domain;
pub use faults::RingFault;
pub use rings::Ring;
pub use wholes::{Sign, Whole};

#[cfg(test)]
mod tests;
