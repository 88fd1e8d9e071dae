//! Checks the claim of a document by tests of its own, which share nothing with the engine that found it.
//!
//! Input: a document of a polynomial in k. Output: a `Verdict`, by `check_poly`. `specs/Checks.antt` says what each test asks, and
//! which verdict is right; an accepted document telescopes its own term.
//! Read `verdicts.rt` (the types), then `checking.rt`.
#![tactic(auto)]

mod checking;
mod verdicts;

pub use checking::check_poly;
pub use verdicts::{Reason, Verdict};

#[cfg(test)]
mod tests;
