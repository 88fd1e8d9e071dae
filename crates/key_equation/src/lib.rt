//! The key equation of an order, or of a pair, over any ring of forms: its solution with the poles that are left, or that there is none.
//!
//! Input: Gosper's normal form of the quotient of the pieces, and the sides, as `key_sides` gives them. Output: the multipliers, Y without the
//! pole forms that divide it, and the poles; or that no Y of any degree solves the equation with multipliers that aren't all zero. What is
//! divided out is in `specs/Cancelling.antt`, which polynomials the equation has in `specs/Polynomials.antt`, what an answer says in
//! `specs/Answers.antt`, and when the steps are in bounds in `specs/Reckoning.antt`.
//! Read `poles.rt` (what is divided out of Y), then `solving.rt`; `laws.rt` has two laws.
#![tactic(auto)]

mod laws;
mod poles;
mod solving;

pub use key_system::Insoluble;
pub use laws::{one_is_left, solutions_have_nothing_common};
pub use poles::{Cancelled, cancel_poles};
pub use solving::{Solution, solve};

#[cfg(test)]
mod tests;
