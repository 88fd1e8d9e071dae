//! Elimination without fractions over any domain whose rows are reduced: a vector of the kernel of rows, or that there is none.
//!
//! Input: rows of one length. Output: a vector of their kernel that isn't zero from a given column on, or the rank; a basis of the kernel.
//! What elimination answers is in `specs/Answers.antt` of `kernel_laws`, its steps are in `specs/Elimination.antt` and
//! `specs/BackSubstitution.antt` there.
//! Read `rows.rt` (one row), `rounds.rt` (one column, then all), `vectors.rt` (the vector of a free column), then `kernels.rt`.
#![tactic(auto)]

mod kernels;
mod rounds;
mod rows;
mod vectors;

pub use kernels::{Kernel, Pivots, eliminate, kernel_basis};
pub use reducing::Reducing;

#[cfg(test)]
mod tests;
