//! Gosper's key equation q(k) Y(k+1) - b(k) Y(k) = a_0 s_0(k) + a_1 s_1(k) + .. as a linear system: a degree bound, its rows, and its solution.
//!
//! Input: q, b (which is r(k-1)) and the sides as polynomials in k over any ring of forms that reduces. Output: the multipliers a_j, of which one
//! isn't zero, and Y, or that there are none of any degree. What a solution is, the bound and the rows are in `specs/` of `key_laws`; which
//! solution is given, and when the steps are in bounds, is in `specs/Solved.antt` and `specs/Reckoning.antt`.
//! Read `degrees.rt`, `leads.rt` and `bounds.rt` (the degree bound), `faults.rt`, `columns.rt` and `rows.rt` (the system), then `vectors.rt` and
//! `solving.rt`.
#![tactic(auto)]

mod bounds;
mod columns;
mod degrees;
mod faults;
mod leads;
mod rows;
mod solving;
mod vectors;

pub use bounds::degree_bound;
pub use rows::key_rows;
pub use solving::{Insoluble, Solved, solve};

#[cfg(test)]
mod tests;
