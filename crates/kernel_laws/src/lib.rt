//! The mathematics of elimination without fractions, over any domain whose rows are reduced.
//!
//! There is no function here. `specs/` has the definitions, `proofs/` the laws that the crates above cite.
//! Read `specs/Rows.antt`, `specs/Kernels.antt` and `specs/Answers.antt` first, then `specs/Elimination.antt`.
#![tactic(auto)]
