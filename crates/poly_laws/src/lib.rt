//! Polynomials over any ring, as meanings: their operations, their values at points, and the laws of both.
//!
//! There is no function here. `specs/` has the definitions, `proofs/` the laws that the crates above cite.
//! Read `specs/Lists.antt`, `specs/PolyAlgebra.antt` and `specs/Values.antt` first.
#![tactic(auto)]
