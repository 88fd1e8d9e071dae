//! Documents as values: a command, its subject, and the claims that are made of it.
//!
//! The crates above make documents, write and read them, and check them. Nothing of this is done here. What a value says is its document in
//! the sense of `specs/Documents.antt`, by `specs/Views.antt`; which documents are well formed, in a version of their texts, is in
//! `specs/WellFormed.antt`.
//! Read `commands.rt` and `claims.rt`, then `documents.rt`, `faults.rt` (why there is no document) and `laws.rt`.
#![tactic(auto)]

mod answers;
mod claims;
mod commands;
mod documents;
mod faults;
mod laws;

pub use claims::{Case, Claim, Empty, Evidence, Form, Found, HyperAgain, HyperSolution, Sums};
pub use commands::CommandWord;
pub use documents::{Doc, Subject, Version};
pub use faults::{EngineFault, Place};
pub use laws::{claims_of_one_order, empty_orders_rise};

#[cfg(test)]
mod tests;
