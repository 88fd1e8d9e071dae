//! From a tree to the proper term that it stands for, or the first refusal of a walk over it.
//!
//! Input: a tree, two trees, or the trees of a recurrence. Output: a plain `Proper`, or the polynomials of the recurrence, or a
//! `TermFault`. What the class of a tree is stands in `term_classes`, `specs/Walk.antt`; what an answer says of it is `Answers` of
//! `tree_polynomials`.
//! Read `wide_forms.rt` (linear forms and their limits); `factors.rt`, `gathered.rt`, `fractions.rt` and `gathered_polynomials.rt` (what a
//! walk has gathered); `powers.rt`, `exponents.rt`, `arguments.rt`, `factorials.rt` and `walk.rt` (the walk); then `cancelling_forms.rt` (factorials above
//! and below), `classes.rt` and `recurrences.rt`.
#![tactic(auto)]

mod arguments;
mod cancelling_forms;
mod classes;
mod exponents;
mod factorials;
mod factors;
mod fractions;
mod gathered;
mod gathered_polynomials;
mod powers;
mod recurrences;
#[cfg(test)]
mod tests;
mod walk;
mod wide_forms;

pub use classes::{classify, classify_quotient};
pub use recurrences::polynomials;
