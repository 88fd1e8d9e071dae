//! Reads texts of terms: the tree of a text in the grammar, or its first fault.
//!
//! Input: the bytes of a term, of a pair, of a box or of a recurrence. Output: its trees and bounds, or a `TextFault`. The crate `grammar`
//! says what these and the first fault of a text are, `specs/Answers.antt` what the readers answer. Read `ast.rt`, `fault.rt`, `front.rt` (the
//! token that stands next), `state.rt` (a term, token by token), `bounds.rt`, `several.rt`, `places.rt`, then `read.rt`.
#![tactic(auto)]

mod ast;
mod bounds;
mod fault;
mod front;
mod places;
mod read;
mod several;
mod state;

pub use ast::{Ast, Node, Part};
pub use bounds::BoxRange;
pub use fault::TextFault;
pub use read::{read_boxed, read_pair, read_recurrence, read_term};
