//! The commands that write documents.

use term_text::BoxRange;

/// The command that a document answers.
#[derive(Clone, Copy, Debug, PartialEq, Eq, Drop)]
pub enum CommandWord {
    /// The order 0 of a term.
    Gosper,
    /// One order of a term.
    Ct(u32),
    /// The orders of a term from 0 up, to the first with a recurrence, or to this one.
    Zeil(u32),
    /// A WZ pair of a quotient of terms.
    Wz,
    /// A WZ pair of a quotient of terms, and its companion identity over a box.
    Companion(BoxRange),
    /// The hypergeometric solutions of a recurrence.
    Hyper,
}
