//! Documents.

use crate::claims::Claim;
use crate::commands::CommandWord;
use poly_generic::Zn;
use proper_term::Proper;

/// What a document speaks of.
#[derive(Drop)]
pub enum Subject {
    /// A term; for a WZ pair the quotient.
    Term(Proper),
    /// The polynomials p_0, p_1, .. in n of a recurrence.
    Recurrence(Vec<Zn>),
}

/// A document: what was asked, of what, and the claims.
#[derive(Drop)]
pub struct Doc {
    /// The command.
    pub command: CommandWord,
    /// What the claims speak of.
    pub subject: Subject,
    /// The claims, in their order.
    pub claims: Vec<Claim>,
}

/// The version of the texts of documents.
#[derive(Clone, Copy, Debug, PartialEq, Eq, Drop)]
pub enum Version {
    /// Without a parameter.
    One,
}
