//! What a check of a document finds.

/// The test that a claim fails, in the order in which the tests come.
#[derive(Clone, Copy, Debug, PartialEq, Eq, Drop)]
pub enum Reason {
    /// The claim has another number of multipliers, or another order, than its kind has.
    Shape,
    /// The matches, q or r are not those of the term.
    Normal,
    /// The carrier, the ratio or the range is not that of the term.
    Carrier,
    /// Each multiplier is 0.
    Zero,
    /// The poles have a form more often than the matches allow.
    Poles,
    /// The difference of the certificate is not the left side.
    Equation,
    /// The case of a solution is none.
    Case,
    /// The earlier claim that is named is none with this quotient.
    Same,
    /// The sums over the box are others.
    Sums,
}

/// What a check of a document found.
#[derive(Debug, PartialEq, Eq, Drop)]
pub enum Verdict {
    /// Each claim passes its tests, but for those that are listed, which no test decides.
    Accepted { unchecked: Vec<u32> },
    /// The first claim that fails, counted from 0, and the first test that it fails.
    Rejected { claim: u32, reason: Reason },
}
