//! Why a document isn't read.

use thiserror::Error;

/// Why no document was read from a text.
#[derive(Clone, Copy, Debug, PartialEq, Eq, Drop, Error)]
pub enum DocFault {
    /// The first line, counted from 1, that no document has there after the lines before it; where the text ends too early it is
    /// the line after the last. A number above 2^32 - 1 is carried as 2^32 - 1.
    #[error("line {at} is no line of a document")]
    Line { at: u32 },
    /// There is no memory for the document or for a step to it. This may come in place of any other answer.
    #[error("no memory")]
    Memory,
}
