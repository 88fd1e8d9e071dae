//! Why no document was read.

use thiserror::Error;

/// Why no document was read from a text.
#[derive(Clone, Copy, Debug, PartialEq, Eq, Drop, Error)]
pub enum DocFault {
    /// The first line, counted from 1, that no document has there after the same lines before it; at the end of the text the line after the
    /// last. A number above 2^32 - 1 is carried as 2^32 - 1.
    #[error("line {at} is none of a document")]
    Line { at: u32 },
    /// There is no memory. This may come in place of any other answer.
    #[error("no memory")]
    Memory,
}
