//! Why an engine or the checker gives no answer.

use steps::LimitName;
use thiserror::Error;

/// Where the arithmetic went out of bounds.
#[derive(Clone, Copy, Debug, PartialEq, Eq, Drop)]
pub enum Place {
    /// At an order.
    Order(u32),
    /// At a case.
    Case(u32),
    /// At the sums over a box.
    BoxSums,
    /// At a claim of a document, counted from 0.
    Claim(u32),
}

/// Why an engine or the checker gives no answer.
#[derive(Clone, Copy, Debug, PartialEq, Eq, Drop, Error)]
pub enum EngineFault {
    /// A limit is passed, with what was counted.
    #[error("a limit is passed at {counted}")]
    Limit { name: LimitName, counted: u64 },
    /// A step of the arithmetic is out of bounds.
    #[error("the arithmetic is out of bounds")]
    TooLarge { place: Place },
    /// There is no memory for the answer or for a step to it. This may come in place of any other answer.
    #[error("no memory")]
    Memory,
}
