//! Why a tree stands for no term, and why an engine gives no answer.

ghost use Rattle.std.specs.Prelude.{◌≡◌};
ghost use Rattle.steps.specs.TermFaults.{fault_of};
ghost use Rattle.steps.specs.StepFaults.{step_fault_of};

use crate::limits::LimitName;
use ring_laws::RingFault;
use thiserror::Error;

/// Why a tree stands for no term.
#[derive(Clone, Copy, Debug, PartialEq, Eq, Drop, Error)]
pub enum TermFault {
    /// The tree, or the part of it at this byte of the text, is no proper term: 1 an argument that is no linear form, 2 a constant
    /// negative argument, 3 a denominator that is 0 or no linear form, 4 a base that is no constant other than 0, 5 an exponent
    /// that is no linear form, 6 a sum with a part that is no polynomial, or something that must be a polynomial and isn't, 7 a
    /// zero, 8 a k where only n may stand.
    #[error("no proper term: reason {reason} at {at}")]
    Improper { reason: u8, at: u32 },
    /// A limit is passed, with what was counted; a count above 2^64 - 1 is carried as 2^64 - 1.
    #[error("a limit is passed at {counted}")]
    Limit { name: LimitName, counted: u64 },
    /// A step of the arithmetic of the node at this byte of the text is out of bounds.
    #[error("the arithmetic is out of bounds at {at}")]
    TooLarge { at: u32 },
    /// There is no memory for the answer or for a step to it. This may come in place of any other answer.
    #[error("no memory")]
    Memory,
}

/// A fault of the arithmetic of the node at a place.
pub fn fault_at(at: u32, fault: RingFault) -> TermFault
    ensures fault { result ≡ fault_of at fault }
{
    match fault {
        RingFault::TooLarge => TermFault::TooLarge { at },
        RingFault::Memory => TermFault::Memory,
    }
}

/// Why a step of an engine gives no answer.
#[derive(Clone, Copy, Debug, PartialEq, Eq, Drop, Error)]
pub enum StepFault {
    /// A limit is passed, with what was counted; a count above 2^64 - 1 is carried as 2^64 - 1.
    #[error("a limit is passed at {counted}")]
    Limit { name: LimitName, counted: u64 },
    /// An operation of the arithmetic is out of bounds.
    #[error("the arithmetic is out of bounds")]
    TooLarge,
    /// There is no memory for the answer or for a step to it. This may come in place of any other answer.
    #[error("no memory")]
    Memory,
}

/// A fault of the arithmetic of an engine.
pub fn step_fault(fault: RingFault) -> StepFault
    ensures fault { result ≡ step_fault_of fault }
{
    match fault {
        RingFault::TooLarge => StepFault::TooLarge,
        RingFault::Memory => StepFault::Memory,
    }
}
