//! Why no value was read.

ghost use Rattle.std.specs.Prelude.{◌≡◌};
ghost use Rattle.spelled.specs.declared.faults.LineFault.TheVariants.{Memory};

use std::alloc::{AllocError, AllocFailed};

/// Why no value was read from lines.
#[derive(Clone, Copy, Debug, PartialEq, Eq, Drop)]
pub enum LineFault {
    /// The next line is none that the format has there. What has been read are the lines in front of it.
    Line,
    /// There is no memory. This may come in place of any other answer.
    Memory,
}

impl From<AllocError> for LineFault {
    ghost from_gives = { λ _ e. e ≡ Memory };

    fn from(_error: AllocError) -> LineFault {
        LineFault::Memory
    }
}

impl<T: Drop> From<AllocFailed<T>> for LineFault {
    ghost from_gives = { λ _ e. e ≡ Memory };

    fn from(_failed: AllocFailed<T>) -> LineFault {
        LineFault::Memory
    }
}

/// Why no item was read from a whole text.
#[derive(Clone, Copy, Debug, PartialEq, Eq, Drop)]
pub enum TextFault {
    /// The first line, counted from 1, that no item has there after the same lines before it.
    Line { at: u32 },
    /// There is no memory. This may come in place of any other answer.
    Memory,
}
