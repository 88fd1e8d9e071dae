//! Why a call of a ring gives no value.

ghost use Rattle.std.specs.Prelude.{◌≡◌};
ghost use Rattle.ring_laws.specs.declared.faults.RingFault.TheVariants.{Memory};

use std::alloc::AllocFailed;

/// Why a call of a ring gives no value.
#[derive(Clone, Copy, Debug, PartialEq, Eq, Drop)]
pub enum RingFault {
    /// The operation is out of bounds: on magnitudes a number reaches 2^127, or a list has more than 256 items.
    TooLarge,
    /// There is no memory for the result or for a step to it. This may come in place of any other answer.
    Memory,
}

impl<T: Drop> From<AllocFailed<T>> for RingFault {
    ghost from_gives = { λ _ fault. fault ≡ Memory };

    fn from(_failure: AllocFailed<T>) -> RingFault {
        RingFault::Memory
    }
}
