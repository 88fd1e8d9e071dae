//! The trait of rings without divisors of zero, and their exact division.

ghost use Rattle.std.specs.Prelude.{ℤ, IsFalse, MatchOption};
ghost use Rattle.ring_laws.specs.Meaning.{Meaning};
ghost use Rattle.ring_laws.specs.Division.{DomainLaws, Divides, IsTimes};

use crate::faults::RingFault;
use crate::rings::Ring;
use crate::wholes::Whole;
use std::alloc::Global;

/// A ring in which a product is zero only where a factor is, with exact division.
pub trait Domain: Ring {
    // Each step of the division of the first by the second is in bounds.
    ghost division_in_bounds: { Meaning → Meaning → Type 0 };

    /// The quotient by a value that isn't zero, or `None` exactly where no meaning of the ring, of any size, is a quotient.
    ///
    /// `TooLarge` comes only where a step of the division is out of bounds.
    fn divide_exact(&self, alloc: Global, by: &Self) -> Result<Option<Self>, RingFault>
        requires not_zero { IsFalse (Self.algebra.ops.is_nought (Self.meaning by.now)) }
        ensures divides { Divides Self.meaning Self.algebra (division_in_bounds (Self.meaning self.now) (Self.meaning by.now)) (Self.meaning self.now)
            (Self.meaning by.now) result };

    /// The whole number c with `c*by = self`, or `None` exactly where no whole number of any size is one. It takes no memory.
    fn whole_quotient(&self, by: &Self) -> Option<Whole>
        ensures quotient { MatchOption result ((c : ℤ) → ¬ (IsTimes Self.algebra c (Self.meaning by.now) (Self.meaning self.now)))
            (λ c. IsTimes Self.algebra c.value (Self.meaning by.now) (Self.meaning self.now)) };

    // No divisors of zero, and the whole number w is zero in the ring only where w is 0.
    ghost domain_laws: { DomainLaws Self.algebra };
}
