//! The trait of domains whose rows can be reduced.

ghost use Rattle.std.specs.Prelude.{◌≡◌, ◌↔◌, map, IsTrue, IsFalse};
ghost use Rattle.kernel_laws.specs.Reduction.{Reduction, IsCoreBy, ReductionLaws};
ghost use Rattle.reducing.specs.RowAnswer.{GivesRow, GivesPart, GivesParts};

use ring_laws::{Domain, RingFault};
use std::alloc::Global;

/// A domain whose rows can be divided by common factors of their entries, so that the numbers of an elimination stay small.
///
/// What the calls give is fixed by the meanings of what they are given.
pub trait Reducing: Domain {
    // What the calls give, in terms of meanings, and when each of their steps is in bounds.
    ghost reduction: { Reduction };

    /// Of two entries that could be a pivot, elimination takes the one of less weight. It takes no memory.
    fn weight(&self) -> u32
        ensures weight { result ≡ reduction.weight (Self.meaning self.now) };

    /// Whether the value is the one of the ring. It takes no memory.
    fn is_one(&self) -> bool
        ensures test { IsTrue result ↔ (Self.meaning self.now ≡ Self.algebra.ops.unit) };

    /// The row, reduced: of the same length, and something that isn't zero, times the new row, is the old row.
    ///
    /// `TooLarge` comes only where a step of the reduction is out of bounds.
    fn reduce_row(alloc: Global, row: Vec<Self>) -> Result<Vec<Self>, RingFault>
        ensures reduces { GivesRow Self.meaning (reduction.Reduced (map Self.meaning row.items))
            (reduction.ReductionInBounds (map Self.meaning row.items)) result };

    /// A plain part and a core, whose product is the value, which isn't zero.
    ///
    /// `TooLarge` comes only where a step of the splitting is out of bounds.
    fn split(&self, alloc: Global) -> Result<(Self, Self), RingFault>
        requires not_zero { IsFalse (Self.algebra.ops.is_nought (Self.meaning self.now)) }
        ensures splits { GivesParts Self.meaning (reduction.Split (Self.meaning self.now)) (reduction.SplitInBounds (Self.meaning self.now))
            result };

    /// The core alone of a value that isn't zero, where its plain part isn't wanted.
    ///
    /// `TooLarge` comes only where a step of finding the core is out of bounds.
    fn core(&self, alloc: Global) -> Result<Self, RingFault>
        requires not_zero { IsFalse (Self.algebra.ops.is_nought (Self.meaning self.now)) }
        ensures core { GivesPart Self.meaning (IsCoreBy reduction (Self.meaning self.now)) (reduction.CoreInBounds (Self.meaning self.now)) result };

    /// The plain part of a value that isn't zero, whose core is known.
    ///
    /// `TooLarge` comes only where a step of the splitting is out of bounds.
    fn plain_part(&self, alloc: Global, core: &Self) -> Result<Self, RingFault>
        requires not_zero { IsFalse (Self.algebra.ops.is_nought (Self.meaning self.now)) }
        requires core { IsCoreBy reduction (Self.meaning self.now) (Self.meaning core.now) }
        ensures plain { GivesPart Self.meaning (λ plain. reduction.Split (Self.meaning self.now) plain (Self.meaning core.now))
            (reduction.SplitInBounds (Self.meaning self.now)) result };

    // The reduced row and the parts are as the calls say, and each is the only one.
    ghost reduction_laws: { ReductionLaws Self.algebra reduction };
}
