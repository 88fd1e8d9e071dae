//! The trait of rings.

ghost use Rattle.std.specs.Prelude.{◌≡◌, ◌↔◌, IsTrue};
ghost use Rattle.ring_laws.specs.Meaning.{Meaning};
ghost use Rattle.ring_laws.specs.Algebra.{Algebra, Laws, SumInBounds, ProductInBounds};
ghost use Rattle.ring_laws.specs.Answer.{Gives, GivesInBounds};

use crate::faults::RingFault;
use crate::wholes::Whole;
use std::alloc::Global;

/// A commutative ring whose values mean numbers of any size, or nested lists of such numbers.
///
/// Each call gives the value of the meaning that it names. `add`, `sub` and `mul` answer `TooLarge` exactly where they are
/// out of bounds, and no other call answers it. Every call that returns a `Result` may answer `Memory`.
pub trait Ring: Sized + Drop {
    // What a value means.
    ghost meaning: { Self → Meaning };

    // The operations on meanings, and the test of those that belong to the ring.
    ghost algebra: { Algebra };

    /// The zero of the ring.
    fn zero(alloc: Global) -> Result<Self, RingFault>
        ensures gives { Gives meaning algebra.ops.nought result };

    /// The one of the ring.
    fn one(alloc: Global) -> Result<Self, RingFault>
        ensures gives { Gives meaning algebra.ops.unit result };

    /// The whole number as a value of the ring.
    fn whole(alloc: Global, value: Whole) -> Result<Self, RingFault>
        ensures gives { Gives meaning (algebra.ops.whole value.value) result };

    /// A second value of the same meaning.
    fn duplicate(&self, alloc: Global) -> Result<Self, RingFault>
        ensures gives { Gives meaning (meaning self.now) result };

    /// The negative.
    fn neg(&self, alloc: Global) -> Result<Self, RingFault>
        ensures gives { Gives meaning (algebra.ops.neg (meaning self.now)) result };

    /// Each number replaced by its absolute value.
    fn magnitude(&self, alloc: Global) -> Result<Self, RingFault>
        ensures gives { Gives meaning (algebra.ops.magnitude (meaning self.now)) result };

    /// The sum, `TooLarge` exactly where the sum of the magnitudes doesn't fit.
    fn add(&self, alloc: Global, other: &Self) -> Result<Self, RingFault>
        ensures gives { GivesInBounds meaning (SumInBounds algebra (meaning self.now) (meaning other.now))
            (algebra.ops.sum (meaning self.now) (meaning other.now)) result };

    /// The difference, `TooLarge` exactly where the sum of the magnitudes doesn't fit.
    fn sub(&self, alloc: Global, other: &Self) -> Result<Self, RingFault>
        ensures gives { GivesInBounds meaning (SumInBounds algebra (meaning self.now) (meaning other.now))
            (algebra.ops.sum (meaning self.now) (algebra.ops.neg (meaning other.now))) result };

    /// The product, `TooLarge` exactly where the product of the magnitudes doesn't fit.
    fn mul(&self, alloc: Global, other: &Self) -> Result<Self, RingFault>
        ensures gives { GivesInBounds meaning (ProductInBounds algebra (meaning self.now) (meaning other.now))
            (algebra.ops.product (meaning self.now) (meaning other.now)) result };

    /// Whether the value is zero.
    fn is_zero(&self) -> bool
        ensures test { IsTrue result ↔ IsTrue (algebra.ops.is_nought (meaning self.now)) };

    /// Whether both values have the same meaning.
    fn same(&self, other: &Self) -> bool
        ensures test { IsTrue result ↔ (meaning self.now ≡ meaning other.now) };

    // The laws of a commutative ring and those of magnitudes, for all meanings that belong to the ring.
    ghost laws: { Laws algebra };

    // The meaning of every value belongs to the ring.
    ghost passes: { (x : Self) → IsTrue (algebra.passes (meaning x)) };

    // The meaning of every value fits.
    ghost fits: { (x : Self) → algebra.ops.Fits (meaning x) };
}
