//! The trait of rings of polynomials in n, or in n and x.

ghost use Rattle.std.specs.Prelude.{◌≡◌, ℤ, IsTrue, ◌↔◌, MatchOption};
ghost use Rattle.ring_laws.specs.Meaning.{number};
ghost use Rattle.ring_laws.specs.Answer.{Gives, GivesInBounds};
ghost use Rattle.form_rings.specs.Forms.{Forms, MayHaveSlope, FormLaws};
ghost use Rattle.form_rings.specs.Signs.{sign_of};

use poly_generic::Zn;
use ring_laws::{Domain, Ring, RingFault, Sign, Whole};
use std::alloc::Global;

/// A domain of polynomials in n, or in n and x, over the whole numbers: the part of a linear form that is free of k belongs to it.
pub trait FormRing: Domain {
    // What the calls give, in terms of meanings.
    ghost forms: { Forms };

    /// Whether x may occur in a value. It takes no memory.
    fn holds_x() -> bool
        ensures holds { result ≡ forms.holds_x };

    /// `n_slope*n + x_slope*x + offset`. It never answers `TooLarge`.
    fn part(alloc: Global, n_slope: i64, x_slope: i64, offset: i64) -> Result<Self, RingFault>
        requires slope { MayHaveSlope forms x_slope }
        ensures gives { Gives Self.meaning (forms.part n_slope x_slope offset) result };

    /// A polynomial in n as a value of the ring. It never answers `TooLarge`.
    fn from_n(alloc: Global, f: &Zn) -> Result<Self, RingFault>
        ensures gives { Gives Self.meaning (forms.of_n (⟦<Zn as Ring>⟧.meaning f.now)) result };

    /// The value at n and then at x.
    ///
    /// `TooLarge` comes exactly where one of these two is out of bounds.
    fn value_at(&self, alloc: Global, n: Whole, x: Whole) -> Result<Whole, RingFault>
        ensures gives { GivesInBounds (λ w. number w.value) (forms.ValueInBounds n.value x.value (Self.meaning self.now))
            (number (forms.value n.value x.value (Self.meaning self.now))) result };

    /// The whole number that the value is, `None` exactly where it is none. It takes no memory.
    fn as_whole(&self) -> Option<Whole>
        ensures whole { MatchOption result ((w : ℤ) → ¬ (Self.meaning self.now ≡ Self.algebra.ops.whole w))
            (λ w. Self.meaning self.now ≡ Self.algebra.ops.whole w.value) };

    /// The sign of the coefficient of the greatest power of n and then of x, zero exactly for zero. It takes no memory.
    fn lead_sign(&self) -> Sign
        ensures sign { result ≡ sign_of (forms.lead (Self.meaning self.now)) };

    // The parts and values are as the calls say.
    ghost form_laws: { FormLaws Self.algebra forms };
}
