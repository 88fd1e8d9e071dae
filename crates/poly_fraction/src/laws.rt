//! That being the same is an equivalence. The function here does nothing: its contract is the law.

ghost use Rattle.poly_fraction.specs.Fractions.{RingFraction, AreSame, IsFraction};

use ring_laws::Domain;

/// Each fraction is the same as itself, two are the same either way round, and what is the same as a third with a denominator
/// that isn't zero is the same.
pub fn sameness_is_an_equivalence<R: Domain>()
    ensures reflexive { (f : RingFraction) → IsFraction R.algebra f → AreSame R.algebra.ops f f }
    ensures symmetric { (f g : RingFraction) → AreSame R.algebra.ops f g → AreSame R.algebra.ops g f }
    ensures transitive { (f g h : RingFraction) → IsFraction R.algebra f → IsFraction R.algebra g → IsFraction R.algebra h
        → AreSame R.algebra.ops f g → AreSame R.algebra.ops g h → AreSame R.algebra.ops f h }
{}
