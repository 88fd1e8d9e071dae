//! Sums of polynomials.

ghost use Rattle.std.specs.Prelude.{◌≡◌, Bool, map, IfOk, IfErr};
ghost use Rattle.ring_laws.specs.Answer.{Gives, OnFault};
ghost use Rattle.poly_laws.specs.TwoVariables.{in_n_and_k};
ghost use Rattle.term_classes.specs.Finding.{sum_of_polynomials, sizes_added, signed_polynomial};

use poly_generic::Znk;
use ring_laws::{Ring, RingFault};
use std::alloc::Global;

// The polynomial, or its negative where it is turned.
pub(crate) fn signed(alloc: Global, turned: bool, polynomial: Znk) -> Result<Znk, RingFault>
    ensures gives { Gives ⟦<Znk as Ring>⟧.meaning (signed_polynomial turned (⟦<Znk as Ring>⟧.meaning polynomial)) result }
{
    if turned {
        return polynomial.neg(alloc);
    }
    Ok(polynomial)
}

// The sum of all, from the last on. `TooLarge` comes only where the sum of all magnitudes doesn't fit.
pub(crate) fn sum_of(alloc: Global, polynomials: &[Znk]) -> Result<Znk, RingFault>
    ensures sum { IfOk result (λ sum. ⟦<Znk as Ring>⟧.meaning sum ≡ sum_of_polynomials (map ⟦<Znk as Ring>⟧.meaning polynomials.now)) }
    ensures too_large { IfErr result (OnFault (¬ in_n_and_k.Fits (sizes_added (map ⟦<Znk as Ring>⟧.meaning polynomials.now)))) }
{
    let mut sum = Znk::zero(alloc)?;
    let mut index = polynomials.len();
    while index > 0 {
        index -= 1;
        sum = polynomials[index].add(alloc, &sum)?;
    }
    Ok(sum)
}
