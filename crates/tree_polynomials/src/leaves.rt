//! The polynomials that the variables of a tree stand for.

ghost use Rattle.ring_laws.specs.Answer.{Gives};
ghost use Rattle.poly_laws.specs.TwoVariables.{poly_n, poly_k};

use poly_generic::{Zn, Znk};
use ring_laws::{Ring, RingFault, Whole};
use std::alloc::Global;

// The variable n.
pub(crate) fn variable_n(alloc: Global) -> Result<Znk, RingFault>
    ensures gives { Gives ⟦<Znk as Ring>⟧.meaning poly_n result }
{
    let mut numbers = Vec::new(alloc);
    numbers.push(Whole::zero(alloc)?)?;
    numbers.push(Whole::one(alloc)?)?;
    let mut coefficients = Vec::new(alloc);
    coefficients.push(Zn::from_coefficients(numbers)?)?;
    Znk::from_coefficients(coefficients)
}

// The variable k.
pub(crate) fn variable_k(alloc: Global) -> Result<Znk, RingFault>
    ensures gives { Gives ⟦<Znk as Ring>⟧.meaning poly_k result }
{
    let mut coefficients = Vec::new(alloc);
    coefficients.push(Zn::zero(alloc)?)?;
    coefficients.push(Zn::one(alloc)?)?;
    Znk::from_coefficients(coefficients)
}
