//! The operation of a node on the polynomials of its parts.

ghost use Rattle.std.specs.Prelude.{◌≡◌, map, Some, IfOk, IfErr};
ghost use Rattle.ring_laws.specs.Meaning.{Meaning};
ghost use Rattle.ring_laws.specs.Answer.{Gives, OnFault};
ghost use Rattle.poly_laws.specs.TwoVariables.{in_n_and_k};
ghost use Rattle.steps.specs.Answers.{Answers};
ghost use Rattle.steps.specs.Found.{made_of, found};
ghost use Rattle.steps.specs.Operations.{of_polynomial};
ghost use Rattle.steps.specs.Steps.{gives, makes};
ghost use Rattle.steps.specs.TermFaults.{term_cause};
ghost use Rattle.term_classes.specs.Finding.{raised_at, sizes_added, sizes_multiplied, sum_of_polynomials, product_of_polynomials};

use crate::products::{power_of, product_of};
use crate::sums::sum_of;
use poly_generic::Znk;
use ring_laws::{Ring, RingFault};
use std::alloc::Global;
use steps::{TermFault, fault_at};

// The polynomial that a call of the ring gives as that of the node at a place, and its fault as one of the node's arithmetic.
pub(crate) fn answer_at(
    at: u32,
    polynomial: Result<Znk, RingFault>,
) -> Result<Option<Znk>, TermFault>
    ensures leaf { (m : Meaning) → Gives ⟦<Znk as Ring>⟧.meaning m polynomial
        → Answers term_cause (found ⟦<Znk as Ring>⟧.meaning) (gives (Some m)) result }
    ensures made { (m counterpart : Meaning) → IfOk polynomial (λ p. ⟦<Znk as Ring>⟧.meaning p ≡ m)
        → IfErr polynomial (OnFault (¬ in_n_and_k.Fits counterpart))
        → Answers term_cause (found ⟦<Znk as Ring>⟧.meaning) (makes at (of_polynomial counterpart) (Some m)) result }
{
    match polynomial {
        Ok(polynomial) => Ok(Some(polynomial)),
        Err(fault) => Err(fault_at(at, fault)),
    }
}

// The sum of the summands, where there are any.
pub(crate) fn added(
    alloc: Global,
    at: u32,
    summands: Option<Vec<Znk>>,
) -> Result<Option<Znk>, TermFault>
    ensures answers { Answers term_cause (found ⟦<Znk as Ring>⟧.meaning) (made_of at (λ ps. of_polynomial (sizes_added ps)) sum_of_polynomials
        (found (λ list. map ⟦<Znk as Ring>⟧.meaning list.items) summands)) result }
{
    match summands {
        Some(summands) => answer_at(at, sum_of(alloc, &summands)),
        None => Ok(None),
    }
}

// The product of the factors, where there are any.
pub(crate) fn multiplied(
    alloc: Global,
    at: u32,
    factors: Option<Vec<Znk>>,
) -> Result<Option<Znk>, TermFault>
    ensures answers { Answers term_cause (found ⟦<Znk as Ring>⟧.meaning)
        (made_of at (λ ps. of_polynomial (sizes_multiplied ps)) product_of_polynomials
        (found (λ list. map ⟦<Znk as Ring>⟧.meaning list.items) factors)) result }
{
    match factors {
        Some(factors) => answer_at(at, product_of(alloc, &factors)),
        None => Ok(None),
    }
}

// The base to a power, where there is one.
pub(crate) fn raised(
    alloc: Global,
    at: u32,
    base: Option<Znk>,
    power: u32,
) -> Result<Option<Znk>, TermFault>
    ensures answers { Answers term_cause (found ⟦<Znk as Ring>⟧.meaning) (raised_at at power (found ⟦<Znk as Ring>⟧.meaning base)) result }
{
    match base {
        Some(base) => answer_at(at, power_of(alloc, base, power)),
        None => Ok(None),
    }
}
