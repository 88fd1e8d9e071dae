//! Constant exponents within their limit.

ghost use Rattle.std.specs.Prelude.{ℕ, Option};
ghost use Rattle.ring_laws.specs.Meaning.{Meaning};
ghost use Rattle.steps.specs.TermFaults.{TermSteps};
ghost use Rattle.tree_polynomials.specs.Exponents.{with_exponent, ToExponent};

use crate::limits::number_within;
use ring_laws::Whole;
use steps::{LimitName, TermFault};

// The constant as an exponent from 0 to 12, none where it is negative, or the limit of its magnitude.
pub(crate) fn natural_exponent(constant: Whole) -> Result<Option<u32>, TermFault>
    ensures exponent { (f : ℕ → TermSteps (Option Meaning)) → ToExponent f (with_exponent f constant.value) result }
{
    let exponent = number_within(constant, LimitName::Exponent)?;
    if exponent < 0 {
        return Ok(None);
    }
    Ok(Some(exponent as u32))
}
