//! A common factor in any domain: what generic code takes from the laws.

ghost use Rattle.std.specs.Prelude.{IsFalse};
ghost use Rattle.poly_generic.specs.ListAnswer.{GivesValue};
ghost use Rattle.poly_divide.specs.Factors.{FactorInBounds};

use ring_laws::{Domain, Ring, RingFault};
use std::alloc::Global;

/// The quotient of `common*left + common*right` by `common`, which is `left + right`.
///
/// That there is a quotient follows from the laws of a ring, and that it is this sum from those of a domain. `TooLarge` comes only
/// where one of the products, their sum or a step of the division is out of bounds.
pub fn without_common_factor<D: Domain>(
    alloc: Global,
    common: &D,
    left: &D,
    right: &D,
) -> Result<D, RingFault>
    requires not_zero { IsFalse (D.algebra.ops.is_nought (D.meaning common.now)) }
    ensures gives { GivesValue D.meaning (FactorInBounds D.algebra D.division_in_bounds (D.meaning common.now) (D.meaning left.now) (D.meaning right.now))
        (D.algebra.ops.sum (D.meaning left.now) (D.meaning right.now)) result }
{
    let first = common.mul(alloc, left)?;
    let second = common.mul(alloc, right)?;
    let sum = first.add(alloc, &second)?;
    let quotient = sum.divide_exact(alloc, common)?;
    Ok(quotient.unwrap())
}
