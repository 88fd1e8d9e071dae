//! A value of a ring times a power of another.

ghost use Rattle.std.specs.Prelude.{◌≢◌};
ghost use Rattle.poly_laws.specs.Powers.{power_in, nonzero_magnitude};
ghost use Rattle.poly_generic.specs.PowerAnswer.{GivesTimes};

use ring_laws::{Ring, RingFault};
use std::alloc::Global;

/// The product times the base as often as the power says, by squares of the base.
///
/// `TooLarge` comes only where no bound of the product times the power of the base's magnitude fits, with 1 for a base that is 0.
pub fn times_power<R: Ring>(alloc: Global, product: R, base: R, power: u32) -> Result<R, RingFault>
    requires distinct { R.algebra.ops.unit ≢ R.algebra.ops.nought }
    ensures gives { GivesTimes R.meaning R.algebra (R.meaning product) (power_in R.algebra.ops (R.meaning base) power)
        (power_in R.algebra.ops (nonzero_magnitude R.algebra.ops (R.meaning base)) power) result }
{
    let mut product = product;
    let mut square = base;
    let mut left = power;
    while left > 0 {
        if left % 2 == 1 {
            product = product.mul(alloc, &square)?;
        }
        left /= 2;
        if left > 0 {
            square = square.mul(alloc, &square)?;
        }
    }
    Ok(product)
}
