//! A number times a power of another.

ghost use Rattle.std.specs.Prelude.{◌*◌, ◌*ℤ◌};
ghost use Rattle.std.proofs.Math.IntN.{pow};
ghost use Rattle.steps.specs.Answers.{Answers};
ghost use Rattle.steps.specs.Operations.{of_number};
ghost use Rattle.steps.specs.Steps.{makes};
ghost use Rattle.steps.specs.TermFaults.{term_cause};
ghost use Rattle.hypergeometric.specs.Divisors.{nonzero_size};
ghost use Rattle.tree_polynomials.specs.Views.{whole_value};

use poly_generic::times_power;
use ring_laws::Whole;
use std::alloc::Global;
use steps::{TermFault, fault_at};

// The product times the base as often as the power says, as an operation of the node at the place.
pub(crate) fn number_times_power(
    alloc: Global,
    at: u32,
    product: Whole,
    base: Whole,
    power: u32,
) -> Result<Whole, TermFault>
    ensures answers { Answers term_cause whole_value (makes at (of_number (nonzero_size product.value * nonzero_size (pow base.value power)))
        (product.value *ℤ pow base.value power)) result }
{
    match times_power(alloc, product, base, power) {
        Ok(product) => Ok(product),
        Err(fault) => Err(fault_at(at, fault)),
    }
}
