//! Products of powers of whole numbers.

ghost use Rattle.std.specs.Prelude.{◌≡◌, ◌≢◌, ◌≤◌, ◌-◌, ◌*ℤ◌, pos};
ghost use lib.IntN.{pow};
ghost use Rattle.poly_fraction.specs.FractionOf.{fraction_of};
ghost use Rattle.proper_term.specs.Fields.{number_fraction_of};
ghost use Rattle.gosper_form.specs.NumberAnswer.{GivesNumber};

use poly_fraction::Frac;
use ring_laws::{Ring, RingFault, Whole};
use std::alloc::Global;

// The product times the base as often as the power says. As none is 0, no step is greater than the whole.
pub(crate) fn times_number_power(
    alloc: Global,
    product: Whole,
    base: Whole,
    power: u32,
) -> Result<Whole, RingFault>
    requires product_not_zero { product.value ≢ pos 0 }
    requires base_not_zero { base.value ≢ pos 0 }
    ensures gives { GivesNumber (λ number. number.value) (product.value *ℤ pow base.value power) result }
{
    let mut product = product;
    for _ in 0..power {
        product = product.mul(alloc, &base)?;
    }
    Ok(product)
}

// The numerator of the base to the power j times its denominator to the power order - j.
pub(crate) fn base_number(
    alloc: Global,
    base: &Frac<Whole>,
    order: u32,
    j: u32,
) -> Result<Whole, RingFault>
    requires near { j ≤ order }
    requires not_zero { (number_fraction_of (fraction_of base.now)).top ≢ pos 0 }
    ensures gives { GivesNumber (λ number. number.value) (pow (number_fraction_of (fraction_of base.now)).top j
        *ℤ pow (number_fraction_of (fraction_of base.now)).bottom (order - j)) result }
{
    let one = Whole::from(1);
    let number = times_number_power(alloc, one, *base.top(), j)?;
    times_number_power(alloc, number, *base.bottom(), order - j)
}
