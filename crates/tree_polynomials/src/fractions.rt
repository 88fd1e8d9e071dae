//! Fractions times powers of others, in lowest terms.

ghost use Rattle.std.specs.Prelude.{◌≡◌, ◌≢◌, ◌≤◌, pos, unsigned_abs};
ghost use Rattle.proper_term.specs.Fields.{number_fraction};
ghost use Rattle.hypergeometric.specs.Divisors.{lowest_terms};
ghost use Rattle.term_classes.specs.Walk.{times_power};
ghost use Rattle.steps.specs.Answers.{Answers};
ghost use Rattle.steps.specs.TermFaults.{term_cause};
ghost use Rattle.tree_polynomials.specs.Views.{fraction_value};

use crate::powers::number_times_power;
use poly_fraction::{Frac, lowest};
use ring_laws::Whole;
use std::alloc::Global;
use steps::TermFault;

// A numerator over a denominator.
pub(crate) fn over(top: Whole, bottom: Whole) -> Frac<Whole>
    requires not_zero { bottom.value ≢ pos 0 }
    ensures fraction { fraction_value result ≡ number_fraction top.value bottom.value }
{
    Frac::new(top, bottom).unwrap()
}

// The fraction in lowest terms, of which there is one.
pub(crate) fn lowered(fraction: &Frac<Whole>) -> Frac<Whole>
    ensures lowest { fraction_value result ≡ lowest_terms (fraction_value fraction.now) }
{
    lowest(fraction)
}

// The fraction times a numerator over a denominator to a power, in lowest terms.
pub(crate) fn times_natural_power(
    alloc: Global,
    at: u32,
    fraction: &Frac<Whole>,
    top: Whole,
    bottom: Whole,
    power: u32,
) -> Result<Frac<Whole>, TermFault>
    requires not_zero { bottom.value ≢ pos 0 }
    ensures answers { Answers term_cause fraction_value (times_power at (fraction_value fraction.now)
        (number_fraction top.value bottom.value) (pos power)) result }
{
    let top = number_times_power(alloc, at, *fraction.top(), top, power)?;
    let bottom = number_times_power(alloc, at, *fraction.bottom(), bottom, power)?;
    Ok(lowered(&over(top, bottom)))
}

/// The fraction times a base other than 0 to a whole power, in lowest terms, as an operation of the node at the place.
pub fn times_power_of(
    alloc: Global,
    at: u32,
    fraction: &Frac<Whole>,
    base: &Frac<Whole>,
    power: i64,
) -> Result<Frac<Whole>, TermFault>
    requires not_zero { (fraction_value base.now).top ≢ pos 0 }
    requires in_range { unsigned_abs power ≤ 768 }
    ensures answers { Answers term_cause fraction_value (times_power at (fraction_value fraction.now) (fraction_value base.now) power) result }
{
    let times = power.unsigned_abs() as u32;
    if power < 0 {
        times_natural_power(alloc, at, fraction, *base.bottom(), *base.top(), times)
    } else {
        times_natural_power(alloc, at, fraction, *base.top(), *base.bottom(), times)
    }
}
