//! The constant exponents of a power, and the powers of a constant.

ghost use Rattle.std.specs.Prelude.{◌≢◌, ◌≤◌, pos, unsigned_abs, IfOk, IfSome};
ghost use Rattle.proper_term.specs.Fields.{number_fraction};
ghost use Rattle.term_text.specs.View.{tree_of};
ghost use Rattle.term_classes.specs.Finding.{power_made};
ghost use Rattle.steps.specs.Answers.{Answers};
ghost use Rattle.steps.specs.Found.{found};
ghost use Rattle.steps.specs.TermFaults.{term_cause};
ghost use Rattle.tree_polynomials.specs.ConstantCases.{limited_constant, find_exponent};
ghost use Rattle.tree_polynomials.specs.Views.{whole_value, fraction_value};

use crate::fractions::{over, times_natural_power};
use crate::limits::number_within;
use crate::polynomials::{constant_of, polynomial_of_tree};
use poly_fraction::Frac;
use ring_laws::Whole;
use std::alloc::Global;
use steps::{LimitName, TermFault};
use term_text::Ast;

// The constant exponent, within its limit.
fn limited(constant: Whole) -> Result<Option<Whole>, TermFault>
    ensures answers { Answers term_cause (found whole_value) (limited_constant constant.value) result }
    ensures small { IfOk result (λ found. IfSome found (λ c. unsigned_abs c.value ≤ 12)) }
{
    number_within(constant, LimitName::Exponent)?;
    Ok(Some(constant))
}

// The constant that an exponent is, within its limit.
pub(crate) fn exponent_of(alloc: Global, exponent: &Ast) -> Result<Option<Whole>, TermFault>
    ensures answers { Answers term_cause (found whole_value) (find_exponent (tree_of exponent.now)) result }
    ensures small { IfOk result (λ found. IfSome found (λ c. unsigned_abs c.value ≤ 12)) }
{
    let Some(polynomial) = polynomial_of_tree(alloc, exponent)? else {
        return Ok(None);
    };
    match constant_of(&polynomial) {
        Some(constant) => limited(constant),
        None => Ok(None),
    }
}

// The constant to a natural power, in lowest terms.
fn natural_power(
    alloc: Global,
    at: u32,
    top: Whole,
    bottom: Whole,
    power: u32,
) -> Result<Option<Frac<Whole>>, TermFault>
    requires not_zero { bottom.value ≢ pos 0 }
    ensures answers { Answers term_cause (found fraction_value) (power_made at (pos power) (number_fraction top.value bottom.value)) result }
{
    let one = over(Whole::ONE, Whole::ONE);
    let power = times_natural_power(alloc, at, &one, top, bottom, power)?;
    Ok(Some(power))
}

// The constant to a constant power, in lowest terms, where 0 isn't raised to a negative one.
pub(crate) fn constant_power(
    alloc: Global,
    at: u32,
    base: &Frac<Whole>,
    power: Whole,
) -> Result<Option<Frac<Whole>>, TermFault>
    requires small { unsigned_abs power.value ≤ 12 }
    ensures answers { Answers term_cause (found fraction_value) (power_made at power.value (fraction_value base.now)) result }
{
    let times = power.value().unsigned_abs() as u32;
    let top = *base.top();
    let bottom = *base.bottom();
    if power.value() >= 0 {
        return natural_power(alloc, at, top, bottom, times);
    }
    if top.value() == 0 {
        return Ok(None);
    }
    natural_power(alloc, at, bottom, top, times)
}
