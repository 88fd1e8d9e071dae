//! The running fraction of a product: each product is brought to lowest terms before the next factor comes.

ghost use Rattle.std.specs.Prelude.{◌≡◌, ◌≢◌, ◌<◌, ◌^◌, ◌∷◌, [], pos, unsigned_abs, replicate, MatchResult};
ghost use Rattle.std.proofs.Math.IntN.{pow};
ghost use Rattle.ring_laws.specs.Answer.{OnFault};
ghost use Rattle.std.specs.List.{AllByRecursion};
ghost use Rattle.hypergeometric.specs.Fraction.{natural_power};
ghost use Rattle.hypergeometric.specs.LinearForm.{form_value};
ghost use Rattle.hypergeometric.specs.TermFacts.{IsNumber};
ghost use Rattle.lin_form.specs.ListOf.{list_of};
ghost use Rattle.poly_fraction.specs.FractionOf.{fraction_of};
ghost use Rattle.proper_term.specs.Fields.{number_fraction_of, number_fraction};
ghost use Rattle.proper_term.specs.Points.{point_of};
ghost use Rattle.proper_term.specs.Runs.{GivesRun, IsInLowestTerms};
ghost use Rattle.proper_term.specs.ValueBounds.{base_power, divisors};

use crate::facts::magnitude;
use crate::point::Point;
use lin_form::FactorList;
use poly_fraction::{Frac, lowest};
use ring_laws::{Ring, RingFault, Whole};
use std::alloc::Global;

// The running fraction times a numerator over a denominator.
pub(crate) fn times(
    alloc: Global,
    running: &Frac<Whole>,
    top: Whole,
    bottom: Whole,
) -> Result<Frac<Whole>, RingFault>
    requires not_zero { bottom.value ≢ pos 0 }
    ensures run { GivesRun fraction_of (number_fraction_of (fraction_of running.now)) (number_fraction top.value bottom.value ∷ []) result }
{
    let factor = Frac::new(top, bottom).unwrap();
    let product = running.mul(alloc, &factor)?;
    Ok(lowest(&product))
}

// The number as often as a factor as the exponent says. A number other than 1 and -1 passes the bound within 127 products.
fn repeated(alloc: Global, base: Whole, exponent: u64) -> Result<Whole, RingFault>
    requires not_zero { base.value ≢ pos 0 }
    ensures power { MatchResult result (λ power. power.value ≡ pow base.value exponent) (λ fault. OnFault (¬ IsNumber
        (pow base.value exponent)) fault) }
{
    let mut left = exponent;
    let mut product = Whole::one(alloc)?;
    while left > 0 {
        product = product.mul(alloc, &base)?;
        left -= 1;
    }
    Ok(product)
}

// The same for any number but 0: a power of 1 or -1 depends on the exponent's last digit alone.
fn power(alloc: Global, base: Whole, exponent: u64) -> Result<Whole, RingFault>
    requires not_zero { base.value ≢ pos 0 }
    ensures power { MatchResult result (λ power. power.value ≡ pow base.value exponent) (λ fault. OnFault (¬ IsNumber
        (pow base.value exponent)) fault) }
{
    if magnitude(base) == 1 {
        repeated(alloc, base, exponent % 2)
    } else {
        repeated(alloc, base, exponent)
    }
}

// The running fraction times a power of a numerator over a denominator. None of the three is 0.
fn times_natural_power(
    alloc: Global,
    running: &Frac<Whole>,
    top: Whole,
    bottom: Whole,
    exponent: u64,
) -> Result<Frac<Whole>, RingFault>
    requires running { (number_fraction_of (fraction_of running.now)).top ≢ pos 0 }
    requires top { top.value ≢ pos 0 }
    requires bottom { bottom.value ≢ pos 0 }
    ensures run { GivesRun fraction_of (number_fraction_of (fraction_of running.now)) (natural_power
        (number_fraction top.value bottom.value) exponent ∷ []) result }
{
    let top = power(alloc, top, exponent)?;
    let bottom = power(alloc, bottom, exponent)?;
    times(alloc, running, top, bottom)
}

// The running fraction times a power of a base, neither of them 0.
pub(crate) fn times_power(
    alloc: Global,
    running: &Frac<Whole>,
    base: &Frac<Whole>,
    exponent: i64,
) -> Result<Frac<Whole>, RingFault>
    requires running { (number_fraction_of (fraction_of running.now)).top ≢ pos 0 }
    requires base { (number_fraction_of (fraction_of base.now)).top ≢ pos 0 }
    ensures run { GivesRun fraction_of (number_fraction_of (fraction_of running.now)) (base_power (number_fraction_of
        (fraction_of base.now)) exponent ∷ []) result }
{
    let times = exponent.unsigned_abs();
    if exponent < 0 {
        times_natural_power(alloc, running, *base.bottom(), *base.top(), times)
    } else {
        times_natural_power(alloc, running, *base.top(), *base.bottom(), times)
    }
}

// The running fraction over a number, as often as the count says.
fn over_repeated(
    alloc: Global,
    running: Frac<Whole>,
    number: Whole,
    count: u32,
) -> Result<Frac<Whole>, RingFault>
    requires number { number.value ≢ pos 0 }
    ensures run { GivesRun fraction_of (number_fraction_of (fraction_of running)) (replicate count (number_fraction (pos 1) number.value)) result }
{
    let one = Whole::one(alloc)?;
    let mut running = running;
    let mut left = count;
    while left > 0 {
        running = times(alloc, &running, one, number)?;
        left -= 1;
    }
    Ok(running)
}

// The same for any number but 0: over 1 or -1 an even count changes nothing.
fn over_number(
    alloc: Global,
    running: Frac<Whole>,
    number: Whole,
    count: u32,
) -> Result<Frac<Whole>, RingFault>
    requires number { number.value ≢ pos 0 }
    requires lowest { IsInLowestTerms (number_fraction_of (fraction_of running)) }
    ensures run { GivesRun fraction_of (number_fraction_of (fraction_of running)) (replicate count (number_fraction (pos 1) number.value)) result }
{
    if magnitude(number) == 1 {
        over_repeated(alloc, running, number, count % 2)
    } else {
        over_repeated(alloc, running, number, count)
    }
}

// The running fraction over the values of all forms, each as often as its power says.
pub(crate) fn over_forms(
    alloc: Global,
    running: Frac<Whole>,
    over: &FactorList,
    point: Point,
) -> Result<Frac<Whole>, RingFault>
    requires none_zero { AllByRecursion (λ x. form_value x.form (point_of point) ≢ pos 0) (list_of over.now).factors }
    requires lowest { IsInLowestTerms (number_fraction_of (fraction_of running)) }
    ensures run { GivesRun fraction_of (number_fraction_of (fraction_of running)) (divisors (list_of over.now).factors (point_of point)) result }
{
    let mut running = running;
    for (form, power) in over.iter() {
        let number = point.whole_value_of(&form);
        running = over_number(alloc, running, number, power)?;
    }
    Ok(running)
}
