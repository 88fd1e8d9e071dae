//! Fractions of whole numbers that are gathered, and what they are multiplied by.

ghost use Rattle.std.specs.Prelude.{◌≡◌, ◌≢◌, ◌≤◌, pos, ◌*ℤ◌, unsigned_abs};
ghost use Rattle.hypergeometric.specs.Fraction.{of_whole, fraction_negative};
ghost use Rattle.lin_form.specs.Forms.{form_of};
ghost use Rattle.term_classes.specs.Walk.{times_number, times_exponential};
ghost use Rattle.steps.specs.Answers.{Answers};
ghost use Rattle.steps.specs.TermFaults.{term_cause};
ghost use Rattle.tree_polynomials.specs.Views.{fraction_value};
ghost use Rattle.term_walk.specs.Views.{gathered_of};

use crate::gathered::Gathered;
use lin_form::LinForm;
use poly_fraction::Frac;
use ring_laws::Whole;
use std::alloc::Global;
use steps::TermFault;
use tree_polynomials::times_power_of;

// The number as a fraction.
pub(crate) fn number_fraction(number: Whole) -> Frac<Whole>
    ensures value { fraction_value result ≡ of_whole number.value }
{
    Frac::new(number, Whole::ONE).unwrap()
}

// The fraction with the other sign.
pub(crate) fn negative(fraction: &Frac<Whole>) -> Frac<Whole>
    ensures value { fraction_value result ≡ fraction_negative (fraction_value fraction.now) }
{
    let top = Whole {
        value: -fraction.top().value(),
    };
    Frac::new(top, *fraction.bottom()).unwrap()
}

// The product of a power and a number of an exponent.
fn product(power: i64, number: i64) -> i64
    requires small { unsigned_abs power ≤ 12 }
    requires small_number { unsigned_abs number ≤ 64 }
    ensures product { result ≡ power *ℤ number }
    ensures small { unsigned_abs result ≤ 768 }
{
    power * number
}

impl Gathered {
    // The scale times a number to a power.
    pub(crate) fn times_number(
        self,
        alloc: Global,
        at: u32,
        number: Whole,
        power: i64,
    ) -> Result<Gathered, TermFault>
        requires small { unsigned_abs power ≤ 12 }
        ensures answers { Answers term_cause gathered_of (times_number at number.value power (gathered_of self)) result }
    {
        if number.value() == 0 {
            let reason = if power < 0 { 3 } else { 7 };
            return Err(TermFault::Improper { reason, at });
        }
        let Gathered {
            poly,
            scale,
            n_base,
            k_base,
            factors,
        } = self;
        let scale = times_power_of(alloc, at, &scale, &number_fraction(number), power)?;
        Ok(Gathered {
            poly,
            scale,
            n_base,
            k_base,
            factors,
        })
    }

    // A base to the power of a form, the whole to a power.
    pub(crate) fn times_exponential(
        self,
        alloc: Global,
        at: u32,
        base: &Frac<Whole>,
        exponent: LinForm,
        power: i64,
    ) -> Result<Gathered, TermFault>
        requires base_not_zero { (fraction_value base.now).top ≢ pos 0 }
        requires small { unsigned_abs power ≤ 12 }
        requires small_exponent { unsigned_abs (form_of exponent).offset ≤ 12 }
        ensures answers { Answers term_cause gathered_of (times_exponential at (fraction_value base.now) (form_of exponent) power
            (gathered_of self)) result }
    {
        let Gathered {
            poly,
            scale,
            n_base,
            k_base,
            factors,
        } = self;
        let n_power = product(power, exponent.n_slope());
        let n_base = times_power_of(alloc, at, &n_base, base, n_power)?;
        let k_power = product(power, exponent.k_slope());
        let k_base = times_power_of(alloc, at, &k_base, base, k_power)?;
        let scale_power = product(power, exponent.offset());
        let scale = times_power_of(alloc, at, &scale, base, scale_power)?;
        Ok(Gathered {
            poly,
            scale,
            n_base,
            k_base,
            factors,
        })
    }
}
