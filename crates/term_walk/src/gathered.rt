//! What a walk over a tree has gathered: the factors of a term before factorials are cancelled.

ghost use Rattle.std.specs.Prelude.{◌≡◌, ◌≢◌};
ghost use Rattle.poly_laws.specs.TwoVariables.{in_n_and_k};
ghost use Rattle.poly_fraction.specs.FractionOf.{fraction_of};
ghost use Rattle.poly_fraction.specs.LowestTerms.{IsInLowestTerms};
ghost use Rattle.term_walk.specs.OneProof.{lowest_once};

use crate::factors::Factors;
use crate::fractions::{negative, number_fraction};
use lin_form::LinForm;
use poly_fraction::Frac;
use poly_generic::Znk;
use ring_laws::{Ring, Whole};
use std::alloc::Global;
use steps::TermFault;
use tree_polynomials::times_power_of;

/// The fields of a term, but for the guard, which stays empty until factorials are cancelled.
///
/// The polynomial isn't 0, and the scale is in lowest terms.
#[derive(Drop)]
pub(crate) struct Gathered {
    pub(crate) poly: Znk,
    pub(crate) scale: Frac<Whole>,
    pub(crate) n_base: Frac<Whole>,
    pub(crate) k_base: Frac<Whole>,
    pub(crate) factors: Factors,
    ghost not_zero: { ⟦<Znk as Ring>⟧.meaning poly ≢ in_n_and_k.nought },
    ghost lowest: { IsInLowestTerms (fraction_of scale) } by { lowest_once (fraction_of scale) },
}

impl Gathered {
    ghost use Rattle.std.specs.Prelude.{◌≡◌, ◌≢◌, ◌≤◌, pos, negsuc, unsigned_abs};
    ghost use Rattle.hypergeometric.specs.Fraction.{of_whole, fraction_product};
    ghost use Rattle.lin_form.specs.Forms.{form_of};
    ghost use Rattle.hypergeometric.specs.Forms.{form_with};
    ghost use Rattle.hypergeometric.specs.Divisors.{lowest_terms, raised_fraction};
    ghost use Rattle.term_classes.specs.Walk.{with_scale, with_factorial, with_denominator};
    ghost use Rattle.steps.specs.Answers.{Answers};
    ghost use Rattle.steps.specs.TermFaults.{term_cause};
    ghost use Rattle.term_walk.specs.Views.{gathered_of};

    // The scale times (-1)^power.
    pub(crate) fn with_sign(self, power: i64) -> Gathered
        ensures sign { gathered_of result ≡ with_scale (lowest_terms (fraction_product (gathered_of self).scale
            (raised_fraction (of_whole (negsuc 0)) power))) (gathered_of self) }
    {
        if power.unsigned_abs() % 2 == 0 {
            return self;
        }
        let Gathered {
            poly,
            scale,
            n_base,
            k_base,
            factors,
        } = self;
        Gathered {
            poly,
            scale: negative(&scale),
            n_base,
            k_base,
            factors,
        }
    }

    // The factorial of a form to a power: above where it is positive, and else below.
    pub(crate) fn with_factorial(self, form: LinForm, power: i64) -> Result<Gathered, TermFault>
        requires not_zero { power ≢ pos 0 }
        requires small { unsigned_abs power ≤ 12 }
        ensures answers { Answers term_cause gathered_of (with_factorial (form_of form) power (gathered_of self)) result }
    {
        let Gathered {
            poly,
            scale,
            n_base,
            k_base,
            factors,
        } = self;
        let factors = factors.with_factorial(form, power)?;
        Ok(Gathered {
            poly,
            scale,
            n_base,
            k_base,
            factors,
        })
    }

    // One over the form to a power: its primitive part goes to the denominators, and what it was multiplied by to the scale.
    pub(crate) fn with_denominator(
        self,
        alloc: Global,
        at: u32,
        form: LinForm,
        power: u32,
    ) -> Result<Gathered, TermFault>
        requires some { 1 ≤ power }
        requires small { power ≤ 12 }
        requires not_zero { form_of form ≢ form_with (pos 0) (pos 0) (pos 0) }
        ensures answers { Answers term_cause gathered_of (with_denominator at (form_of form) power (gathered_of self)) result }
    {
        let Gathered {
            poly,
            scale,
            n_base,
            k_base,
            factors,
        } = self;
        let (content, primitive) = form.primitive();
        let factors = factors.with_over(primitive, power)?;
        let content = number_fraction(Whole {
            value: i128::from(content),
        });
        let scale = times_power_of(alloc, at, &scale, &content, -i64::from(power))?;
        Ok(Gathered {
            poly,
            scale,
            n_base,
            k_base,
            factors,
        })
    }
}
