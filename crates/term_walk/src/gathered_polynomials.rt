//! Polynomials that what was gathered is multiplied by.

ghost use Rattle.std.specs.Prelude.{◌≡◌, ◌≢◌, ◌≤◌, pos, neg_ℤ, unsigned_abs, None};
ghost use Rattle.ring_laws.specs.Meaning.{items};
ghost use Rattle.poly_laws.specs.TwoVariables.{constant_in_k};
ghost use Rattle.steps.specs.Answers.{Answers};
ghost use Rattle.steps.specs.Found.{found};
ghost use Rattle.steps.specs.Steps.{gives};
ghost use Rattle.steps.specs.TermFaults.{term_cause};
ghost use Rattle.term_classes.specs.Walk.{unit_term, times_polynomial, times_found};
ghost use Rattle.term_walk.specs.Views.{gathered_of};

use crate::factors::Factors;
use crate::fractions::number_fraction;
use crate::gathered::Gathered;
use crate::wide_forms::{linear_form, within_limits};
use poly_generic::{Znk, times_power};
use ring_laws::{Ring, Whole};
use std::alloc::Global;
use steps::{TermFault, fault_at};
use tree_polynomials::constant_of;

// The term 1.
pub(crate) fn nothing_gathered(alloc: Global) -> Result<Gathered, TermFault>
    ensures answers { Answers term_cause gathered_of (gives unit_term) result }
{
    let Ok(poly) = Znk::one(alloc) else {
        return Err(TermFault::Memory);
    };
    let factors = Factors::new(alloc)?;
    Ok(Gathered {
        poly,
        scale: number_fraction(Whole::ONE),
        n_base: number_fraction(Whole::ONE),
        k_base: number_fraction(Whole::ONE),
        factors,
    })
}

impl Gathered {
    // What was sought of the node at a place, to a power.
    pub(crate) fn times_found(
        self,
        alloc: Global,
        at: u32,
        power: i64,
        polynomial: Option<Znk>,
    ) -> Result<Gathered, TermFault>
        requires not_zero { power ≢ pos 0 }
        requires small { unsigned_abs power ≤ 12 }
        ensures answers { Answers term_cause gathered_of (times_found at power (gathered_of self)
            (found ⟦<Znk as Ring>⟧.meaning polynomial)) result }
    {
        let Some(polynomial) = polynomial else {
            return Err(TermFault::Improper { reason: 6, at });
        };
        match constant_of(&polynomial) {
            Some(number) => self.times_number(alloc, at, number, power),
            None => self.times_polynomial(alloc, at, polynomial, power),
        }
    }

    // A polynomial that is no number, to a power.
    fn times_polynomial(
        self,
        alloc: Global,
        at: u32,
        polynomial: Znk,
        power: i64,
    ) -> Result<Gathered, TermFault>
        requires not_zero { power ≢ pos 0 }
        requires small { unsigned_abs power ≤ 12 }
        requires no_number { constant_in_k (items (⟦<Znk as Ring>⟧.meaning polynomial)) ≡ None }
        ensures answers { Answers term_cause gathered_of (times_polynomial at (⟦<Znk as Ring>⟧.meaning polynomial) power (gathered_of self)) result }
    {
        let count = power.unsigned_abs() as u32;
        if power > 0 {
            self.times_natural_power(alloc, at, polynomial, count)
        } else {
            self.over_natural_power(alloc, at, polynomial, count)
        }
    }

    // The polynomial to a power from 0 up.
    fn times_natural_power(
        self,
        alloc: Global,
        at: u32,
        polynomial: Znk,
        power: u32,
    ) -> Result<Gathered, TermFault>
        requires no_number { constant_in_k (items (⟦<Znk as Ring>⟧.meaning polynomial)) ≡ None }
        ensures answers { Answers term_cause gathered_of (times_polynomial at (⟦<Znk as Ring>⟧.meaning polynomial) (pos power)
            (gathered_of self)) result }
    {
        let Gathered {
            poly,
            scale,
            n_base,
            k_base,
            factors,
        } = self;
        match times_power(alloc, poly, polynomial, power) {
            Ok(poly) => Ok(Gathered {
                poly,
                scale,
                n_base,
                k_base,
                factors,
            }),
            Err(fault) => Err(fault_at(at, fault)),
        }
    }

    // One over the polynomial, which must be a linear form, to a power from 1 up.
    fn over_natural_power(
        self,
        alloc: Global,
        at: u32,
        polynomial: Znk,
        power: u32,
    ) -> Result<Gathered, TermFault>
        requires some { 1 ≤ power }
        requires small { power ≤ 12 }
        requires no_number { constant_in_k (items (⟦<Znk as Ring>⟧.meaning polynomial)) ≡ None }
        ensures answers { Answers term_cause gathered_of (times_polynomial at (⟦<Znk as Ring>⟧.meaning polynomial) (neg_ℤ (pos power))
            (gathered_of self)) result }
    {
        let Some(form) = linear_form(&Some(polynomial)) else {
            return Err(TermFault::Improper { reason: 3, at });
        };
        let form = within_limits(form)?;
        self.with_denominator(alloc, at, form, power)
    }
}
