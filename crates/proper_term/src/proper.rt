//! Proper hypergeometric terms.

ghost use Rattle.hypergeometric.specs.TermFacts.{IsProper};
ghost use Rattle.lin_form.specs.ListOf.{list_of};
ghost use Rattle.poly_fraction.specs.FractionOf.{fraction_of};
ghost use Rattle.proper_term.specs.Fields.{term_with, HaveUnitScales, number_fraction_of};
ghost use Rattle.proper_term.specs.OneProof.{proper_once, scales_once};

use crate::facts::keep_facts;
use lin_form::FactorList;
use poly_fraction::Frac;
use poly_generic::Znk;
use ring_laws::{Ring, Whole};

/// A proper hypergeometric term (A=B chapter 4): scale times a polynomial times powers of two bases, times the factorials of the
/// forms of up, over those of the forms of down, over the forms of over, defined where the forms of up and guard aren't negative
/// and no form of over is 0.
///
/// Polynomial, scale and bases aren't 0. Fractions are in lowest terms with positive denominators. The scales of the four lists
/// are 1. The forms of over are primitive and not constant.
#[derive(Drop)]
pub struct Proper {
    poly: Znk,
    scale: Frac<Whole>,
    n_base: Frac<Whole>,
    k_base: Frac<Whole>,
    up: FactorList,
    down: FactorList,
    over: FactorList,
    guard: FactorList,
    ghost unit_scales: { HaveUnitScales (list_of up) (list_of down) (list_of over) (list_of guard) } by { scales_once (list_of up) (list_of down)
        (list_of over) (list_of guard) },
    ghost proper: { IsProper (term_with (⟦<Znk as Ring>⟧.meaning poly) (number_fraction_of (fraction_of scale)) (number_fraction_of (fraction_of n_base))
        (number_fraction_of (fraction_of k_base)) (list_of up) (list_of down) (list_of over) (list_of guard)) } by { proper_once (term_with
            (⟦<Znk as Ring>⟧.meaning poly) (number_fraction_of (fraction_of scale)) (number_fraction_of (fraction_of n_base))
            (number_fraction_of (fraction_of k_base)) (list_of up) (list_of down) (list_of over) (list_of guard)) },
}

impl Proper {
    ghost use Rattle.std.specs.Prelude.{◌≡◌, pos, MatchOption};
    ghost use Rattle.hypergeometric.specs.TermFacts.{IsProper};
    ghost use Rattle.lin_form.specs.ListOf.{list_of};
    ghost use Rattle.poly_fraction.specs.FractionOf.{fraction_of};
    ghost use Rattle.proper_term.specs.Fields.{number_fraction_of, term_with, HaveUnitScales};
    ghost use Rattle.proper_term.specs.TermOf.{term_of};

    /// The term with these fields, `None` exactly where one of the facts of every proper term fails. It takes no memory.
    pub fn new(
        poly: Znk,
        scale: Frac<Whole>,
        n_base: Frac<Whole>,
        k_base: Frac<Whole>,
        up: FactorList,
        down: FactorList,
        over: FactorList,
        guard: FactorList,
    ) -> Option<Proper>
        ensures given { MatchOption result
            (¬ (IsProper (term_with (⟦<Znk as Ring>⟧.meaning poly) (number_fraction_of (fraction_of scale)) (number_fraction_of (fraction_of n_base))
            (number_fraction_of (fraction_of k_base)) (list_of up) (list_of down) (list_of over) (list_of guard))
            × HaveUnitScales (list_of up) (list_of down) (list_of over) (list_of guard)))
            (λ term. term_of term ≡ term_with (⟦<Znk as Ring>⟧.meaning poly) (number_fraction_of (fraction_of scale))
            (number_fraction_of (fraction_of n_base)) (number_fraction_of (fraction_of k_base)) (list_of up) (list_of down) (list_of over) (list_of guard)) }
    {
        if !keep_facts(&poly, &scale, &n_base, &k_base, &up, &down, &over, &guard) {
            return None;
        }
        Some(Proper {
            poly,
            scale,
            n_base,
            k_base,
            up,
            down,
            over,
            guard,
        })
    }

    /// The polynomial in k over those in n.
    pub fn poly(&self) -> &Znk
        ensures poly { ⟦<Znk as Ring>⟧.meaning result.now ≡ (term_of self.now).poly }
        ensures proper { IsProper (term_of self.now) }
    {
        &self.poly
    }

    /// The number that the rest is multiplied by.
    pub fn scale(&self) -> &Frac<Whole>
        ensures scale { number_fraction_of (fraction_of result.now) ≡ (term_of self.now).scale }
        ensures proper { IsProper (term_of self.now) }
    {
        &self.scale
    }

    /// The base of the power n.
    pub fn n_base(&self) -> &Frac<Whole>
        ensures n_base { number_fraction_of (fraction_of result.now) ≡ (term_of self.now).n_base }
        ensures proper { IsProper (term_of self.now) }
    {
        &self.n_base
    }

    /// The base of the power k.
    pub fn k_base(&self) -> &Frac<Whole>
        ensures k_base { number_fraction_of (fraction_of result.now) ≡ (term_of self.now).k_base }
        ensures proper { IsProper (term_of self.now) }
    {
        &self.k_base
    }

    /// The forms whose factorials stand above.
    pub fn up(&self) -> &FactorList
        ensures up { (list_of result.now).factors ≡ (term_of self.now).up }
        ensures scale { (list_of result.now).scale ≡ pos 1 }
        ensures proper { IsProper (term_of self.now) }
    {
        &self.up
    }

    /// The forms whose factorials stand below.
    pub fn down(&self) -> &FactorList
        ensures down { (list_of result.now).factors ≡ (term_of self.now).down }
        ensures scale { (list_of result.now).scale ≡ pos 1 }
        ensures proper { IsProper (term_of self.now) }
    {
        &self.down
    }

    /// The forms that the rest is divided by.
    pub fn over(&self) -> &FactorList
        ensures over { (list_of result.now).factors ≡ (term_of self.now).over }
        ensures scale { (list_of result.now).scale ≡ pos 1 }
        ensures proper { IsProper (term_of self.now) }
    {
        &self.over
    }

    /// The forms whose factorials stood above and below and were cancelled: they too aren't negative where the term is defined.
    pub fn guard(&self) -> &FactorList
        ensures guard { (list_of result.now).factors ≡ (term_of self.now).guard }
        ensures scale { (list_of result.now).scale ≡ pos 1 }
        ensures proper { IsProper (term_of self.now) }
    {
        &self.guard
    }
}
