//! The facts of every proper term, as tests.

ghost use Rattle.std.specs.Prelude.{◌≡◌, pos, IsTrue, ◌↔◌, unsigned_abs};
ghost use Rattle.std.specs.List.{AllByRecursion};
ghost use Rattle.hypergeometric.specs.FormOrder.{IsPrimitive};
ghost use Rattle.hypergeometric.specs.TermFacts.{IsLowest, IsNotConstant, IsProper};
ghost use Rattle.lin_form.specs.Forms.{form_of};
ghost use Rattle.lin_form.specs.ListOf.{list_of};
ghost use Rattle.poly_fraction.specs.FractionOf.{fraction_of};
ghost use Rattle.proper_term.specs.Fields.{number_fraction_of, number_fraction, HaveUnitScales, term_with};

use lin_form::{FactorList, LinForm};
use poly_fraction::Frac;
use poly_generic::Znk;
use ring_laws::{Ring, Whole, gcd_whole};

// The absolute value.
pub(crate) fn magnitude(number: Whole) -> u128
    ensures magnitude { result ≡ unsigned_abs number.value }
{
    number.value().unsigned_abs()
}

// Whether a numerator over a denominator is other than 0, in lowest terms, with a positive denominator.
fn are_lowest_parts(top: Whole, bottom: Whole) -> bool
    ensures test { IsTrue result ↔ IsLowest (number_fraction top.value bottom.value) }
{
    if top.value() == 0 || bottom.value() <= 0 {
        return false;
    }
    gcd_whole(magnitude(top), magnitude(bottom)) == 1
}

// The same of a fraction.
fn is_lowest(f: &Frac<Whole>) -> bool
    ensures test { IsTrue result ↔ IsLowest (number_fraction_of (fraction_of f.now)) }
{
    are_lowest_parts(*f.top(), *f.bottom())
}

// Whether the number before the forms is 1.
fn has_unit_scale(list: &FactorList) -> bool
    ensures test { IsTrue result ↔ ((list_of list.now).scale ≡ pos 1) }
{
    list.scale().value() == 1
}

// Whether the numbers before the forms of all four lists are 1.
fn have_unit_scales(
    up: &FactorList,
    down: &FactorList,
    over: &FactorList,
    guard: &FactorList,
) -> bool
    ensures test { IsTrue result ↔ HaveUnitScales (list_of up.now) (list_of down.now) (list_of over.now) (list_of guard.now) }
{
    has_unit_scale(up) && has_unit_scale(down) && has_unit_scale(over) && has_unit_scale(guard)
}

// Whether neither n nor k stands in the form.
fn is_constant(form: &LinForm) -> bool
    ensures test { IsTrue result ↔ (((form_of form.now).n_slope ≡ pos 0) × ((form_of form.now).k_slope ≡ pos 0)) }
{
    form.n_slope() == 0 && form.k_slope() == 0
}

// Whether the form is primitive and not constant.
fn is_divisor(form: &LinForm) -> bool
    ensures test { IsTrue result ↔ (IsPrimitive (form_of form.now) × IsNotConstant (form_of form.now)) }
{
    if is_constant(form) {
        return false;
    }
    let (factor, _) = form.primitive();
    factor == 1
}

// Whether each form of the list is primitive and not constant.
fn are_divisors(list: &FactorList) -> bool
    ensures test { IsTrue result ↔ AllByRecursion (λ x. IsPrimitive x.form × IsNotConstant x.form) (list_of list.now).factors }
{
    for (form, _) in list.iter() {
        if !is_divisor(&form) {
            return false;
        }
    }
    true
}

// Whether the three fractions are other than 0, in lowest terms, with positive denominators.
fn are_lowest(scale: &Frac<Whole>, n_base: &Frac<Whole>, k_base: &Frac<Whole>) -> bool
    ensures test { IsTrue result ↔ (IsLowest (number_fraction_of (fraction_of scale.now)) × IsLowest (number_fraction_of (fraction_of n_base.now))
        × IsLowest (number_fraction_of (fraction_of k_base.now))) }
{
    is_lowest(scale) && is_lowest(n_base) && is_lowest(k_base)
}

// Whether the fields keep all facts of a proper term.
pub(crate) fn keep_facts(
    poly: &Znk,
    scale: &Frac<Whole>,
    n_base: &Frac<Whole>,
    k_base: &Frac<Whole>,
    up: &FactorList,
    down: &FactorList,
    over: &FactorList,
    guard: &FactorList,
) -> bool
    ensures test { IsTrue result ↔ (IsProper (term_with (⟦<Znk as Ring>⟧.meaning poly.now) (number_fraction_of (fraction_of scale.now))
        (number_fraction_of (fraction_of n_base.now)) (number_fraction_of (fraction_of k_base.now)) (list_of up.now) (list_of down.now)
        (list_of over.now) (list_of guard.now)) × HaveUnitScales (list_of up.now) (list_of down.now) (list_of over.now) (list_of guard.now)) }
{
    if poly.is_zero() {
        return false;
    }
    if !are_lowest(scale, n_base, k_base) {
        return false;
    }
    if !have_unit_scales(up, down, over, guard) {
        return false;
    }
    are_divisors(over)
}
