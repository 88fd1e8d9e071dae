//! Linear forms of any size, as polynomials have them, and their limits.

ghost use Rattle.std.specs.Prelude.{◌≡◌, ◌≤◌, ◌<◌, ◌^◌, unsigned_abs, map, IfOk, IfErr};
ghost use Rattle.ring_laws.specs.Answer.{OnFault};
ghost use Rattle.hypergeometric.specs.LinearForm.{LinearForm};
ghost use Rattle.poly_laws.specs.TwoVariables.{constant_in_n};
ghost use Rattle.lin_form.specs.Forms.{form_of};
ghost use Rattle.steps.specs.Answers.{Answers};
ghost use Rattle.steps.specs.Found.{found};
ghost use Rattle.steps.specs.Limits.{greatest_count};
ghost use Rattle.steps.specs.Operations.{of_number};
ghost use Rattle.steps.specs.Steps.{makes};
ghost use Rattle.steps.specs.TermFaults.{term_cause};
ghost use Rattle.term_classes.specs.Forms.{form_of_coefficients, form_of_items, linear_form_of, limited_form, limited_exponent};
ghost use Rattle.hypergeometric.specs.Forms.{form_difference, difference_size};
ghost use Rattle.hypergeometric.specs.PrimitiveForm.{is_negative_constant};
ghost use Rattle.tree_polynomials.specs.Views.{whole_value};
ghost use Rattle.term_walk.specs.Views.{wide_form_of};
ghost use Rattle.term_walk.specs.FormLimits.{form_within};

use lin_form::LinForm;
use poly_generic::{Zn, Znk};
use ring_laws::{Ring, RingFault, Whole};
use std::alloc::Global;
use steps::{LimitName, TermFault, fault_at};
use tree_polynomials::number_within;

/// `n_slope * n + k_slope * k + offset`, with numbers of 127 bits.
#[derive(Clone, Copy, Drop)]
pub(crate) struct WideForm {
    pub(crate) n_slope: Whole,
    pub(crate) k_slope: Whole,
    pub(crate) offset: Whole,
}

// The linear form that a polynomial is, `None` exactly where there is no polynomial or its total degree is above 1.
pub(crate) fn linear_form(polynomial: &Option<Znk>) -> Option<WideForm>
    ensures form { found wide_form_of result ≡ linear_form_of (found ⟦<Znk as Ring>⟧.meaning polynomial.now) }
{
    match polynomial {
        Some(polynomial) => form_of_list(polynomial.coefficients()),
        None => None,
    }
}

// The linear form with these coefficients in k, where the total degree is at most 1.
fn form_of_list(coefficients: &[Zn]) -> Option<WideForm>
    ensures form { found wide_form_of result ≡ form_of_items (map ⟦<Zn as Ring>⟧.meaning coefficients.now) }
{
    match coefficients {
        [] => form_with_slope(&[], Some(Whole::ZERO)),
        [constant] => form_with_slope(constant.coefficients(), Some(Whole::ZERO)),
        [constant, slope] => form_with_slope(
            constant.coefficients(),
            number_in_n(slope.coefficients()),
        ),
        _ => None,
    }
}

// The number that a polynomial in n of these coefficients is, where it is one.
fn number_in_n(coefficients: &[Whole]) -> Option<Whole>
    ensures number { found whole_value result ≡ constant_in_n (map ⟦<Whole as Ring>⟧.meaning coefficients.now) }
{
    match coefficients {
        [] => Some(Whole::ZERO),
        [constant] => Some(*constant),
        _ => None,
    }
}

// The linear form with these coefficients in n and this slope of k, where there is a slope and the degree in n is at most 1.
fn form_with_slope(coefficients: &[Whole], k_slope: Option<Whole>) -> Option<WideForm>
    ensures form { found wide_form_of result ≡ form_of_coefficients (map ⟦<Whole as Ring>⟧.meaning coefficients.now) (found whole_value k_slope) }
{
    let Some(k_slope) = k_slope else {
        return None;
    };
    let (offset, n_slope) = match coefficients {
        [] => (Whole::ZERO, Whole::ZERO),
        [offset] => (*offset, Whole::ZERO),
        [offset, n_slope] => (*offset, *n_slope),
        _ => return None,
    };
    Some(WideForm {
        n_slope,
        k_slope,
        offset,
    })
}

// Whether the form is a negative number.
pub(crate) fn is_negative_number(form: WideForm) -> bool
    ensures test { result ≡ is_negative_constant (wide_form_of form) }
{
    form.n_slope.value() == 0 && form.k_slope.value() == 0 && form.offset.value() < 0
}

// The first form less the second, as an operation of the node at a place.
pub(crate) fn difference(
    alloc: Global,
    at: u32,
    form: WideForm,
    other: WideForm,
) -> Result<WideForm, TermFault>
    ensures answers { Answers term_cause wide_form_of (makes at (of_number (difference_size (wide_form_of form) (wide_form_of other)))
        (form_difference (wide_form_of form) (wide_form_of other))) result }
{
    match form_less(alloc, form, other) {
        Ok(form) => Ok(form),
        Err(fault) => Err(fault_at(at, fault)),
    }
}

// Each number of the first form less that of the second.
fn form_less(alloc: Global, form: WideForm, other: WideForm) -> Result<WideForm, RingFault>
    ensures form { IfOk result (λ less. wide_form_of less ≡ form_difference (wide_form_of form) (wide_form_of other)) }
    ensures too_large { IfErr result (OnFault (¬ (difference_size (wide_form_of form) (wide_form_of other) < 2 ^ 127))) }
{
    let n_slope = form.n_slope.sub(alloc, &other.n_slope)?;
    let k_slope = form.k_slope.sub(alloc, &other.k_slope)?;
    let offset = form.offset.sub(alloc, &other.offset)?;
    Ok(WideForm {
        n_slope,
        k_slope,
        offset,
    })
}

// The form of an argument or a denominator, where it is within the limits.
pub(crate) fn within_limits(form: WideForm) -> Result<LinForm, TermFault>
    ensures answers { Answers term_cause form_of (limited_form (wide_form_of form)) result }
{
    within_offset_limit(form, LimitName::Offset)
}

// The form of an exponent, where it is within the limits.
pub(crate) fn exponent_within_limits(form: WideForm) -> Result<LinForm, TermFault>
    ensures answers { Answers term_cause form_of (limited_exponent (wide_form_of form)) result }
{
    within_offset_limit(form, LimitName::Exponent)
}

// The form, where its slopes and its offset are within their limits.
fn within_offset_limit(form: WideForm, name: LimitName) -> Result<LinForm, TermFault>
    requires small { greatest_count name ≤ 2 ^ 40 }
    ensures answers { Answers term_cause form_of (form_within name (wide_form_of form)) result }
{
    let n_slope = number_within(form.n_slope, LimitName::Slope)?;
    let k_slope = number_within(form.k_slope, LimitName::Slope)?;
    let offset = number_within(form.offset, name)?;
    match LinForm::new(n_slope, k_slope, offset) {
        Some(form) => Ok(form),
        None => unreachable!(),
    }
}
