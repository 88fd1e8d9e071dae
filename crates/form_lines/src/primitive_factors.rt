//! Lists of primitive forms in their order.

ghost use Rattle.std.specs.Prelude.{◌≡◌, ◌≢◌, ◌↔◌, IsTrue, IfSome, MatchOption, pos};
ghost use Rattle.std.specs.List.{AllByRecursion};
ghost use Rattle.std.specs.Option.{option_map};
ghost use Rattle.hypergeometric.specs.LinearForm.{FactorList as FactorListValue};
ghost use Rattle.hypergeometric.specs.Forms.{form_with};
ghost use Rattle.hypergeometric.specs.FormOrder.{IsBefore, IsPrimitive, IsSorted};
ghost use Rattle.lin_form.specs.Forms.{form_of};
ghost use Rattle.lin_form.specs.ListOf.{list_of};
ghost use Rattle.form_lines.specs.Factors.{primitive_factors};
ghost use Rattle.form_lines.specs.FactorLaws.{primitive_within_line};
ghost use Rattle.form_lines.specs.Orders.{Follows};

use crate::factors::{Factors, write_factors};
use lin_form::{FactorList, LinForm};
use spelled::Spelling;
use std::alloc::{AllocError, Global};

// Whether all numbers of the form are 0.
fn is_zero(form: &LinForm) -> bool
    ensures test { IsTrue result ↔ (form_of form.now ≡ form_with (pos 0) (pos 0) (pos 0)) }
{
    form.n_slope() == 0 && form.k_slope() == 0 && form.offset() == 0
}

// Whether the form is primitive.
fn is_primitive(form: &LinForm) -> bool
    ensures test { IsTrue result ↔ IsPrimitive (form_of form.now) }
{
    if is_zero(form) {
        return false;
    }
    let (factor, _) = form.primitive();
    factor == 1
}

// Whether each form of the list is primitive.
fn are_primitive(list: &FactorList) -> bool
    ensures test { IsTrue result ↔ AllByRecursion (λ x. IsPrimitive x.form) (list_of list.now).factors }
{
    for (form, _) in list.iter() {
        if !is_primitive(&form) {
            return false;
        }
    }
    true
}

// Whether the form comes before the other one.
fn is_before(form: &LinForm, other: &LinForm) -> bool
    ensures test { IsTrue result ↔ IsBefore (form_of form.now) (form_of other.now) }
{
    if form.k_slope() != other.k_slope() {
        return form.k_slope() < other.k_slope();
    }
    if form.n_slope() != other.n_slope() {
        return form.n_slope() < other.n_slope();
    }
    form.offset() < other.offset()
}

// Whether the form comes behind the previous one, where there is one.
fn follows(previous: &Option<LinForm>, form: &LinForm) -> bool
    ensures test { IsTrue result ↔ Follows (option_map form_of previous.now) (form_of form.now) }
{
    match previous {
        Some(previous) => is_before(previous, form),
        None => true,
    }
}

// Whether the forms of the list are in their order.
fn are_sorted(list: &FactorList) -> bool
    ensures test { IsTrue result ↔ IsSorted (list_of list.now).factors }
{
    let mut previous = None;
    for (form, _) in list.iter() {
        if !follows(&previous, &form) {
            return false;
        }
        previous = Some(form);
    }
    true
}

/// Lists of scale 1: primitive forms within bounds with their powers, in their order.
#[derive(Clone, Copy)]
pub struct PrimitiveFactors;

impl Spelling for PrimitiveFactors {
    type Item = FactorList;

    ghost Value = { FactorListValue };

    ghost value_of = { list_of };

    ghost format = { λ _. primitive_factors };

    fn write(&self, list: &FactorList, text: &mut String) -> Result<(), AllocError> {
        write_factors(text, list)
    }

    fn read(&self, alloc: Global, text: &[u8]) -> Result<Option<FactorList>, AllocError> {
        let Some(list) = Factors.read(alloc, text)? else {
            return Ok(None);
        };
        if !are_primitive(&list) {
            return Ok(None);
        }
        if !are_sorted(&list) {
            return Ok(None);
        }
        Ok(Some(list))
    }

    ghost within_line = { λ _. primitive_within_line };
}
