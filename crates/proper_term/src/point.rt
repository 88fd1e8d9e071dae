//! Points, and where a term is defined.

ghost use Rattle.std.specs.Prelude.{◌≡◌, ◌≢◌, ◌≤ℤ◌, pos, IsTrue, ◌↔◌};
ghost use Rattle.std.specs.List.{AllByRecursion};
ghost use Rattle.hypergeometric.specs.LinearForm.{form_value};
ghost use Rattle.hypergeometric.specs.ProperTerm.{IsDefinedAt};
ghost use Rattle.lin_form.specs.ListOf.{list_of};
ghost use Rattle.proper_term.specs.Points.{point_of};
ghost use Rattle.proper_term.specs.TermOf.{term_of};

use crate::proper::Proper;
use lin_form::{FactorList, LinForm};
use ring_laws::Whole;

/// A point of the plane of n and k.
#[derive(Clone, Copy, Debug, PartialEq, Eq, Drop)]
pub(crate) struct Point {
    pub(crate) n: i64,
    pub(crate) k: i64,
}

impl Point {
    ghost use Rattle.std.specs.Prelude.{◌≡◌, ◌<◌, ◌^◌, unsigned_abs};
    ghost use Rattle.hypergeometric.specs.LinearForm.{form_value};
    ghost use Rattle.lin_form.specs.Forms.{form_of};
    ghost use Rattle.proper_term.specs.Points.{point_of};

    /// n as a `Whole`.
    pub(crate) fn whole_n(self) -> Whole
        ensures value { result.value ≡ self.n }
    {
        Whole::from(self.n)
    }

    /// k as a `Whole`.
    pub(crate) fn whole_k(self) -> Whole
        ensures value { result.value ≡ self.k }
    {
        Whole::from(self.k)
    }

    /// The value of the form at the point.
    pub(crate) fn value_of(self, form: &LinForm) -> i128
        ensures value { result ≡ form_value (form_of form.now) (point_of self) }
    {
        form.at(self.n, self.k)
    }

    /// The same, as a `Whole`.
    pub(crate) fn whole_value_of(self, form: &LinForm) -> Whole
        ensures value { result.value ≡ form_value (form_of form.now) (point_of self) }
        ensures small { unsigned_abs result.value < 2 ^ 72 }
    {
        Whole::new(self.value_of(form)).unwrap()
    }
}

// Whether no form of the list is negative at the point.
pub(crate) fn none_negative(list: &FactorList, point: Point) -> bool
    ensures test { IsTrue result ↔ AllByRecursion (λ x. pos 0 ≤ℤ form_value x.form (point_of point)) (list_of list.now).factors }
{
    for (form, _) in list.iter() {
        if point.value_of(&form) < 0 {
            return false;
        }
    }
    true
}

// Whether no form of the list is 0 at the point.
fn none_zero(list: &FactorList, point: Point) -> bool
    ensures test { IsTrue result ↔ AllByRecursion (λ x. form_value x.form (point_of point) ≢ pos 0) (list_of list.now).factors }
{
    for (form, _) in list.iter() {
        if point.value_of(&form) == 0 {
            return false;
        }
    }
    true
}

// Whether the term is defined at the point.
pub(crate) fn is_defined_at(term: &Proper, point: Point) -> bool
    ensures test { IsTrue result ↔ IsDefinedAt (term_of term.now) (point_of point) }
{
    if !none_negative(term.up(), point) {
        return false;
    }
    if !none_negative(term.guard(), point) {
        return false;
    }
    none_zero(term.over(), point)
}
