//! Whether a term is plain.

ghost use Rattle.std.specs.Prelude.{◌≡◌, ◌≢◌, ◌↔◌, ◌+◌, ◌*◌, ◌≤◌, ◌^◌, IsTrue};
ghost use Rattle.std.specs.List.{AllByRecursion};
ghost use Rattle.hypergeometric.specs.TermFacts.{IsWithinLimits, AllWithinLimits, IsPlain, total_power};
ghost use Rattle.lin_form.specs.Forms.{form_of};
ghost use Rattle.lin_form.specs.ListOf.{list_of};
ghost use Rattle.proper_term.specs.TermOf.{term_of};
ghost use Rattle.gosper_form.specs.PlainLists.{ArePlainLists};

use lin_form::{FactorList, LinForm};
use proper_term::Proper;

// Whether the slopes and the offset are within the limits.
fn is_within_limits(form: &LinForm) -> bool
    ensures test { IsTrue result ↔ IsWithinLimits (form_of form.now) }
{
    form.n_slope().unsigned_abs() <= 8
        && form.k_slope().unsigned_abs() <= 8
        && form.offset().unsigned_abs() <= 1_000_000
}

// Whether each form of a list is within the limits.
fn are_within_limits(list: &FactorList) -> bool
    ensures test { IsTrue result ↔ AllWithinLimits (list_of list.now).factors }
{
    for (form, _) in list.iter() {
        if !is_within_limits(&form) {
            return false;
        }
    }
    true
}

// Whether no form stands in both lists.
fn have_no_form_in_common(list: &FactorList, other: &FactorList) -> bool
    ensures test { IsTrue result ↔ AllByRecursion (λ x. AllByRecursion (λ y. y.form ≢ x.form) (list_of other.now).factors) (list_of list.now).factors }
{
    for (form, _) in list.iter() {
        if other.power(&form) != 0 {
            return false;
        }
    }
    true
}

/// The sum of the powers of a list. A list is too short for it to pass 2^100.
pub fn total_power(list: &FactorList) -> u128
    ensures total { result ≡ total_power (list_of list.now).factors }
    ensures small { result ≤ 2 ^ 100 }
{
    let mut total = 0;
    for (_, power) in list.iter() {
        total += u128::from(power);
    }
    total
}

// Whether all forms of the lists are within the limits.
fn all_within_limits(
    up: &FactorList,
    down: &FactorList,
    over: &FactorList,
    guard: &FactorList,
) -> bool
    ensures test { IsTrue result ↔ (AllWithinLimits (list_of up.now).factors × AllWithinLimits (list_of down.now).factors
        × AllWithinLimits (list_of over.now).factors × AllWithinLimits (list_of guard.now).factors) }
{
    are_within_limits(up)
        && are_within_limits(down)
        && are_within_limits(over)
        && are_within_limits(guard)
}

// Whether the lists have at most 24 factors before cancelling.
fn are_few(up: &FactorList, down: &FactorList, over: &FactorList, guard: &FactorList) -> bool
    ensures test { IsTrue result ↔ (total_power (list_of up.now).factors + total_power (list_of down.now).factors + total_power (list_of over.now).factors
        + 2 * total_power (list_of guard.now).factors ≤ 24) }
{
    total_power(up) + total_power(down) + total_power(over) + 2 * total_power(guard) <= 24
}

// Whether the lists are those of a plain term.
fn are_plain_lists(
    up: &FactorList,
    down: &FactorList,
    over: &FactorList,
    guard: &FactorList,
) -> bool
    ensures test { IsTrue result ↔ ArePlainLists (list_of up.now).factors (list_of down.now).factors (list_of over.now).factors
        (list_of guard.now).factors }
{
    if !all_within_limits(up, down, over, guard) {
        return false;
    }
    if !have_no_form_in_common(up, down) {
        return false;
    }
    are_few(up, down, over, guard)
}

/// Whether a term is plain: no form stands above and below, all forms are within the limits, and there are at most 24 factors before
/// cancelling.
pub fn is_plain(term: &Proper) -> bool
    ensures test { IsTrue result ↔ IsPlain (term_of term.now) }
{
    are_plain_lists(term.up(), term.down(), term.over(), term.guard())
}
