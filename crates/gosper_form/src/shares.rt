//! What one item of a term gives to a piece: a factorial above or below, or a denominator.

ghost use Rattle.std.specs.Prelude.{◌≡◌, ◌≤◌, ◌<◌, ◌^◌, ◌*ℤ◌, ◌-ℤ◌, pos, unsigned_abs, ◌++◌};
ghost use Rattle.hypergeometric.specs.TermFacts.{IsNotConstant, IsWithinLimits};
ghost use Rattle.hypergeometric.specs.FactorLists.{factor_with};
ghost use Rattle.lin_form.specs.Forms.{form_of};
ghost use Rattle.term_pieces.specs.Products.{at_later_n};
ghost use Rattle.term_pieces.specs.ItemForms.{negative_part, positive_part, least_of, greatest_of, counted, shifts_but, rising_where, falling_where};
ghost use Rattle.gosper_form.specs.RaisedForms.{factors_of, Makes};
ghost use Rattle.gosper_form.specs.Shares.{share_of, CanGive};

use crate::raised_forms::RaisedForm;
use crate::runs::{moved, with_forms_above, with_forms_below};
use lin_form::LinForm;
use ring_laws::RingFault;

/// Which share an item of a term gives: to p_j by a factorial above, by one below, or by a denominator; to q0 and to r0 by a factorial
/// above; to r0 and to q0 by one below; to q0, to r0 and to the carrier by a denominator.
#[derive(Clone, Copy, Drop)]
pub(crate) enum Share {
    AboveLeast(u32),
    BelowGreatest(u32),
    CountedBut(u32),
    RisingUp,
    FallingUp,
    RisingDown,
    FallingDown,
    Cleared,
    Later,
    Kept,
}

// The slope where it is below 0, and else 0.
pub(crate) fn below_zero(slope: i64) -> i64
    ensures part { result ≡ negative_part slope }
    ensures small { unsigned_abs result ≤ unsigned_abs slope }
{
    if slope < 0 { slope } else { 0 }
}

// The slope where it is above 0, and else 0.
pub(crate) fn above_zero(slope: i64) -> i64
    ensures part { result ≡ positive_part slope }
    ensures small { unsigned_abs result ≤ unsigned_abs slope }
{
    if slope < 0 { 0 } else { slope }
}

// The form at the n from n to n + order at which it is least.
pub(crate) fn least(form: LinForm, order: u32) -> LinForm
    requires within { IsWithinLimits (form_of form) }
    requires low { order ≤ 6 }
    ensures least { form_of result ≡ least_of order (form_of form) }
    ensures small { unsigned_abs (form_of result).offset ≤ 2 ^ 31 }
{
    moved(form, below_zero(form.n_slope()) * i64::from(order))
}

// The form at the n from n to n + order at which it is greatest.
pub(crate) fn greatest(form: LinForm, order: u32) -> LinForm
    requires within { IsWithinLimits (form_of form) }
    requires low { order ≤ 6 }
    ensures greatest { form_of result ≡ greatest_of order (form_of form) }
    ensures small { unsigned_abs (form_of result).offset ≤ 2 ^ 31 }
{
    moved(form, above_zero(form.n_slope()) * i64::from(order))
}

// The form at n + by.
fn later_in_n(form: LinForm, by: u32) -> LinForm
    requires small_slope { unsigned_abs (form_of form).n_slope ≤ 8 }
    requires small { unsigned_abs (form_of form).offset ≤ 2 ^ 31 }
    requires near { by ≤ 6 }
    ensures later { form_of result ≡ at_later_n (form_of form) (pos by) }
    ensures small { unsigned_abs (form_of result).offset ≤ 2 ^ 32 }
{
    moved(form, form.n_slope() * i64::from(by))
}

// A slope times a number.
fn multiple(slope: i64, times: u32) -> i64
    requires small_slope { unsigned_abs slope ≤ 8 }
    requires few { times ≤ 6 }
    ensures multiple { result ≡ slope *ℤ pos times }
    ensures small { unsigned_abs result ≤ 48 }
{
    slope * i64::from(times)
}

// The magnitude of a difference.
fn distance(a: i64, b: i64) -> u32
    requires small_first { unsigned_abs a ≤ 48 }
    requires small_second { unsigned_abs b ≤ 48 }
    ensures distance { result ≡ unsigned_abs (a -ℤ b) }
    ensures short { result ≤ 96 }
{
    (a - b).unsigned_abs() as u32
}

// How far a form with this n slope is at n + j above its least value.
fn rise_from_least(slope: i64, order: u32, j: u32) -> u32
    requires small_slope { unsigned_abs slope ≤ 8 }
    requires low { order ≤ 6 }
    requires near { j ≤ 6 }
    ensures rise { result ≡ unsigned_abs (slope *ℤ pos j -ℤ negative_part slope *ℤ pos order) }
    ensures short { result ≤ 96 }
{
    distance(multiple(slope, j), multiple(below_zero(slope), order))
}

// How far it is there below its greatest value.
fn rise_to_greatest(slope: i64, order: u32, j: u32) -> u32
    requires small_slope { unsigned_abs slope ≤ 8 }
    requires low { order ≤ 6 }
    requires near { j ≤ 6 }
    ensures rise { result ≡ unsigned_abs (positive_part slope *ℤ pos order -ℤ slope *ℤ pos j) }
    ensures short { result ≤ 96 }
{
    distance(multiple(above_zero(slope), order), multiple(slope, j))
}

// A! at n + j over the factorial of the least of A, for the factorial of A.
fn with_above_least(
    forms: Vec<RaisedForm>,
    form: LinForm,
    power: u32,
    order: u32,
    j: u32,
) -> Result<Vec<RaisedForm>, RingFault>
    requires within { IsWithinLimits (form_of form) }
    requires low { order ≤ 6 }
    requires near { j ≤ 6 }
    requires some { 1 ≤ power }
    requires few { power ≤ 24 }
    ensures makes { Makes (λ longer. factors_of longer.items) (factors_of forms.items
        ++ share_of (Share.AboveLeast j) order (factor_with (form_of form) power)) result }
{
    let count = rise_from_least(form.n_slope(), order, j);
    with_forms_above(forms, least(form, order), count, power)
}

// The factorial of the greatest of U over U! at n + j, for one over the factorial of U.
fn with_below_greatest(
    forms: Vec<RaisedForm>,
    form: LinForm,
    power: u32,
    order: u32,
    j: u32,
) -> Result<Vec<RaisedForm>, RingFault>
    requires within { IsWithinLimits (form_of form) }
    requires low { order ≤ 6 }
    requires near { j ≤ 6 }
    requires some { 1 ≤ power }
    requires few { power ≤ 24 }
    ensures makes { Makes (λ longer. factors_of longer.items) (factors_of forms.items
        ++ share_of (Share.BelowGreatest j) order (factor_with (form_of form) power)) result }
{
    let count = rise_to_greatest(form.n_slope(), order, j);
    with_forms_above(forms, later_in_n(form, j), count, power)
}

// The form at n, n + 1, .., n + last, without the one at n + skipped.
fn with_shifts(
    forms: Vec<RaisedForm>,
    form: LinForm,
    power: u32,
    last: u32,
    skipped: u32,
) -> Result<Vec<RaisedForm>, RingFault>
    requires small_slope { unsigned_abs (form_of form).n_slope ≤ 8 }
    requires small { unsigned_abs (form_of form).offset ≤ 2 ^ 31 }
    requires varies { IsNotConstant (form_of form) }
    requires low { last ≤ 6 }
    requires some { 1 ≤ power }
    requires few { power ≤ 24 }
    ensures makes { Makes (λ longer. factors_of longer.items) (factors_of forms.items
        ++ shifts_but skipped last (factor_with (form_of form) power)) result }
{
    let mut forms = forms;
    for shift in 0..last + 1 {
        if shift != skipped {
            let form = later_in_n(form, shift);
            forms.push(RaisedForm { form, power })?;
        }
    }
    Ok(forms)
}

// A denominator at n, .., n + order, and once where it has no n.
fn with_counted(
    forms: Vec<RaisedForm>,
    form: LinForm,
    power: u32,
    order: u32,
) -> Result<Vec<RaisedForm>, RingFault>
    requires small_slope { unsigned_abs (form_of form).n_slope ≤ 8 }
    requires small { unsigned_abs (form_of form).offset ≤ 2 ^ 31 }
    requires varies { IsNotConstant (form_of form) }
    requires low { order ≤ 6 }
    requires some { 1 ≤ power }
    requires few { power ≤ 24 }
    ensures makes { Makes (λ longer. factors_of longer.items) (factors_of forms.items ++ counted order (factor_with (form_of form) power)) result }
{
    if form.n_slope() == 0 {
        return with_shifts(forms, form, power, 0, 1);
    }
    with_shifts(forms, form, power, order, order + 1)
}

// The same without the one at n + j.
fn with_counted_but(
    forms: Vec<RaisedForm>,
    form: LinForm,
    power: u32,
    order: u32,
    j: u32,
) -> Result<Vec<RaisedForm>, RingFault>
    requires within { IsWithinLimits (form_of form) }
    requires varies { IsNotConstant (form_of form) }
    requires low { order ≤ 6 }
    requires some { 1 ≤ power }
    requires few { power ≤ 24 }
    ensures makes { Makes (λ longer. factors_of longer.items) (factors_of forms.items
        ++ share_of (Share.CountedBut j) order (factor_with (form_of form) power)) result }
{
    if form.n_slope() == 0 {
        return Ok(forms);
    }
    with_shifts(forms, form, power, order, j)
}

// (f + 1) .. (f + slope), where the slope is at least 0.
fn with_rising(
    forms: Vec<RaisedForm>,
    form: LinForm,
    power: u32,
) -> Result<Vec<RaisedForm>, RingFault>
    requires small_slope { unsigned_abs (form_of form).k_slope ≤ 8 }
    requires small { unsigned_abs (form_of form).offset ≤ 2 ^ 31 }
    requires some { 1 ≤ power }
    requires few { power ≤ 24 }
    ensures makes { Makes (λ longer. factors_of longer.items) (factors_of forms.items
        ++ rising_where (form_of form).k_slope (form_of form) power) result }
{
    let slope = form.k_slope();
    if slope < 0 {
        return Ok(forms);
    }
    with_forms_above(forms, form, slope.unsigned_abs() as u32, power)
}

// f (f - 1) .. (f + slope + 1), where the slope is below 0.
fn with_falling(
    forms: Vec<RaisedForm>,
    form: LinForm,
    power: u32,
) -> Result<Vec<RaisedForm>, RingFault>
    requires small_slope { unsigned_abs (form_of form).k_slope ≤ 8 }
    requires small { unsigned_abs (form_of form).offset ≤ 2 ^ 31 }
    requires some { 1 ≤ power }
    requires few { power ≤ 24 }
    ensures makes { Makes (λ longer. factors_of longer.items) (factors_of forms.items
        ++ falling_where (form_of form).k_slope (form_of form) power) result }
{
    let slope = form.k_slope();
    if slope >= 0 {
        return Ok(forms);
    }
    with_forms_below(forms, form, slope.unsigned_abs() as u32, power)
}

// A denominator with a k, wherever it counts.
fn with_cleared(
    forms: Vec<RaisedForm>,
    form: LinForm,
    power: u32,
    order: u32,
) -> Result<Vec<RaisedForm>, RingFault>
    requires within { IsWithinLimits (form_of form) }
    requires varies { IsNotConstant (form_of form) }
    requires low { order ≤ 6 }
    requires some { 1 ≤ power }
    requires few { power ≤ 24 }
    ensures makes { Makes (λ longer. factors_of longer.items) (factors_of forms.items
        ++ share_of Share.Cleared order (factor_with (form_of form) power)) result }
{
    if form.k_slope() == 0 {
        return Ok(forms);
    }
    with_counted(forms, form, power, order)
}

// A denominator with a k, at k + 1.
fn with_later(
    forms: Vec<RaisedForm>,
    form: LinForm,
    power: u32,
    order: u32,
) -> Result<Vec<RaisedForm>, RingFault>
    requires within { IsWithinLimits (form_of form) }
    requires varies { IsNotConstant (form_of form) }
    requires low { order ≤ 6 }
    requires some { 1 ≤ power }
    requires few { power ≤ 24 }
    ensures makes { Makes (λ longer. factors_of longer.items) (factors_of forms.items
        ++ share_of Share.Later order (factor_with (form_of form) power)) result }
{
    if form.k_slope() == 0 {
        return Ok(forms);
    }
    with_counted(forms, moved(form, form.k_slope()), power, order)
}

// A denominator without a k.
fn with_kept(
    forms: Vec<RaisedForm>,
    form: LinForm,
    power: u32,
    order: u32,
) -> Result<Vec<RaisedForm>, RingFault>
    requires within { IsWithinLimits (form_of form) }
    requires varies { IsNotConstant (form_of form) }
    requires low { order ≤ 6 }
    requires some { 1 ≤ power }
    requires few { power ≤ 24 }
    ensures makes { Makes (λ longer. factors_of longer.items) (factors_of forms.items
        ++ share_of Share.Kept order (factor_with (form_of form) power)) result }
{
    if form.k_slope() != 0 {
        return Ok(forms);
    }
    with_counted(forms, form, power, order)
}

// The forms, and the share of an item.
pub(crate) fn with_share(
    forms: Vec<RaisedForm>,
    share: Share,
    form: LinForm,
    power: u32,
    order: u32,
) -> Result<Vec<RaisedForm>, RingFault>
    requires within { IsWithinLimits (form_of form) }
    requires can_give { CanGive share (form_of form) }
    requires low { order ≤ 6 }
    requires some { 1 ≤ power }
    requires few { power ≤ 24 }
    ensures makes { Makes (λ longer. factors_of longer.items) (factors_of forms.items ++ share_of share order (factor_with (form_of form) power)) result }
{
    match share {
        Share::AboveLeast(j) => with_above_least(forms, form, power, order, j),
        Share::BelowGreatest(j) => with_below_greatest(forms, form, power, order, j),
        Share::CountedBut(j) => with_counted_but(forms, form, power, order, j),
        Share::RisingUp => with_rising(forms, least(form, order), power),
        Share::FallingUp => with_falling(forms, least(form, order), power),
        Share::RisingDown => with_rising(forms, greatest(form, order), power),
        Share::FallingDown => with_falling(forms, greatest(form, order), power),
        Share::Cleared => with_cleared(forms, form, power, order),
        Share::Later => with_later(forms, form, power, order),
        Share::Kept => with_kept(forms, form, power, order),
    }
}
