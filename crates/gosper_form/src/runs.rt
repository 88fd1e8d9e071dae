//! Runs of forms that follow one another.

ghost use Rattle.std.specs.Prelude.{◌≡◌, ◌≤◌, ◌^◌, unsigned_abs, ◌++◌};
ghost use Rattle.hypergeometric.specs.TermFacts.{IsNotConstant};
ghost use Rattle.lin_form.specs.Forms.{form_of};
ghost use Rattle.term_pieces.specs.Products.{form_plus, forms_above, forms_below};
ghost use Rattle.gosper_form.specs.RaisedForms.{factors_of, Makes};

use crate::raised_forms::RaisedForm;
use lin_form::LinForm;
use ring_laws::RingFault;

// The form with a number added to its offset.
pub(crate) fn moved(form: LinForm, by: i64) -> LinForm
    requires small { unsigned_abs (form_of form).offset ≤ 2 ^ 36 }
    requires near { unsigned_abs by ≤ 2 ^ 36 }
    ensures moved { form_of result ≡ form_plus (form_of form) by }
{
    match LinForm::new(form.n_slope(), form.k_slope(), form.offset() + by) {
        Some(moved) => moved,
        None => unreachable!(),
    }
}

// The forms, and f + 1, f + 2, .., so many of them, each to the power.
pub(crate) fn with_forms_above(
    forms: Vec<RaisedForm>,
    form: LinForm,
    count: u32,
    power: u32,
) -> Result<Vec<RaisedForm>, RingFault>
    requires some { 1 ≤ power }
    requires few { power ≤ 24 }
    requires short { count ≤ 128 }
    requires varies { 1 ≤ count → IsNotConstant (form_of form) }
    requires small { unsigned_abs (form_of form).offset ≤ 2 ^ 32 }
    ensures makes { Makes (λ longer. factors_of longer.items) (factors_of forms.items ++ forms_above (form_of form) count power) result }
{
    let mut forms = forms;
    for step in 0..count {
        let form = moved(form, i64::from(step) + 1);
        forms.push(RaisedForm { form, power })?;
    }
    Ok(forms)
}

// The forms, and f, f - 1, f - 2, .., so many of them, each to the power.
pub(crate) fn with_forms_below(
    forms: Vec<RaisedForm>,
    form: LinForm,
    count: u32,
    power: u32,
) -> Result<Vec<RaisedForm>, RingFault>
    requires some { 1 ≤ power }
    requires few { power ≤ 24 }
    requires short { count ≤ 128 }
    requires varies { 1 ≤ count → IsNotConstant (form_of form) }
    requires small { unsigned_abs (form_of form).offset ≤ 2 ^ 32 }
    ensures makes { Makes (λ longer. factors_of longer.items) (factors_of forms.items ++ forms_below (form_of form) count power) result }
{
    let mut forms = forms;
    for step in 0..count {
        let form = moved(form, -i64::from(step));
        forms.push(RaisedForm { form, power })?;
    }
    Ok(forms)
}
