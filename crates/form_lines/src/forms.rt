//! Linear forms in n and k, within bounds.

ghost use Rattle.std.specs.Prelude.{◌≡◌, ◌≤◌, ◌^◌, pos, unsigned_abs, IfSome, IsSome, MatchOption};
ghost use Rattle.hypergeometric.specs.LinearForm.{LinearForm};
ghost use Rattle.hypergeometric.specs.FormOrder.{IsForm};
ghost use Rattle.lin_form.specs.Forms.{form_of};
ghost use Rattle.form_lines.specs.Forms.{without_x, forms};
ghost use Rattle.form_lines.specs.FormLaws.{forms_within_line, forms_are_items};
ghost use Rattle.form_lines.specs.Views.{parts_of};

use crate::wide_forms::{FormInX, FormsInX};
use lin_form::LinForm;
use spelled::{ItemSpelling, Spelling};
use std::alloc::{AllocError, Global};

// The same number in 64 bits, some where it is at most 2^40 in magnitude.
fn narrow(number: &i128) -> Option<i64>
    ensures same { IfSome result (λ narrow. narrow ≡ number.now) }
    ensures some { unsigned_abs number.now ≤ 2 ^ 40 → IsSome result }
{
    i64::try_from(*number).ok()
}

// The form in n and k with the same numbers, none where x stands in it or it is out of bounds.
fn narrowed(form: &FormInX) -> Option<LinForm>
    ensures read { (f : LinearForm) → IsForm f → parts_of form.now ≡ without_x f → MatchOption result ⊥ (λ x. form_of x ≡ f) }
    ensures has { IfSome result (λ x. IsForm (form_of x)) }
{
    if form.x_slope != 0 {
        return None;
    }
    let n_slope = narrow(&form.n_slope)?;
    let k_slope = narrow(&form.k_slope)?;
    let offset = narrow(&form.offset)?;
    LinForm::new(n_slope, k_slope, offset)
}

// The same form in n, k and x.
fn widened(form: &LinForm) -> FormInX
    ensures { parts_of result ≡ without_x (form_of form.now) }
{
    FormInX {
        n_slope: i128::from(form.n_slope()),
        k_slope: i128::from(form.k_slope()),
        x_slope: 0,
        offset: i128::from(form.offset()),
    }
}

/// Linear forms in n and k with slopes of at most 64 and an offset of at most 2^40 in magnitude.
#[derive(Clone, Copy)]
pub struct Forms;

impl Spelling for Forms {
    type Item = LinForm;

    ghost Value = { LinearForm };

    ghost value_of = { form_of };

    ghost format = { λ _. forms };

    fn write(&self, form: &LinForm, text: &mut String) -> Result<(), AllocError> {
        FormsInX.write(&widened(form), text)
    }

    fn read(&self, alloc: Global, text: &[u8]) -> Result<Option<LinForm>, AllocError> {
        match FormsInX.read(alloc, text)? {
            Some(form) => Ok(narrowed(&form)),
            None => Ok(None),
        }
    }

    ghost within_line = { λ _. forms_within_line };
}

impl ItemSpelling for Forms {
    ghost are_items = { λ _. forms_are_items };
}
