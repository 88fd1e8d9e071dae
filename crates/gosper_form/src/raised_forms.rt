//! Forms with their powers.

ghost use Rattle.std.specs.Prelude.{◌≤◌};
ghost use Rattle.hypergeometric.specs.TermFacts.{IsNotConstant};
ghost use Rattle.lin_form.specs.Forms.{form_of};

use lin_form::LinForm;

/// A form that isn't constant, as often as its power says: from 1 to 24 times.
#[derive(Clone, Copy, Drop)]
pub(crate) struct RaisedForm {
    pub(crate) form: LinForm,
    pub(crate) power: u32,
    ghost some: { 1 ≤ power },
    ghost few: { power ≤ 24 },
    ghost varies: { IsNotConstant (form_of form) },
}
