//! A form as a polynomial.

ghost use Rattle.std.specs.Prelude.{◌≡◌, ◌≤◌, ◌<◌, ◌^◌, unsigned_abs};
ghost use Rattle.ring_laws.specs.Answer.{Gives};
ghost use Rattle.poly_laws.specs.Values.{level};
ghost use Rattle.lin_form.specs.Forms.{form_of};
ghost use Rattle.hypergeometric.specs.Products.{form_polynomial};

use crate::forms::LinForm;
use poly_generic::{Zn, Znk};
use ring_laws::{Ring, RingFault, Whole};
use std::alloc::Global;

// The form as a polynomial in k over those in n.
pub fn polynomial_of(alloc: Global, form: LinForm) -> Result<Znk, RingFault>
    ensures gives { Gives ⟦<Znk as Ring>⟧.meaning (form_polynomial (form_of form)) result }
{
    let mut numbers = Vec::new(alloc);
    numbers.push(Whole::from(form.offset()))?;
    numbers.push(Whole::from(form.n_slope()))?;
    let mut coefficients = Vec::new(alloc);
    coefficients.push(Zn::from_coefficients(numbers)?)?;
    coefficients.push(Zn::whole(alloc, Whole::from(form.k_slope()))?)?;
    Znk::from_coefficients(coefficients)
}
