//! A form, and a polynomial in n and k, as polynomials in k over a ring of forms.

ghost use Rattle.std.specs.Prelude.{◌≡◌, ◌≤◌, ◌^◌, map, unsigned_abs};
ghost use Rattle.ring_laws.specs.Answer.{Gives};
ghost use Rattle.hypergeometric.specs.Products.{form_polynomial};
ghost use Rattle.term_pieces.specs.Products.{at_later_k};
ghost use Rattle.lin_form.specs.Forms.{form_of};
ghost use Rattle.key_sides.specs.Lifted.{lifted};
ghost use Rattle.key_sides.specs.Places.{shift_of};

use form_rings::FormRing;
use lin_form::LinForm;
use poly_generic::{Poly, Znk};
use ring_laws::{Ring, RingFault, Whole};
use std::alloc::Global;

// Where a form is taken: at k or at k - 1.
#[derive(Clone, Copy, Drop)]
pub(crate) enum Place {
    Here,
    Before,
}

// The number that the form adds at the place.
fn offset_at(form: LinForm, place: Place) -> i64
    ensures offset { result ≡ (at_later_k (form_of form) (shift_of place)).offset }
    ensures small { unsigned_abs result ≤ 2 ^ 41 }
{
    match place {
        Place::Here => form.offset(),
        Place::Before => form.offset() - form.k_slope(),
    }
}

// The form at the place.
pub(crate) fn form_at<B: FormRing>(
    alloc: Global,
    form: LinForm,
    place: Place,
) -> Result<Poly<B>, RingFault>
    ensures gives { Gives ⟦<Poly<B> as Ring>⟧.meaning
        (lifted B.algebra B.forms (form_polynomial (at_later_k (form_of form) (shift_of place)))) result }
{
    let offset = offset_at(form, place);
    let mut coefficients = Vec::new(alloc);
    coefficients.push(B::part(alloc, form.n_slope(), 0, offset)?)?;
    coefficients.push(B::whole(alloc, Whole::from(form.k_slope()))?)?;
    Poly::from_coefficients(coefficients)
}

/// The form as a polynomial in k over the ring. It never answers `TooLarge`.
pub fn form_to_poly<B: FormRing>(alloc: Global, form: LinForm) -> Result<Poly<B>, RingFault>
    ensures gives { Gives ⟦<Poly<B> as Ring>⟧.meaning (lifted B.algebra B.forms (form_polynomial (form_of form))) result }
{
    form_at(alloc, form, Place::Here)
}

// A polynomial in k over those in n, over the ring.
pub(crate) fn over_ring<B: FormRing>(alloc: Global, f: &Znk) -> Result<Poly<B>, RingFault>
    ensures gives { Gives ⟦<Poly<B> as Ring>⟧.meaning (lifted B.algebra B.forms (⟦<Znk as Ring>⟧.meaning f.now)) result }
{
    let coefficients = f.coefficients();
    let mut list = Vec::new(alloc);
    for coefficient in coefficients {
        list.push(B::from_n(alloc, coefficient)?)?;
    }
    Poly::from_coefficients(list)
}
