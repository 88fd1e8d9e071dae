//! Products with lists of forms.

ghost use Rattle.std.specs.Prelude.{map};
ghost use Rattle.poly_laws.specs.PolyAlgebra.{poly_algebra};
ghost use Rattle.poly_laws.specs.Powers.{power_in, nonzero_magnitude};
ghost use Rattle.poly_generic.specs.PowerAnswer.{GivesTimes};
ghost use Rattle.hypergeometric.specs.Products.{form_polynomial};
ghost use Rattle.term_pieces.specs.Products.{at_later_k};
ghost use Rattle.lin_form.specs.Forms.{form_of};
ghost use Rattle.lin_form.specs.ListOf.{list_of};
ghost use Rattle.key_sides.specs.Lifted.{lifted};
ghost use Rattle.key_sides.specs.Powers.{product_of, counterpart_of};
ghost use Rattle.key_sides.specs.Places.{shift_of};
ghost use Rattle.key_sides.specs.ListPowers.{list_powers, list_at_later_k};

use crate::form_polynomials::{Place, form_at};
use form_rings::FormRing;
use lin_form::{FactorList, LinForm};
use poly_generic::{Poly, times_power};
use ring_laws::{Ring, RingFault};
use std::alloc::Global;

// The product times a polynomial, as often as the power says.
pub(crate) fn times<B: FormRing>(
    alloc: Global,
    product: Poly<B>,
    base: Poly<B>,
    power: u32,
) -> Result<Poly<B>, RingFault>
    ensures gives { GivesTimes ⟦<Poly<B> as Ring>⟧.meaning (poly_algebra B.algebra) (⟦<Poly<B> as Ring>⟧.meaning product)
        (power_in (poly_algebra B.algebra).ops (⟦<Poly<B> as Ring>⟧.meaning base) power)
        (power_in (poly_algebra B.algebra).ops (nonzero_magnitude (poly_algebra B.algebra).ops (⟦<Poly<B> as Ring>⟧.meaning base)) power) result }
{
    times_power(alloc, product, base, power)
}

// The product times the form at the place, as often as the power says.
fn times_form<B: FormRing>(
    alloc: Global,
    product: Poly<B>,
    form: LinForm,
    place: Place,
    power: u32,
) -> Result<Poly<B>, RingFault>
    ensures gives { GivesTimes ⟦<Poly<B> as Ring>⟧.meaning (poly_algebra B.algebra) (⟦<Poly<B> as Ring>⟧.meaning product)
        (power_in (poly_algebra B.algebra).ops (lifted B.algebra B.forms (form_polynomial (at_later_k (form_of form) (shift_of place)))) power)
        (power_in (poly_algebra B.algebra).ops
        (nonzero_magnitude (poly_algebra B.algebra).ops (lifted B.algebra B.forms (form_polynomial (at_later_k (form_of form) (shift_of place))))) power) result }
{
    let base = form_at(alloc, form, place)?;
    times(alloc, product, base, power)
}

// The product times the number and the forms of a list at the place.
pub(crate) fn times_list<B: FormRing>(
    alloc: Global,
    product: Poly<B>,
    list: &FactorList,
    place: Place,
) -> Result<Poly<B>, RingFault>
    ensures gives { GivesTimes ⟦<Poly<B> as Ring>⟧.meaning (poly_algebra B.algebra) (⟦<Poly<B> as Ring>⟧.meaning product)
        (product_of (poly_algebra B.algebra).ops (list_powers B.algebra B.forms (list_at_later_k (list_of list.now) (shift_of place))))
        (counterpart_of (poly_algebra B.algebra).ops (list_powers B.algebra B.forms (list_at_later_k (list_of list.now) (shift_of place)))) result }
{
    let scale = Poly::whole(alloc, list.scale())?;
    let mut product = times(alloc, product, scale, 1)?;
    for (form, power) in list.iter() {
        product = times_form(alloc, product, form, place, power)?;
    }
    Ok(product)
}
