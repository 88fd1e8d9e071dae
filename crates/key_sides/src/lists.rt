//! Lists of forms as polynomials over a ring of forms.

ghost use Rattle.std.specs.Prelude.{◌≡◌, IfOk, IfErr};
ghost use Rattle.ring_laws.specs.Answer.{OnFault};
ghost use Rattle.poly_laws.specs.PolyAlgebra.{poly_algebra};
ghost use Rattle.division_laws.specs.Polynomials.{at_previous};
ghost use Rattle.hypergeometric.specs.Products.{list_polynomial};
ghost use Rattle.lin_form.specs.ListOf.{list_of};
ghost use Rattle.key_sides.specs.Lifted.{lifted};
ghost use Rattle.key_sides.specs.Powers.{PowersInBounds};
ghost use Rattle.key_sides.specs.ListPowers.{list_powers, list_before};

use crate::form_polynomials::Place;
use crate::products::times_list;
use form_rings::FormRing;
use lin_form::FactorList;
use poly_generic::Poly;
use ring_laws::{Ring, RingFault};
use std::alloc::Global;

/// The polynomial in k over the ring that the list is: its number times the product of its forms, by their powers.
///
/// `TooLarge` comes only where the product of all of them, as one operation, is out of bounds.
pub fn to_poly<B: FormRing>(alloc: Global, list: &FactorList) -> Result<Poly<B>, RingFault>
    ensures polynomial { IfOk result (λ poly. ⟦<Poly<B> as Ring>⟧.meaning poly ≡ lifted B.algebra B.forms (list_polynomial (list_of list.now))) }
    ensures too_large { IfErr result (OnFault (¬ PowersInBounds (poly_algebra B.algebra) (list_powers B.algebra B.forms (list_of list.now)))) }
{
    let one = Poly::one(alloc)?;
    times_list(alloc, one, list, Place::Here)
}

/// The polynomial in k over the ring that the list is at k - 1, multiplied from the forms at k - 1.
///
/// `TooLarge` comes only where the product of all of them, as one operation, is out of bounds.
pub fn to_poly_before<B: FormRing>(alloc: Global, list: &FactorList) -> Result<Poly<B>, RingFault>
    ensures polynomial { IfOk result (λ poly. ⟦<Poly<B> as Ring>⟧.meaning poly
        ≡ at_previous B.algebra.ops (lifted B.algebra B.forms (list_polynomial (list_of list.now)))) }
    ensures too_large { IfErr result (OnFault (¬ PowersInBounds (poly_algebra B.algebra)
        (list_powers B.algebra B.forms (list_before (list_of list.now))))) }
{
    let one = Poly::one(alloc)?;
    times_list(alloc, one, list, Place::Before)
}
