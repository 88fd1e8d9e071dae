//! The sides of the key equation of an order, and of a pair.

ghost use Rattle.std.specs.Prelude.{◌≡◌, ℕ, suc, length, map, ◌∷◌, [], IfOk, IfErr};
ghost use Rattle.ring_laws.specs.Answer.{OnFault};
ghost use Rattle.poly_laws.specs.PolyAlgebra.{poly_algebra};
ghost use Rattle.poly_laws.specs.Values.{level};
ghost use Rattle.hypergeometric.specs.Products.{list_polynomial};
ghost use Rattle.term_pieces.specs.Tops.{top_polynomial};
ghost use Rattle.term_pieces.specs.Pieces.{top_at};
ghost use Rattle.pole_laws.specs.Orders.{tops_of, pair_top, sides_of};
ghost use Rattle.lin_form.specs.ListOf.{list_of};
ghost use Rattle.gosper_form.specs.PiecesOf.{top_of, pieces_held};
ghost use Rattle.gosper_form.specs.NormalView.{normal_of};
ghost use Rattle.key_sides.specs.Lifted.{lifted};
ghost use Rattle.key_sides.specs.Powers.{PowersInBounds};
ghost use Rattle.key_sides.specs.ListPowers.{side_powers};
ghost use Rattle.key_sides.specs.Sides.{side_degrees, AreLowDegrees, OnSideFault, SidesInBounds, PairInBounds};

use crate::degrees::test_degrees;
use crate::form_polynomials::{Place, over_ring};
use crate::products::{times, times_list};
use form_rings::FormRing;
use gosper_form::{Normal, Pieces, Top};
use lin_form::FactorList;
use poly_generic::Poly;
use ring_laws::{Ring, RingFault};
use std::alloc::Global;
use steps::{StepFault, step_fault};

// g p_j: the forms of g, the polynomial of p_j and the forms of p_j, one after another.
fn side<B: FormRing>(alloc: Global, g: &FactorList, top: &Top) -> Result<Poly<B>, RingFault>
    ensures polynomial { IfOk result (λ poly. ⟦<Poly<B> as Ring>⟧.meaning poly
        ≡ lifted B.algebra B.forms ((level 2).ops.product (list_polynomial (list_of g.now)) (top_polynomial (top_of top.now)))) }
    ensures too_large { IfErr result (OnFault (¬ PowersInBounds (poly_algebra B.algebra)
        (side_powers B.algebra B.forms (list_of g.now) (top_of top.now)))) }
{
    let one = Poly::one(alloc)?;
    let product = times_list(alloc, one, g, Place::Here)?;
    let poly = over_ring(alloc, top.poly())?;
    let product = times(alloc, product, poly, 1)?;
    times_list(alloc, product, top.factors(), Place::Here)
}

// g p_0, .., g p_J
fn multiplied<B: FormRing>(
    alloc: Global,
    pieces: &Pieces,
    normal: &Normal,
) -> Result<Vec<Poly<B>>, RingFault>
    ensures sides { IfOk result (λ sides. map ⟦<Poly<B> as Ring>⟧.meaning sides.items ≡ map (λ top. lifted B.algebra B.forms
        ((level 2).ops.product (list_polynomial (normal_of normal.now).g) (top_polynomial top))) (pieces_held pieces.now).tops) }
    ensures too_large { IfErr result (OnFault (¬ SidesInBounds B.algebra B.forms (normal_of normal.now) (pieces_held pieces.now))) }
{
    let mut sides = Vec::new(alloc);
    for j in 0..=pieces.order() {
        let Some(top) = pieces.top(j) else {
            return Ok(sides);
        };
        sides.push(side(alloc, normal.g(), top)?)?;
    }
    Ok(sides)
}

/// The sides g p_0, .., g p_J of the key equation of an order, as polynomials in k over the ring.
///
/// `Limit` comes exactly where a degree in k is above 64, with the first that is: they are counted before anything is multiplied. `TooLarge`
/// comes only where all degrees are within the limit and a side, as one product, is out of bounds.
pub fn sides<B: FormRing>(
    alloc: Global,
    pieces: &Pieces,
    normal: &Normal,
) -> Result<Vec<Poly<B>>, StepFault>
    ensures sides { IfOk result (λ sides. (order : ℕ) → length (pieces_held pieces.now).tops ≡ suc order → map ⟦<Poly<B> as Ring>⟧.meaning sides.items
        ≡ map (lifted B.algebra B.forms) (sides_of (normal_of normal.now) (tops_of (pieces_held pieces.now) order))) }
    ensures low { IfOk result (λ sides. AreLowDegrees (side_degrees (normal_of normal.now) (pieces_held pieces.now))) }
    ensures faults { IfErr result (OnSideFault (side_degrees (normal_of normal.now) (pieces_held pieces.now))
        (SidesInBounds B.algebra B.forms (normal_of normal.now) (pieces_held pieces.now))) }
{
    test_degrees(pieces, normal)?;
    match multiplied(alloc, pieces, normal) {
        Ok(sides) => Ok(sides),
        Err(fault) => Err(step_fault(fault)),
    }
}

// g (p_1 - p_0)
fn difference<B: FormRing>(
    alloc: Global,
    pieces: &Pieces,
    normal: &Normal,
) -> Result<Poly<B>, RingFault>
    requires pair { length (pieces_held pieces.now).tops ≡ 2 }
    ensures polynomial { IfOk result (λ poly. ⟦<Poly<B> as Ring>⟧.meaning poly ≡ lifted B.algebra B.forms ((level 2).ops.product
        (list_polynomial (normal_of normal.now).g) ((level 2).ops.sum (top_polynomial (top_at (pieces_held pieces.now) 1))
        ((level 2).ops.neg (top_polynomial (top_at (pieces_held pieces.now) 0)))))) }
    ensures too_large { IfErr result (OnFault (¬ PairInBounds B.algebra B.forms (normal_of normal.now) (pieces_held pieces.now))) }
{
    let (Some(first), Some(second)) = (pieces.top(0), pieces.top(1)) else {
        unreachable!()
    };
    let later = side(alloc, normal.g(), second)?;
    let sooner = side(alloc, normal.g(), first)?;
    later.sub(alloc, &sooner)
}

/// The one side g (p_1 - p_0) of the key equation of a pair, as a polynomial in k over the ring.
///
/// The degrees of g p_0 and g p_1 are tested as for an order. `TooLarge` comes only where they are within the limit and the side, as one
/// operation, is out of bounds.
pub fn pair_side<B: FormRing>(
    alloc: Global,
    pieces: &Pieces,
    normal: &Normal,
) -> Result<Poly<B>, StepFault>
    requires pair { length (pieces_held pieces.now).tops ≡ 2 }
    ensures side { IfOk result (λ side. ⟦<Poly<B> as Ring>⟧.meaning side ∷ [] ≡ map (lifted B.algebra B.forms)
        (sides_of (normal_of normal.now) (pair_top (pieces_held pieces.now)))) }
    ensures low { IfOk result (λ sides. AreLowDegrees (side_degrees (normal_of normal.now) (pieces_held pieces.now))) }
    ensures faults { IfErr result (OnSideFault (side_degrees (normal_of normal.now) (pieces_held pieces.now))
        (PairInBounds B.algebra B.forms (normal_of normal.now) (pieces_held pieces.now))) }
{
    test_degrees(pieces, normal)?;
    match difference(alloc, pieces, normal) {
        Ok(side) => Ok(side),
        Err(fault) => Err(step_fault(fault)),
    }
}
