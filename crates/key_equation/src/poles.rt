//! The poles that Y cancels.

ghost use Rattle.std.specs.Prelude.{◌≡◌, ◌≤◌, [], map, IsFalse, IfOk, IfErr};
ghost use Rattle.ring_laws.specs.Answer.{OnFault};
ghost use Rattle.ring_laws.specs.declared.faults.RingFault.TheVariants.{Memory};
ghost use Rattle.poly_laws.specs.LongDivision.{DivisionInBounds};
ghost use Rattle.poly_laws.specs.PolyAlgebra.{poly_algebra};
ghost use Rattle.poly_laws.specs.Values.{level};
ghost use Rattle.hypergeometric.specs.FactorLists.{power_of, with_factor};
ghost use Rattle.hypergeometric.specs.FormOrder.{IsSorted};
ghost use Rattle.hypergeometric.specs.Products.{list_polynomial};
ghost use Rattle.lin_form.specs.Forms.{form_of};
ghost use Rattle.lin_form.specs.ListOf.{list_of};
ghost use Rattle.key_equation.specs.Cancelling.{IsDividedOut, CancelsInOrder, LeavesInOrder};
ghost use Rattle.key_equation.specs.Polynomials.{form_over};
ghost use Rattle.key_equation.specs.Reckoning.{DividingInBounds, CancellingInBounds};
ghost use Rattle.key_equation.specs.Answers.{AreNeededPoles};

use form_rings::FormRing;
use key_sides::form_to_poly;
use lin_form::{FactorList, LinForm};
use poly_generic::Poly;
use ring_laws::{Domain, Ring, RingFault, Whole};
use std::alloc::Global;

/// What is left of Y and of the poles where forms were divided out of both.
#[derive(Drop)]
pub struct Cancelled<B: Ring> {
    /// What is left of Y.
    pub y: Poly<B>,
    /// The poles that are left.
    pub poles: FactorList,
}

// What is left of a polynomial, and how often another was divided out of it.
#[derive(Drop)]
struct DividedOut<B: Ring> {
    rest: Poly<B>,
    times: u32,
}

// A polynomial divided out of Y as often as it divides it, at most so many times.
fn divide_out<B: Domain>(
    alloc: Global,
    y: Poly<B>,
    by: &Poly<B>,
    powers: u32,
) -> Result<DividedOut<B>, RingFault>
    requires not_zero { IsFalse (⟦<Poly<B> as Ring>⟧.algebra.ops.is_nought (⟦<Poly<B> as Ring>⟧.meaning by.now)) }
    ensures divided { IfOk result (λ divided. IsDividedOut (poly_algebra B.algebra) (⟦<Poly<B> as Ring>⟧.meaning by.now) powers
        (⟦<Poly<B> as Ring>⟧.meaning y) (⟦<Poly<B> as Ring>⟧.meaning divided.rest) divided.times) }
    ensures too_large { IfErr result (OnFault (¬ DividingInBounds (poly_algebra B.algebra) (DivisionInBounds B.algebra B.division_in_bounds)
        (⟦<Poly<B> as Ring>⟧.meaning by.now) powers (⟦<Poly<B> as Ring>⟧.meaning y))) }
{
    let mut rest = y;
    for times in 0..powers {
        match rest.divide_exact(alloc, by)? {
            Some(quotient) => rest = quotient,
            None => return Ok(DividedOut { rest, times }),
        }
    }
    Ok(DividedOut {
        rest,
        times: powers,
    })
}

// The list without forms, of a number.
fn of_scale(alloc: Global, scale: Whole) -> Result<FactorList, RingFault>
    ensures scale { IfOk result (λ list. (list_of list).scale ≡ scale.value) }
    ensures factors { IfOk result (λ list. (list_of list).factors ≡ []) }
    ensures memory { IfErr result (λ fault. fault ≡ Memory) }
{
    let mut list = FactorList::new(alloc)?;
    list.multiply_scale(scale)?;
    Ok(list)
}

// The list with a form besides, where some power is left of the form.
fn with_form(mut list: FactorList, form: LinForm, power: u32) -> Result<FactorList, RingFault>
    requires absent { power_of (form_of form) (list_of list).factors ≡ 0 }
    ensures none { IfOk result (λ longer. power ≡ 0 → (list_of longer).factors ≡ (list_of list).factors) }
    ensures some { IfOk result (λ longer. 1 ≤ power → (list_of longer).factors ≡ with_factor (form_of form) power (list_of list).factors) }
    ensures scale { IfOk result (λ longer. (list_of longer).scale ≡ (list_of list).scale) }
    ensures memory { IfErr result (λ fault. fault ≡ Memory) }
{
    if power > 0 {
        list.multiply(form, power)?;
    }
    Ok(list)
}

// The forms of a list divided out of Y, one after another.
fn cancel_forms<B: FormRing>(
    alloc: Global,
    y: Poly<B>,
    poles: &FactorList,
) -> Result<Cancelled<B>, RingFault>
    requires some { ¬ (list_polynomial (list_of poles.now) ≡ (level 2).ops.nought) }
    ensures cancels { IfOk result (λ cancelled. CancelsInOrder (poly_algebra B.algebra) (form_over B.algebra B.forms) (list_of poles.now).factors
        (⟦<Poly<B> as Ring>⟧.meaning y) (⟦<Poly<B> as Ring>⟧.meaning cancelled.y) (list_of cancelled.poles).factors) }
    ensures scale { IfOk result (λ cancelled. (list_of cancelled.poles).scale ≡ (list_of poles.now).scale) }
    ensures too_large { IfErr result (OnFault (¬ CancellingInBounds (poly_algebra B.algebra) (DivisionInBounds B.algebra B.division_in_bounds)
        (form_over B.algebra B.forms) (list_of poles.now).factors (⟦<Poly<B> as Ring>⟧.meaning y))) }
{
    let mut left = of_scale(alloc, poles.scale())?;
    let mut rest = y;
    for (form, power) in poles.iter() {
        let by = form_to_poly(alloc, form)?;
        let divided = divide_out(alloc, rest, &by, power)?;
        left = with_form(left, form, power - divided.times)?;
        rest = divided.rest;
    }
    Ok(Cancelled {
        y: rest,
        poles: left,
    })
}

/// Y without the pole forms that divide it, and the poles that are left: for each form of the list in its order, while it divides Y and is still
/// among the poles, Y is divided by it and one power of it is taken away. Where Y is zero there are no poles.
///
/// `TooLarge` comes only where a step of one of these divisions is out of bounds.
pub fn cancel_poles<B: FormRing>(
    alloc: Global,
    y: Poly<B>,
    poles: &FactorList,
) -> Result<Cancelled<B>, RingFault>
    requires some { ¬ (list_polynomial (list_of poles.now) ≡ (level 2).ops.nought) }
    ensures leaves { IfOk result (λ cancelled. LeavesInOrder (poly_algebra B.algebra) (form_over B.algebra B.forms) (list_of poles.now).factors
        (⟦<Poly<B> as Ring>⟧.meaning y) (⟦<Poly<B> as Ring>⟧.meaning cancelled.y) (list_of cancelled.poles).factors) }
    ensures scale { IfOk result (λ cancelled. (list_of cancelled.poles).scale ≡ (list_of poles.now).scale) }

    // No pole is left that divides Y.
    ensures needed { IfOk result (λ cancelled. IsSorted (list_of poles.now).factors → AreNeededPoles (poly_algebra B.algebra)
        (form_over B.algebra B.forms) (list_of poles.now).factors (⟦<Poly<B> as Ring>⟧.meaning cancelled.y) (list_of cancelled.poles).factors) }
    ensures too_large { IfErr result (OnFault (¬ (⟦<Poly<B> as Ring>⟧.meaning y ≡ (poly_algebra B.algebra).ops.nought)
        × ¬ CancellingInBounds (poly_algebra B.algebra) (DivisionInBounds B.algebra B.division_in_bounds)
        (form_over B.algebra B.forms) (list_of poles.now).factors (⟦<Poly<B> as Ring>⟧.meaning y))) }
{
    if y.is_zero() {
        let poles = of_scale(alloc, poles.scale())?;
        return Ok(Cancelled { y, poles });
    }
    cancel_forms(alloc, y, poles)
}
