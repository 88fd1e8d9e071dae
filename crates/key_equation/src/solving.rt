//! The solution of an order's key equation, or that there is none.

ghost use Rattle.std.specs.Prelude.{◌≡◌, ◌≤◌, ◌+◌, ℕ, map, length, IfOk, IfErr, Option, ⊤};
ghost use Rattle.either.specs.Either.{MatchEither};
ghost use Rattle.ring_laws.specs.Answer.{OnFault};
ghost use Rattle.poly_laws.specs.LongDivision.{DivisionInBounds};
ghost use Rattle.poly_laws.specs.PolyAlgebra.{poly_algebra};
ghost use Rattle.poly_laws.specs.Values.{level};
ghost use Rattle.key_laws.specs.KeyEquation.{InsolubleWith};
ghost use Rattle.key_laws.specs.DegreeBounds.{IsDegreeBound, coefficient_count};
ghost use Rattle.hypergeometric.specs.FormOrder.{IsSorted};
ghost use Rattle.hypergeometric.specs.Products.{list_polynomial};
ghost use Rattle.lin_form.specs.ListOf.{list_of};
ghost use Rattle.gosper_form.specs.NormalView.{normal_of};
ghost use Rattle.key_sides.specs.Powers.{PowersInBounds};
ghost use Rattle.key_sides.specs.ListPowers.{list_powers, list_before};
ghost use Rattle.key_system.specs.Answers.{AreFewColumns, OnStepFault};
ghost use Rattle.key_equation.specs.Cancelling.{LeavesInOrder};
ghost use Rattle.key_equation.specs.Polynomials.{form_over, q_over, b_over, IsOfQuotient};
ghost use Rattle.key_equation.specs.Reckoning.{CancellingInBounds, OrderInBounds};
ghost use Rattle.key_equation.specs.Answers.{AreNeededPoles, IsSolution, IsCertified, HasNoRationalCertificate};

use crate::poles::cancel_poles;
use either::Either;
use form_rings::FormRing;
use gosper_form::Normal;
use key_sides::{to_poly, to_poly_before};
use key_system::{Insoluble, Solved};
use lin_form::FactorList;
use poly_generic::Poly;
use reducing::Reducing;
use ring_laws::{Ring, RingFault};
use std::alloc::Global;
use steps::{StepFault, step_fault};

/// A solution of the key equation in which a multiplier isn't zero, with the poles that are left of the chains.
#[derive(Drop)]
pub struct Solution<B: Ring> {
    /// The multipliers of the sides.
    pub multipliers: Vec<B>,
    /// What is left of the polynomial Y in k where pole forms were divided out.
    pub y: Poly<B>,
    /// The poles that are left.
    pub poles: FactorList,
}

// q(k) and r(k-1).
#[derive(Drop)]
struct Outer<B: Ring> {
    q: Poly<B>,
    b: Poly<B>,
}

// q(k) and r(k-1) of a normal form, multiplied out.
fn outer_polynomials<B: FormRing>(alloc: Global, normal: &Normal) -> Result<Outer<B>, RingFault>
    ensures q { IfOk result (λ outer. ⟦<Poly<B> as Ring>⟧.meaning outer.q ≡ q_over B.algebra B.forms (normal_of normal.now)) }
    ensures b { IfOk result (λ outer. ⟦<Poly<B> as Ring>⟧.meaning outer.b ≡ b_over B.algebra B.forms (normal_of normal.now)) }
    ensures too_large { IfErr result (OnFault (¬ (PowersInBounds (poly_algebra B.algebra) (list_powers B.algebra B.forms (normal_of normal.now).q)
        × PowersInBounds (poly_algebra B.algebra) (list_powers B.algebra B.forms (list_before (normal_of normal.now).r))))) }
{
    let q = to_poly(alloc, normal.q())?;
    let b = to_poly_before(alloc, normal.r())?;
    Ok(Outer { q, b })
}

// The solution without the poles that Y cancels.
fn without_poles<B: FormRing>(
    alloc: Global,
    solved: Solved<B>,
    poles: &FactorList,
) -> Result<Solution<B>, RingFault>
    requires some { ¬ (list_polynomial (list_of poles.now) ≡ (level 2).ops.nought) }
    ensures multipliers { IfOk result (λ solution. map B.meaning solution.multipliers.items ≡ map B.meaning solved.multipliers.items) }
    ensures leaves { IfOk result (λ solution. LeavesInOrder (poly_algebra B.algebra) (form_over B.algebra B.forms) (list_of poles.now).factors
        (⟦<Poly<B> as Ring>⟧.meaning solved.y) (⟦<Poly<B> as Ring>⟧.meaning solution.y) (list_of solution.poles).factors) }
    ensures scale { IfOk result (λ solution. (list_of solution.poles).scale ≡ (list_of poles.now).scale) }
    ensures needed { IfOk result (λ solution. IsSorted (list_of poles.now).factors → AreNeededPoles (poly_algebra B.algebra)
        (form_over B.algebra B.forms) (list_of poles.now).factors (⟦<Poly<B> as Ring>⟧.meaning solution.y) (list_of solution.poles).factors) }
    ensures too_large { IfErr result (OnFault (¬ (⟦<Poly<B> as Ring>⟧.meaning solved.y ≡ (poly_algebra B.algebra).ops.nought)
        × ¬ CancellingInBounds (poly_algebra B.algebra) (DivisionInBounds B.algebra B.division_in_bounds)
        (form_over B.algebra B.forms) (list_of poles.now).factors (⟦<Poly<B> as Ring>⟧.meaning solved.y))) }
{
    let cancelled = cancel_poles(alloc, solved.y, poles)?;
    Ok(Solution {
        multipliers: solved.multipliers,
        y: cancelled.y,
        poles: cancelled.poles,
    })
}

/// The solution of the key equation of a normal form and sides whose last multiplier that isn't zero stands at the least place that there is,
/// with a positive lead there, and with the pole forms that divide Y cancelled; or that no Y of any degree solves the equation with
/// multipliers that aren't all zero.
///
/// `Limit` comes exactly where there are more than 48 columns, `TooLarge` only where a step is out of bounds: the products that make q(k) and
/// r(k-1), the steps of the key equation, and the divisions of Y.
pub fn solve<B: FormRing + Reducing>(
    alloc: Global,
    normal: &Normal,
    sides: &[Poly<B>],
) -> Result<Either<Solution<B>, Insoluble>, StepFault>
    requires some { 1 ≤ length sides.now }
    requires quotient { IsOfQuotient (normal_of normal.now) }
    ensures soluble { IfOk result (λ answer. MatchEither answer
        (λ solution. ¬ (InsolubleWith B.algebra (q_over B.algebra B.forms (normal_of normal.now)) (b_over B.algebra B.forms (normal_of normal.now))
        (map ⟦<Poly<B> as Ring>⟧.meaning sides.now)))
        (λ insoluble. InsolubleWith B.algebra (q_over B.algebra B.forms (normal_of normal.now)) (b_over B.algebra B.forms (normal_of normal.now))
        (map ⟦<Poly<B> as Ring>⟧.meaning sides.now))) }

    // Then there is no rational certificate either.
    ensures no_certificate { IfOk result (λ answer. MatchEither answer (λ solution. ⊤)
        (λ insoluble. HasNoRationalCertificate B.algebra B.forms (normal_of normal.now) (map ⟦<Poly<B> as Ring>⟧.meaning sides.now))) }
    ensures bound { IfOk result (λ answer. MatchEither answer (λ solution. ⊤)
        (λ insoluble. IsDegreeBound B.algebra.ops (q_over B.algebra B.forms (normal_of normal.now)) (b_over B.algebra B.forms (normal_of normal.now))
        (map ⟦<Poly<B> as Ring>⟧.meaning sides.now) insoluble.bound)) }

    // The key equation holds of Y before it is divided, and of what is left the identity of a certificate.
    ensures solution { IfOk result (λ answer. MatchEither answer
        (λ solution. IsSolution B.algebra B.reduction B.forms (normal_of normal.now) (map ⟦<Poly<B> as Ring>⟧.meaning sides.now)
        (⟦<Poly<B> as Ring>⟧.meaning solution.y) (map B.meaning solution.multipliers.items) (list_of solution.poles).factors) (λ insoluble. ⊤)) }
    ensures certificate { IfOk result (λ answer. MatchEither answer
        (λ solution. IsCertified B.algebra B.forms (normal_of normal.now) (map ⟦<Poly<B> as Ring>⟧.meaning sides.now)
        (⟦<Poly<B> as Ring>⟧.meaning solution.y) (map B.meaning solution.multipliers.items) (list_of solution.poles)) (λ insoluble. ⊤)) }
    ensures poles { IfOk result (λ answer. MatchEither answer
        (λ solution. AreNeededPoles (poly_algebra B.algebra) (form_over B.algebra B.forms) (normal_of normal.now).poles.factors
        (⟦<Poly<B> as Ring>⟧.meaning solution.y) (list_of solution.poles).factors) (λ insoluble. ⊤)) }
    ensures scale { IfOk result (λ answer. MatchEither answer
        (λ solution. (list_of solution.poles).scale ≡ (normal_of normal.now).poles.scale) (λ insoluble. ⊤)) }
    ensures few { IfOk result (λ answer. (bound : Option ℕ) → IsDegreeBound B.algebra.ops (q_over B.algebra B.forms (normal_of normal.now))
        (b_over B.algebra B.forms (normal_of normal.now)) (map ⟦<Poly<B> as Ring>⟧.meaning sides.now) bound →
        AreFewColumns (coefficient_count bound + length sides.now)) }
    ensures faults { IfErr result (λ fault. (bound : Option ℕ) → IsDegreeBound B.algebra.ops (q_over B.algebra B.forms (normal_of normal.now))
        (b_over B.algebra B.forms (normal_of normal.now)) (map ⟦<Poly<B> as Ring>⟧.meaning sides.now) bound →
        OnStepFault (coefficient_count bound + length sides.now) (OrderInBounds B.division_in_bounds B.algebra B.reduction B.forms
        (normal_of normal.now) (map ⟦<Poly<B> as Ring>⟧.meaning sides.now)) fault) }
{
    let outer = match outer_polynomials(alloc, normal) {
        Ok(outer) => outer,
        Err(fault) => return Err(step_fault(fault)),
    };
    match key_system::solve(alloc, &outer.q, &outer.b, sides)? {
        Either::Left(solved) => match without_poles(alloc, solved, normal.poles()) {
            Ok(solution) => Ok(Either::Left(solution)),
            Err(fault) => Err(step_fault(fault)),
        },
        Either::Right(insoluble) => Ok(Either::Right(insoluble)),
    }
}
