//! The degree bound.

ghost use Rattle.std.specs.Prelude.{◌≡◌, ◌≤◌, map, [], ◌∷◌, IsFalse, IfOk, List, Option, ℕ};
ghost use Rattle.kernel_laws.specs.Answers.{Vector, meant};
ghost use Rattle.division_laws.specs.Polynomials.{Polynomial};
ghost use Rattle.key_laws.specs.KeyEquation.{SolvesWith};
ghost use Rattle.key_laws.specs.DegreeBounds.{IsWithin, IsGreatestDegree};
ghost use Rattle.key_system.specs.Answers.{GivesBound};

use crate::degrees::{degree_difference, greater_of};
use crate::leads::{lead_quotient, leads_agree};
use poly_generic::Poly;
use ring_laws::{Domain, Ring, RingFault};
use std::alloc::Global;

// The greater of the degrees of q and b.
fn greatest_degree<B: Ring>(q: &Poly<B>, b: &Poly<B>) -> u32
    requires not_zero { IsFalse (⟦<Poly<B> as Ring>⟧.algebra.ops.is_nought (⟦<Poly<B> as Ring>⟧.meaning q.now)) }
    ensures greatest { IsGreatestDegree B.algebra.ops
        (⟦<Poly<B> as Ring>⟧.meaning q.now ∷ ⟦<Poly<B> as Ring>⟧.meaning b.now ∷ []) result }
    ensures small { result ≤ 255 }
{
    (q.coefficients().len().max(b.coefficients().len()) - 1) as u32
}

/// The greatest degree that Y can have, whatever the multipliers are; none where Y can only be zero.
///
/// `TooLarge` comes only where the leads of q and b are the same and the difference of the coefficients below them is out of bounds.
pub fn degree_bound<B: Domain>(
    alloc: Global,
    q: &Poly<B>,
    b: &Poly<B>,
    sides: &[Poly<B>],
) -> Result<Option<u128>, RingFault>
    requires not_zero { IsFalse (⟦<Poly<B> as Ring>⟧.algebra.ops.is_nought (⟦<Poly<B> as Ring>⟧.meaning q.now)) }
    ensures bound { GivesBound B.algebra (⟦<Poly<B> as Ring>⟧.meaning q.now) (⟦<Poly<B> as Ring>⟧.meaning b.now)
        (map ⟦<Poly<B> as Ring>⟧.meaning sides.now) result }

    // Every solution is within the bound.
    ensures within { IfOk result (λ bound. (y : Polynomial B.algebra) (multipliers : Vector B.algebra) →
        SolvesWith B.algebra.ops (⟦<Poly<B> as Ring>⟧.meaning q.now) (⟦<Poly<B> as Ring>⟧.meaning b.now)
        (map ⟦<Poly<B> as Ring>⟧.meaning sides.now) y.0 (meant B.algebra multipliers) → IsWithin B.algebra.ops bound y.0) }
{
    let degree = greatest_degree(q, b);
    if !leads_agree(q, b, degree) {
        return Ok(degree_difference(sides, degree as usize, 0));
    }
    let by_leads = lead_quotient(alloc, q, b, degree)?;
    let by_degrees = degree_difference(sides, degree as usize, 1);
    Ok(greater_of(by_degrees, by_leads))
}
