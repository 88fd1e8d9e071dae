//! The two greatest coefficients of q and b.

ghost use Rattle.std.specs.Prelude.{◌≡◌, ◌↔◌, ◌<◌, ◌≤◌, map, [], ◌∷◌, IsTrue, IfOk, IfErr};
ghost use Rattle.ring_laws.specs.Answer.{Gives, OnFault};
ghost use Rattle.ring_laws.specs.Algebra.{SumInBounds};
ghost use Rattle.division_laws.specs.Polynomials.{coefficient_of, coefficient_before};
ghost use Rattle.key_laws.specs.DegreeBounds.{IsGreatestDegree, Agree};
ghost use Rattle.key_laws.proofs.FindingBounds.{IsLeadQuotient};

use poly_generic::Poly;
use ring_laws::{Domain, Ring, RingFault};
use std::alloc::Global;

// The coefficient of a power.
pub(crate) fn coefficient<B: Ring>(alloc: Global, f: &Poly<B>, power: u32) -> Result<B, RingFault>
    ensures gives { Gives B.meaning (coefficient_of B.algebra.ops (⟦<Poly<B> as Ring>⟧.meaning f.now) power) result }
{
    match f.coefficient(power) {
        Some(item) => item.duplicate(alloc),
        None => B::zero(alloc),
    }
}

// The coefficient of the power before, which is zero for the power 0.
fn coefficient_below<B: Ring>(alloc: Global, f: &Poly<B>, power: u32) -> Result<B, RingFault>
    ensures gives { Gives B.meaning (coefficient_before B.algebra.ops (⟦<Poly<B> as Ring>⟧.meaning f.now) power) result }
{
    if power == 0 {
        return B::zero(alloc);
    }
    coefficient(alloc, f, power - 1)
}

// Whether the coefficients of the greatest power of both are the same. Where one has none there, the other's isn't zero.
pub(crate) fn leads_agree<B: Ring>(q: &Poly<B>, b: &Poly<B>, degree: u32) -> bool
    requires greatest { IsGreatestDegree B.algebra.ops
        (⟦<Poly<B> as Ring>⟧.meaning q.now ∷ ⟦<Poly<B> as Ring>⟧.meaning b.now ∷ []) degree }
    ensures agree { IsTrue result ↔ Agree B.algebra.ops (⟦<Poly<B> as Ring>⟧.meaning q.now) (⟦<Poly<B> as Ring>⟧.meaning b.now) degree }
{
    let Some(of_q) = q.coefficient(degree) else {
        return false;
    };
    let Some(of_b) = b.coefficient(degree) else {
        return false;
    };
    of_q.same(of_b)
}

// The whole number of at least 0 that times the lead of both is the difference of the coefficients below.
pub(crate) fn lead_quotient<B: Domain>(
    alloc: Global,
    q: &Poly<B>,
    b: &Poly<B>,
    degree: u32,
) -> Result<Option<u128>, RingFault>
    requires greatest { IsGreatestDegree B.algebra.ops
        (⟦<Poly<B> as Ring>⟧.meaning q.now ∷ ⟦<Poly<B> as Ring>⟧.meaning b.now ∷ []) degree }
    requires agree { Agree B.algebra.ops (⟦<Poly<B> as Ring>⟧.meaning q.now) (⟦<Poly<B> as Ring>⟧.meaning b.now) degree }
    ensures quotient { IfOk result
        (IsLeadQuotient B.algebra.ops (⟦<Poly<B> as Ring>⟧.meaning q.now) (⟦<Poly<B> as Ring>⟧.meaning b.now) degree) }
    ensures too_large { IfErr result (OnFault (¬ (SumInBounds B.algebra
        (coefficient_before B.algebra.ops (⟦<Poly<B> as Ring>⟧.meaning b.now) degree)
        (coefficient_before B.algebra.ops (⟦<Poly<B> as Ring>⟧.meaning q.now) degree)))) }
{
    let of_q = coefficient_below(alloc, q, degree)?;
    let of_b = coefficient_below(alloc, b, degree)?;
    let difference = of_b.sub(alloc, &of_q)?;
    let lead = coefficient(alloc, q, degree)?;
    match difference.whole_quotient(&lead) {
        Some(found) => Ok(u128::try_from(found.value()).ok()),
        None => Ok(None),
    }
}
