//! The solution of the key equation, or that there is none.

ghost use Rattle.std.specs.Prelude.{◌≡◌, ◌≢◌, ◌<◌, ◌≤◌, ◌+◌, ◌-◌, ℕ, map, length, IsFalse, IfOk, IfErr, Option, ⊤};
ghost use Rattle.either.specs.Either.{MatchEither};
ghost use Rattle.ring_laws.specs.declared.faults.RingFault.TheVariants.{Memory};
ghost use Rattle.kernel_laws.specs.Rows.{entry_at};
ghost use Rattle.key_laws.specs.KeyEquation.{InsolubleWith};
ghost use Rattle.key_laws.specs.DegreeBounds.{IsDegreeBound, coefficient_count};
ghost use Rattle.key_system.specs.Reckoning.{SolvingInBounds};
ghost use Rattle.key_system.specs.Solved.{AreParts, IsChosen};
ghost use Rattle.key_system.specs.Answers.{AreFewColumns, OnStepFault, IsLeastWithSign};

use crate::bounds::degree_bound;
use crate::faults::stepped;
use crate::rows::{coefficients_within, key_rows};
use crate::vectors::{parts, with_sign};
use either::Either;
use form_rings::FormRing;
use fraction_free::{Kernel, eliminate};
use poly_generic::Poly;
use reducing::Reducing;
use ring_laws::{Ring, RingFault};
use std::alloc::Global;
use steps::StepFault;

/// A solution in which a multiplier isn't zero.
#[derive(Drop)]
pub struct Solved<B: Ring> {
    /// The multipliers of the sides.
    pub multipliers: Vec<B>,
    /// The polynomial Y in k.
    pub y: Poly<B>,
}

/// No solution of any degree has a multiplier that isn't zero.
#[derive(Clone, Copy, Debug, PartialEq, Eq, Drop)]
pub struct Insoluble {
    /// The degree bound.
    pub bound: Option<u32>,
}

// The solution that the vector is, with its sign.
fn solution_of<B: FormRing>(
    alloc: Global,
    kernel: Kernel<B>,
    count: usize,
) -> Result<Solved<B>, RingFault>
    requires within { kernel.free < length kernel.vector.items }
    requires not_zero { entry_at B.algebra.ops (map B.meaning kernel.vector.items) kernel.free ≢ B.algebra.ops.nought }
    requires room { count ≤ length kernel.vector.items }
    requires few { count ≤ 256 }
    ensures parts { IfOk result (λ solved. AreParts B.algebra B.forms (map B.meaning kernel.vector.items) kernel.free count
        (length kernel.vector.items - count) (⟦<Poly<B> as Ring>⟧.meaning solved.y) (map B.meaning solved.multipliers.items)) }
    ensures memory { IfErr result (λ fault. fault ≡ Memory) }
{
    let vector = with_sign(alloc, kernel.vector, kernel.free as usize)?;
    parts(vector, count)
}

// A bound that leaves few coefficients.
fn small_bound(bound: Option<u128>) -> Option<u32>
    requires small { coefficient_count bound ≤ 48 }
    ensures same { result ≡ bound }
{
    match bound {
        Some(degree) => Some(degree as u32),
        None => None,
    }
}

/// The solution whose last multiplier that isn't zero stands at the least place that there is, as the steps of elimination give it, with a
/// positive lead there; or that there is no solution, of any degree, in which a multiplier isn't zero.
///
/// `Limit` comes exactly where there are more than 48 columns, `TooLarge` only where a step of the bound, the rows or the elimination is out of
/// bounds.
pub fn solve<B: FormRing + Reducing>(
    alloc: Global,
    q: &Poly<B>,
    b: &Poly<B>,
    sides: &[Poly<B>],
) -> Result<Either<Solved<B>, Insoluble>, StepFault>
    requires some { 1 ≤ length sides.now }
    requires not_zero { IsFalse (⟦<Poly<B> as Ring>⟧.algebra.ops.is_nought (⟦<Poly<B> as Ring>⟧.meaning q.now)) }
    ensures soluble { IfOk result (λ answer. MatchEither answer
        (λ solved. ¬ (InsolubleWith B.algebra (⟦<Poly<B> as Ring>⟧.meaning q.now) (⟦<Poly<B> as Ring>⟧.meaning b.now)
        (map ⟦<Poly<B> as Ring>⟧.meaning sides.now)))
        (λ insoluble. InsolubleWith B.algebra (⟦<Poly<B> as Ring>⟧.meaning q.now) (⟦<Poly<B> as Ring>⟧.meaning b.now)
        (map ⟦<Poly<B> as Ring>⟧.meaning sides.now))) }
    ensures least { IfOk result (λ answer. MatchEither answer
        (λ solved. IsLeastWithSign B.algebra B.forms (⟦<Poly<B> as Ring>⟧.meaning q.now) (⟦<Poly<B> as Ring>⟧.meaning b.now)
        (map ⟦<Poly<B> as Ring>⟧.meaning sides.now) (⟦<Poly<B> as Ring>⟧.meaning solved.y) (map B.meaning solved.multipliers.items))
        (λ insoluble. ⊤)) }

    // It is the one that the steps give.
    ensures chosen { IfOk result (λ answer. MatchEither answer
        (λ solved. IsChosen B.algebra B.reduction B.forms (⟦<Poly<B> as Ring>⟧.meaning q.now) (⟦<Poly<B> as Ring>⟧.meaning b.now)
        (map ⟦<Poly<B> as Ring>⟧.meaning sides.now) (⟦<Poly<B> as Ring>⟧.meaning solved.y) (map B.meaning solved.multipliers.items))
        (λ insoluble. ⊤)) }
    ensures bound { IfOk result (λ answer. MatchEither answer (λ solved. ⊤)
        (λ insoluble. IsDegreeBound B.algebra.ops (⟦<Poly<B> as Ring>⟧.meaning q.now) (⟦<Poly<B> as Ring>⟧.meaning b.now)
        (map ⟦<Poly<B> as Ring>⟧.meaning sides.now) insoluble.bound)) }
    ensures few { IfOk result (λ answer. (bound : Option ℕ) → IsDegreeBound B.algebra.ops (⟦<Poly<B> as Ring>⟧.meaning q.now)
        (⟦<Poly<B> as Ring>⟧.meaning b.now) (map ⟦<Poly<B> as Ring>⟧.meaning sides.now) bound →
        AreFewColumns (coefficient_count bound + length sides.now)) }
    ensures faults { IfErr result (λ fault. (bound : Option ℕ) → IsDegreeBound B.algebra.ops (⟦<Poly<B> as Ring>⟧.meaning q.now)
        (⟦<Poly<B> as Ring>⟧.meaning b.now) (map ⟦<Poly<B> as Ring>⟧.meaning sides.now) bound →
        OnStepFault (coefficient_count bound + length sides.now)
        (SolvingInBounds B.division_in_bounds B.algebra B.reduction (⟦<Poly<B> as Ring>⟧.meaning q.now) (⟦<Poly<B> as Ring>⟧.meaning b.now)
        (map ⟦<Poly<B> as Ring>⟧.meaning sides.now)) fault) }
{
    let bound = stepped(degree_bound(alloc, q, b, sides))?;
    let rows = key_rows(alloc, q, b, sides, bound)?;
    let first = coefficients_within(bound) as u32;
    let columns = first + sides.len() as u32;
    match stepped(eliminate(alloc, rows, columns, first))? {
        Either::Left(kernel) => {
            let solved = stepped(solution_of(alloc, kernel, first as usize))?;
            Ok(Either::Left(solved))
        }
        Either::Right(_) => Ok(Either::Right(Insoluble {
            bound: small_bound(bound),
        })),
    }
}
