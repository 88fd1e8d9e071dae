//! The mathematics of Gosper's key equation, over the polynomials in k over any domain (A=B chapters 5 and 6).
//!
//! `specs/` has the definitions, `proofs/` the laws. The functions here do nothing: their contracts are the laws.
//! Read `specs/KeyEquation.antt`, `specs/DegreeBounds.antt` and `specs/KeyRows.antt` first, then `specs/Solutions.antt`, `specs/EvaluatedRows.antt`
//! (one value that shows an equation insoluble) and `specs/Certificates.antt` (rational solutions).
#![tactic(auto)]

ghost use Rattle.std.specs.Prelude.{◌≡◌, ◌+◌, ◌-◌, ◌<◌, ◌≤◌, ℕ, List, Option, length, map};
ghost use Rattle.ring_laws.specs.Meaning.{Meaning};
ghost use Rattle.ring_laws.specs.Algebra.{Passing};
ghost use Rattle.poly_laws.specs.PolyAlgebra.{poly_algebra};
ghost use Rattle.kernel_laws.specs.Rows.{entry_at, InKernel};
ghost use Rattle.kernel_laws.specs.Reduction.{bare};
ghost use Rattle.kernel_laws.specs.Answers.{Vector, meant, FreeVector, AllPivots};
ghost use Rattle.key_laws.specs.EvaluatedRows.{rows_at};
ghost use Rattle.division_laws.specs.Polynomials.{Polynomial, coefficient_of};
ghost use Rattle.key_laws.specs.KeyEquation.{meanings, SolvesWith, InsolubleWith};
ghost use Rattle.key_laws.specs.DegreeBounds.{coefficient_count, IsDegreeBound, IsWithin};
ghost use Rattle.key_laws.specs.KeyRows.{key_rows, polynomial_of, unknowns};
ghost use Rattle.key_laws.specs.Solutions.{IsLeastSolution};

use ring_laws::{Domain, Ring};

/// Every solution of the key equation, whatever its multipliers are, has at most the degree of the bound, and is zero where there is
/// none; and there is one bound.
pub fn solutions_are_within_the_bound<R: Domain>()
    ensures within { (q b y : Polynomial R.algebra) (sides : List (Polynomial R.algebra)) (multipliers : Vector R.algebra) (bound : Option ℕ)
        → IsDegreeBound R.algebra.ops q.0 b.0 (meanings R.algebra sides) bound
        → SolvesWith R.algebra.ops q.0 b.0 (meanings R.algebra sides) y.0 (meant R.algebra multipliers) → IsWithin R.algebra.ops bound y.0 }
    ensures only { (q b : Meaning) (sides : List Meaning) (bound other : Option ℕ) → IsDegreeBound R.algebra.ops q b sides bound
        → IsDegreeBound R.algebra.ops q b sides other → bound ≡ other }
{}

/// The vectors of the kernel of the key rows are exactly the solutions with so few coefficients: first the coefficients of Y, and then
/// the multipliers.
pub fn kernel_vectors_are_solutions<R: Ring>()
    ensures solves { (q b : Polynomial R.algebra) (sides : List (Polynomial R.algebra)) (n : ℕ) (v : Vector R.algebra)
        → InKernel R.algebra.ops (n + length sides) (key_rows R.algebra.ops q.0 b.0 n (meanings R.algebra sides)) (meant R.algebra v)
        → SolvesWith R.algebra.ops q.0 b.0 (meanings R.algebra sides) (polynomial_of R.algebra.ops n (meant R.algebra v))
        (λ j. meant R.algebra v (n + j)) }
    ensures all { (q b : Polynomial R.algebra) (sides : List (Polynomial R.algebra)) (n : ℕ) (y : Polynomial R.algebra) (multipliers : Vector R.algebra)
        → SolvesWith R.algebra.ops q.0 b.0 (meanings R.algebra sides) y.0 (meant R.algebra multipliers)
        → ((i : ℕ) → n ≤ i → coefficient_of R.algebra.ops y.0 i ≡ R.algebra.ops.nought)
        → InKernel R.algebra.ops (n + length sides) (key_rows R.algebra.ops q.0 b.0 n (meanings R.algebra sides))
        (unknowns R.algebra.ops n y.0 (meant R.algebra multipliers)) }
{}

/// Pivots in all columns of multipliers: the key equation is insoluble.
pub fn pivots_leave_no_solution<R: Domain>()
    ensures insoluble { (q b : Polynomial R.algebra) (sides : List (Polynomial R.algebra)) (bound : Option ℕ)
        → IsDegreeBound R.algebra.ops q.0 b.0 (meanings R.algebra sides) bound → (rank : ℕ)
        → AllPivots R.algebra (coefficient_count bound + length sides) (coefficient_count bound)
        (key_rows R.algebra.ops q.0 b.0 (coefficient_count bound) (meanings R.algebra sides)) rank
        → InsolubleWith R.algebra q.0 b.0 (meanings R.algebra sides) }
{}

/// The vector of the first free column of a multiplier is a solution whose last multiplier that isn't zero stands as early as it can; so
/// the key equation isn't insoluble.
pub fn free_vectors_are_least_solutions<R: Domain>()
    ensures least { (q b : Polynomial R.algebra) (sides : List (Polynomial R.algebra)) (bound : Option ℕ)
        → IsDegreeBound R.algebra.ops q.0 b.0 (meanings R.algebra sides) bound → (row : List (Passing R.algebra)) (free : ℕ)
        → FreeVector R.algebra (coefficient_count bound + length sides) (coefficient_count bound)
        (key_rows R.algebra.ops q.0 b.0 (coefficient_count bound) (meanings R.algebra sides)) (bare R.algebra row) free
        → IsLeastSolution R.algebra q.0 b.0 (meanings R.algebra sides)
        (polynomial_of R.algebra.ops (coefficient_count bound) (entry_at R.algebra.ops (bare R.algebra row)))
        (λ j. entry_at R.algebra.ops (bare R.algebra row) (coefficient_count bound + j)) (free - coefficient_count bound) }
    ensures soluble { (q b : Polynomial R.algebra) (sides : List (Polynomial R.algebra)) (bound : Option ℕ)
        → IsDegreeBound R.algebra.ops q.0 b.0 (meanings R.algebra sides) bound → (row : List (Passing R.algebra)) (free : ℕ)
        → FreeVector R.algebra (coefficient_count bound + length sides) (coefficient_count bound)
        (key_rows R.algebra.ops q.0 b.0 (coefficient_count bound) (meanings R.algebra sides)) (bare R.algebra row) free
        → ¬ InsolubleWith R.algebra q.0 b.0 (meanings R.algebra sides) }
{}

/// Where the values of rows of polynomials at one value of the variable have a pivot in each column, each vector of polynomials that the
/// rows send to zero is zero.
pub fn one_value_shows_the_kernel_empty<R: Domain>()
    ensures zero { (columns : ℕ) (rows : List (List (Passing (poly_algebra R.algebra)))) (value : Passing R.algebra) (rank : ℕ)
        → AllPivots R.algebra columns 0 (rows_at R.algebra.ops value.0 (map (bare (poly_algebra R.algebra)) rows)) rank
        → (w : Vector (poly_algebra R.algebra))
        → InKernel (poly_algebra R.algebra).ops columns (map (bare (poly_algebra R.algebra)) rows) (meant (poly_algebra R.algebra) w)
        → (k : ℕ) → k < columns → (w k).0 ≡ (poly_algebra R.algebra).ops.nought }
{}

/// Over the polynomials in n: where the values of the key rows at one value of n have a pivot in each column, the key equation is
/// insoluble.
pub fn one_value_shows_no_solution<R: Domain>()
    ensures insoluble { (q b : Polynomial (poly_algebra R.algebra)) (sides : List (Polynomial (poly_algebra R.algebra))) (bound : Option ℕ)
        → IsDegreeBound (poly_algebra R.algebra).ops q.0 b.0 (meanings (poly_algebra R.algebra) sides) bound
        → (value : Passing R.algebra) (rank : ℕ)
        → AllPivots R.algebra (coefficient_count bound + length sides) 0
        (rows_at R.algebra.ops value.0
        (key_rows (poly_algebra R.algebra).ops q.0 b.0 (coefficient_count bound) (meanings (poly_algebra R.algebra) sides))) rank
        → InsolubleWith (poly_algebra R.algebra) q.0 b.0 (meanings (poly_algebra R.algebra) sides) }
{}
