//! The rows of the system: one for each power of k, from the greatest down, without rows of zeros.

ghost use Rattle.std.specs.Prelude.{◌≡◌, ◌≤◌, ◌+◌, ◌-◌, ◌++◌, ◌^◌, min, map, length, IsFalse, IfOk, IfErr, All, ⊤, ℕ, []};
ghost use Rattle.ring_laws.specs.Meaning.{items};
ghost use Rattle.poly_generic.specs.ListAnswer.{GivesList};
ghost use Rattle.kernel_laws.specs.Rows.{InKernel};
ghost use Rattle.kernel_laws.specs.Answers.{Vector, meant};
ghost use Rattle.division_laws.specs.Polynomials.{Polynomial, coefficient_of};
ghost use Rattle.key_laws.specs.KeyEquation.{SolvesWith};
ghost use Rattle.key_laws.specs.DegreeBounds.{coefficient_count};
ghost use Rattle.key_laws.specs.KeyRows.{row_at as row_meant, rows_below, longest, with_row as with_row_meant, key_rows as key_rows_meant, polynomial_of, unknowns};
ghost use Rattle.fraction_free.specs.RowAnswers.{rows_meant, GivesRows};
ghost use Rattle.steps.specs.declared.faults.StepFault.TheVariants.{TooLarge};
ghost use Rattle.steps.specs.StepFaults.{step_cause};
ghost use Rattle.steps.specs.Answers.{Answers};
ghost use Rattle.steps.specs.Steps.{within_limit};
ghost use Rattle.steps.specs.declared.limits.LimitName.TheVariants.{Columns};
ghost use Rattle.key_system.specs.Reckoning.{RowsInBounds};
ghost use Rattle.key_system.specs.Answers.{AreFewColumns, OnStepFault};

use crate::columns::columns_of;
use crate::degrees::greatest_length;
use crate::faults::stepped;
use crate::leads::coefficient;
use poly_generic::{Poly, all_zero};
use ring_laws::{Domain, Ring, RingFault};
use std::alloc::Global;
use steps::{LimitName, StepFault};

// The coefficients of a power of k, column by column.
fn row_at<B: Ring>(alloc: Global, columns: &[Poly<B>], power: u32) -> Result<Vec<B>, RingFault>
    ensures gives { GivesList B.meaning ⊤ (row_meant B.algebra.ops (map items (map ⟦<Poly<B> as Ring>⟧.meaning columns.now)) power) result }
{
    let mut row = Vec::new(alloc);
    for column in columns {
        let item = coefficient(alloc, column, power)?;
        row.push(item)?;
    }
    Ok(row)
}

// The rows with one more behind them, which is left out where it has zeros alone.
fn with_row<B: Ring>(rows: Vec<Vec<B>>, row: Vec<B>) -> Result<Vec<Vec<B>>, RingFault>
    ensures rows { GivesRows B.meaning
        (λ found. found ≡ rows_meant B.meaning rows.items ++ with_row_meant B.algebra.ops (map B.meaning row.items) []) ⊤ result }
{
    let mut rows = rows;
    if !all_zero(&row) {
        rows.push(row)?;
    }
    Ok(rows)
}

// The rows of all powers of k.
fn rows_of<B: Ring>(alloc: Global, columns: &[Poly<B>]) -> Result<Vec<Vec<B>>, RingFault>
    ensures rows { GivesRows B.meaning
        (λ found. found ≡ rows_below B.algebra.ops (map items (map ⟦<Poly<B> as Ring>⟧.meaning columns.now))
        (longest (map items (map ⟦<Poly<B> as Ring>⟧.meaning columns.now)))) ⊤ result }
{
    let mut rows = Vec::new(alloc);
    let mut power = greatest_length(columns);
    while power > 0 {
        power -= 1;
        let row = row_at(alloc, columns, power as u32)?;
        rows = with_row(rows, row)?;
    }
    Ok(rows)
}

// How many coefficients Y can have, up to 2^128 - 1.
pub(crate) fn coefficients_within(bound: Option<u128>) -> u128
    ensures count { result ≡ min (coefficient_count bound) (2 ^ 128 - 1) }
{
    match bound {
        Some(degree) => degree.saturating_add(1),
        None => 0,
    }
}

// Whether so many columns are within their limit.
fn test_columns(columns: u128) -> Result<(), StepFault>
    ensures answers { Answers step_cause (λ _. tt {0}) (within_limit Columns columns (tt {0})) result }
{
    let name = LimitName::Columns;
    let counted = columns.min(u128::from(u64::MAX)) as u64;
    if counted > name.greatest_count() {
        return Err(StepFault::Limit { name, counted });
    }
    Ok(())
}

/// The rows of the key equation with the coefficients of Y up to the bound: one for each power of k from the greatest down, without rows of zeros.
///
/// `Limit` comes exactly where there are more than 48 columns, `TooLarge` only where a column is out of bounds.
pub fn key_rows<B: Domain>(
    alloc: Global,
    q: &Poly<B>,
    b: &Poly<B>,
    sides: &[Poly<B>],
    bound: Option<u128>,
) -> Result<Vec<Vec<B>>, StepFault>
    requires not_zero { IsFalse (⟦<Poly<B> as Ring>⟧.algebra.ops.is_nought (⟦<Poly<B> as Ring>⟧.meaning q.now)) }
    ensures rows { IfOk result (λ rows. rows_meant B.meaning rows.items ≡ key_rows_meant B.algebra.ops (⟦<Poly<B> as Ring>⟧.meaning q.now)
        (⟦<Poly<B> as Ring>⟧.meaning b.now) (coefficient_count bound) (map ⟦<Poly<B> as Ring>⟧.meaning sides.now)) }
    ensures sizes { IfOk result (λ rows. All (λ row. length row.items ≡ coefficient_count bound + length sides.now) rows.items) }
    ensures few { IfOk result (λ rows. AreFewColumns (coefficient_count bound + length sides.now)) }
    ensures faults { IfErr result (OnStepFault (coefficient_count bound + length sides.now)
        (RowsInBounds B.algebra (⟦<Poly<B> as Ring>⟧.meaning q.now) (⟦<Poly<B> as Ring>⟧.meaning b.now) (coefficient_count bound))) }

    // The columns are counted before anything is multiplied.
    ensures few_before { IfErr result (λ fault. fault ≡ TooLarge → AreFewColumns (coefficient_count bound + length sides.now)) }

    // The vectors of the kernel are exactly the solutions within the bound: the coefficients of Y, and then the multipliers.
    ensures solves { IfOk result (λ rows. (v : Vector B.algebra) →
        InKernel B.algebra.ops (coefficient_count bound + length sides.now) (rows_meant B.meaning rows.items) (meant B.algebra v) →
        SolvesWith B.algebra.ops (⟦<Poly<B> as Ring>⟧.meaning q.now) (⟦<Poly<B> as Ring>⟧.meaning b.now)
        (map ⟦<Poly<B> as Ring>⟧.meaning sides.now) (polynomial_of B.algebra.ops (coefficient_count bound) (meant B.algebra v))
        (λ j. meant B.algebra v (coefficient_count bound + j))) }
    ensures all { IfOk result (λ rows. (y : Polynomial B.algebra) (multipliers : Vector B.algebra) →
        SolvesWith B.algebra.ops (⟦<Poly<B> as Ring>⟧.meaning q.now) (⟦<Poly<B> as Ring>⟧.meaning b.now)
        (map ⟦<Poly<B> as Ring>⟧.meaning sides.now) y.0 (meant B.algebra multipliers) →
        ((i : ℕ) → coefficient_count bound ≤ i → coefficient_of B.algebra.ops y.0 i ≡ B.algebra.ops.nought) →
        InKernel B.algebra.ops (coefficient_count bound + length sides.now) (rows_meant B.meaning rows.items)
        (unknowns B.algebra.ops (coefficient_count bound) y.0 (meant B.algebra multipliers))) }
{
    let count = coefficients_within(bound);
    test_columns(count.saturating_add(sides.len() as u128))?;
    let columns = stepped(columns_of(alloc, q, b, sides, count as usize))?;
    stepped(rows_of(alloc, &columns))
}
