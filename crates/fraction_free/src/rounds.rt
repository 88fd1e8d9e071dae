//! The pivot rows: one round for each column, from the first column on.

ghost use Rattle.std.specs.Prelude.{◌≡◌, ◌<◌, ◌≤◌, ◌+◌, IsTrue, IsFalse, ◌↔◌, MatchOption, length, map, All, IfOk};
ghost use Rattle.std.specs.List.{AllZip};
ghost use Rattle.kernel_laws.specs.Pivots.{IsPivotColumn};
ghost use Rattle.kernel_laws.specs.Elimination.{Cleared, ClearingInBounds, Chosen, RunInBounds};
ghost use Rattle.fraction_free.specs.RowAnswers.{rows_meant, GivesRows};
ghost use Rattle.fraction_free.specs.RoundAnswers.{Best, Picks, GivesRound, RanTo, GivesPivots, pivots_meant, HasCore, RoundInBounds};

use crate::rows::clear_row;
use reducing::Reducing;
use ring_laws::{Ring, RingFault};
use std::alloc::Global;

/// A pivot row with its column, and the core of its entry there.
#[derive(Drop)]
pub struct PivotRow<R> {
    pub column: usize,
    pub row: Vec<R>,
    pub core: R,
}

/// The pivot rows, and the free column at which elimination ended, or none where it went through all columns.
#[derive(Drop)]
pub struct Eliminated<R> {
    pub pivots: Vec<PivotRow<R>>,
    pub free: Option<usize>,
}

// What one round leaves: the other open rows, cleared, the pivot row, and the core of the pivot.
#[derive(Drop)]
struct Round<R> {
    open: Vec<Vec<R>>,
    pivot: Vec<R>,
    core: R,
}

// Each row with a zero in the column of the pivot row.
fn clear_rows<R: Reducing>(
    alloc: Global,
    rows: Vec<Vec<R>>,
    pivot: &[R],
    column: usize,
    divisor: &R,
) -> Result<Vec<Vec<R>>, RingFault>
    requires sizes { All (λ row. length row.items ≡ length pivot.now) rows.items }
    requires within { column < length pivot.now }
    requires not_zero { IsFalse (R.algebra.ops.is_nought (R.meaning divisor.now)) }
    ensures clears { GivesRows R.meaning
        (AllZip (Cleared R.algebra R.reduction (R.meaning divisor.now) column (map R.meaning pivot.now)) (rows_meant R.meaning rows.items))
        (All (ClearingInBounds R.division_in_bounds R.algebra R.reduction (R.meaning divisor.now) column (map R.meaning pivot.now))
        (rows_meant R.meaning rows.items)) result }
{
    let mut out = Vec::new(alloc);
    for row in rows {
        let cleared = clear_row(alloc, row, pivot, column, divisor)?;
        out.push(cleared)?;
    }
    Ok(out)
}

// The better of the best row so far and the next row.
fn better<R: Reducing>(
    rows: &[Vec<R>],
    column: usize,
    best: Option<usize>,
    next: usize,
) -> Option<usize>
    requires sizes { All (λ row. column < length row.items) rows.now }
    requires within { next < length rows.now }
    requires best { Best R.algebra R.reduction column (rows_meant R.meaning rows.now) next best }
    ensures best { Best R.algebra R.reduction column (rows_meant R.meaning rows.now) (next + 1) result }
{
    let entry = &rows[next][column];
    if entry.is_zero() {
        return best;
    }
    match best {
        Some(place) => {
            if entry.weight() < rows[place][column].weight() {
                Some(next)
            } else {
                Some(place)
            }
        }
        None => Some(next),
    }
}

// The place of the row with the entry of least weight that isn't zero, the first of these.
fn choose_pivot<R: Reducing>(rows: &[Vec<R>], column: usize) -> Option<usize>
    requires sizes { All (λ row. column < length row.items) rows.now }
    ensures picks { Picks R.algebra R.reduction column (rows_meant R.meaning rows.now) result }
{
    let mut best: Option<usize> = None;
    for next in 0..rows.len() {
        best = better(rows, column, best, next);
    }
    best
}

// One round: the row at the place is taken out, and the others are cleared.
fn clear_column<R: Reducing>(
    alloc: Global,
    rows: Vec<Vec<R>>,
    place: usize,
    column: usize,
    columns: usize,
    divisor: &R,
) -> Result<Round<R>, RingFault>
    requires sizes { All (λ row. length row.items ≡ columns) rows.items }
    requires within { column < columns }
    requires chosen { Chosen R.algebra R.reduction column (rows_meant R.meaning rows.items) place }
    requires not_zero { IsFalse (R.algebra.ops.is_nought (R.meaning divisor.now)) }
    ensures clears { GivesRound R.meaning R.algebra R.reduction (R.meaning divisor.now) column (rows_meant R.meaning rows.items) place
        (RoundInBounds R.division_in_bounds R.algebra R.reduction (R.meaning divisor.now) column (rows_meant R.meaning rows.items) place)
        result }
{
    let mut others = rows;
    let pivot = others.remove(place);
    let open = clear_rows(alloc, others, &pivot, column, divisor)?;
    let core = pivot[column].core(alloc)?;
    Ok(Round { open, pivot, core })
}

// Each row, reduced.
fn reduce_rows<R: Reducing>(alloc: Global, rows: Vec<Vec<R>>) -> Result<Vec<Vec<R>>, RingFault>
    ensures reduces { GivesRows R.meaning (AllZip R.reduction.Reduced (rows_meant R.meaning rows.items))
        (All R.reduction.ReductionInBounds (rows_meant R.meaning rows.items)) result }
{
    let mut out = Vec::new(alloc);
    for row in rows {
        let reduced = R::reduce_row(alloc, row)?;
        out.push(reduced)?;
    }
    Ok(out)
}

// The pivot rows of the columns up to the first free column from `first` on, or of all columns where there is none.
pub fn pivot_rows<R: Reducing>(
    alloc: Global,
    rows: Vec<Vec<R>>,
    columns: usize,
    first: usize,
) -> Result<Eliminated<R>, RingFault>
    requires sizes { All (λ row. length row.items ≡ columns) rows.items }
    ensures runs { GivesPivots R.meaning (RanTo R.algebra R.reduction columns first (rows_meant R.meaning rows.items))
        (RunInBounds R.division_in_bounds R.algebra R.reduction columns first (rows_meant R.meaning rows.items)) result }
    ensures cores { IfOk result (λ found. All (HasCore R.meaning R.algebra R.reduction) found.pivots.items) }
{
    let mut open = reduce_rows(alloc, rows)?;
    let mut pivots = Vec::new(alloc);
    let mut divisor = R::one(alloc)?;
    for column in 0..columns {
        match choose_pivot(&open, column) {
            Some(place) => {
                let next = clear_column(alloc, open, place, column, columns, &divisor)?;
                let core = next.core.duplicate(alloc)?;
                open = next.open;
                divisor = next.core;
                pivots.push(PivotRow {
                    column,
                    row: next.pivot,
                    core,
                })?;
            }
            None => {
                if first <= column {
                    return Ok(Eliminated {
                        pivots,
                        free: Some(column),
                    });
                }
            }
        }
    }
    Ok(Eliminated { pivots, free: None })
}

// Whether a pivot row has this column.
pub fn is_pivot<R: Ring>(pivots: &[PivotRow<R>], column: usize) -> bool
    ensures test { IsTrue result ↔ IsPivotColumn column (pivots_meant R.meaning pivots.now) }
{
    for pivot in pivots {
        if pivot.column == column {
            return true;
        }
    }
    false
}
