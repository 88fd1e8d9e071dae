//! One row: clearing its entry in the column of a pivot row.

ghost use Rattle.std.specs.Prelude.{◌≡◌, ◌<◌, IsFalse, map, length};
ghost use Rattle.poly_generic.specs.ListAnswer.{GivesList, GivesValue};
ghost use Rattle.kernel_laws.specs.RowSteps.{cross, crossed, CrossInBounds, CrossingInBounds};
ghost use Rattle.kernel_laws.specs.Elimination.{Cleared, ClearingInBounds};
ghost use Rattle.reducing.specs.RowAnswer.{GivesRow};

use reducing::{Reducing, divide_row};
use ring_laws::{Ring, RingFault};
use std::alloc::Global;

// p*x - e*y
fn cross_entries<R: Ring>(alloc: Global, p: &R, x: &R, e: &R, y: &R) -> Result<R, RingFault>
    ensures gives { GivesValue R.meaning (CrossInBounds R.algebra (R.meaning p.now) (R.meaning x.now) (R.meaning e.now) (R.meaning y.now))
        (cross R.algebra.ops (R.meaning p.now) (R.meaning x.now) (R.meaning e.now) (R.meaning y.now)) result }
{
    let left = p.mul(alloc, x)?;
    let right = e.mul(alloc, y)?;
    left.sub(alloc, &right)
}

// p*row - e*pivot, entry by entry.
fn cross_rows<R: Ring>(
    alloc: Global,
    p: &R,
    row: &[R],
    e: &R,
    pivot: &[R],
) -> Result<Vec<R>, RingFault>
    requires same_length { length row.now ≡ length pivot.now }
    ensures gives { GivesList R.meaning
        (CrossingInBounds R.algebra (R.meaning p.now) (map R.meaning row.now) (R.meaning e.now) (map R.meaning pivot.now))
        (crossed R.algebra.ops (R.meaning p.now) (map R.meaning row.now) (R.meaning e.now) (map R.meaning pivot.now)) result }
{
    let mut out = Vec::new(alloc);
    for column in 0..row.len() {
        let entry = cross_entries(alloc, p, &row[column], e, &pivot[column])?;
        out.push(entry)?;
    }
    Ok(out)
}

// The row with a zero in the column of the pivot row.
pub fn clear_row<R: Reducing>(
    alloc: Global,
    row: Vec<R>,
    pivot: &[R],
    column: usize,
    divisor: &R,
) -> Result<Vec<R>, RingFault>
    requires size { length row.items ≡ length pivot.now }
    requires within { column < length row.items }
    requires not_zero { IsFalse (R.algebra.ops.is_nought (R.meaning divisor.now)) }
    ensures clears { GivesRow R.meaning (Cleared R.algebra R.reduction (R.meaning divisor.now) column (map R.meaning pivot.now) (map R.meaning row.items))
        (ClearingInBounds R.division_in_bounds R.algebra R.reduction (R.meaning divisor.now) column (map R.meaning pivot.now)
        (map R.meaning row.items)) result }
{
    if row[column].is_zero() {
        return Ok(row);
    }
    let crossed = cross_rows(alloc, &pivot[column], &row, &row[column], pivot)?;
    if divisor.is_one() {
        return R::reduce_row(alloc, crossed);
    }
    match divide_row(alloc, &crossed, divisor)? {
        Some(quotients) => R::reduce_row(alloc, quotients),
        None => R::reduce_row(alloc, crossed),
    }
}
