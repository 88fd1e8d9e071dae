//! Dividing a row by a value of its domain.

ghost use Rattle.std.specs.Prelude.{map, IsFalse};
ghost use Rattle.reducing.specs.RowAnswer.{DividesRow};

use ring_laws::{Domain, RingFault};
use std::alloc::Global;

/// Each entry divided by the divisor, from the left, or `None` exactly where an entry has no quotient.
///
/// `TooLarge` comes only where the division of an entry is out of bounds, and each entry before it has a quotient.
pub fn divide_row<D: Domain>(
    alloc: Global,
    row: &[D],
    divisor: &D,
) -> Result<Option<Vec<D>>, RingFault>
    requires not_zero { IsFalse (D.algebra.ops.is_nought (D.meaning divisor.now)) }
    ensures divides { DividesRow D.meaning D.algebra D.division_in_bounds (map D.meaning row.now) (D.meaning divisor.now) result }
{
    let mut quotients = Vec::new(alloc);
    for entry in row {
        match entry.divide_exact(alloc, divisor)? {
            Some(quotient) => quotients.push(quotient)?,
            None => return Ok(None),
        }
    }
    Ok(Some(quotients))
}
