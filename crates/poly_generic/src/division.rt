//! Long division of lists of coefficients, from the greatest power down.

ghost use Rattle.std.specs.Prelude.{◌≡◌, ◌↔◌, ◌+◌, ◌++◌, IsTrue, IsFalse, map, length, take, drop, replicate, ⊤};
ghost use Rattle.poly_laws.specs.LongDivision.{list_less, all_nought, ReductionInBounds};
ghost use Rattle.poly_generic.specs.ListAnswer.{GivesList, DividesList};

use crate::lists::copies;
use ring_laws::{Domain, Ring, RingFault};
use std::alloc::Global;

/// What a division of a list by another leaves.
#[derive(Drop)]
pub struct Divided<D> {
    pub quotient: Vec<D>,
    pub rest: Vec<D>,
}

// The list, and this many zeros behind it.
fn padded<R: Ring>(alloc: Global, list: &[R], count: usize) -> Result<Vec<R>, RingFault>
    ensures { GivesList R.meaning ⊤ (map R.meaning list.now ++ replicate count R.algebra.ops.nought) result }
{
    let mut out = copies(alloc, list)?;
    let _room = out.reserve(count);
    for at in 0..count {
        let item = R::zero(alloc)?;
        out.push(item)?;
    }
    Ok(out)
}

// The list, and from a place on less the factor times the other list, at each power, in the places of the list.
fn reduced<R: Ring>(
    alloc: Global,
    list: Vec<R>,
    from: usize,
    factor: &R,
    by: &[R],
) -> Result<Vec<R>, RingFault>
    requires same_length { length list.items ≡ from + length by.now }
    ensures { GivesList R.meaning (ReductionInBounds R.algebra (drop from (map R.meaning list.items)) (R.meaning factor.now) (map R.meaning by.now))
        (take from (map R.meaning list.items)
        ++ list_less R.algebra.ops (drop from (map R.meaning list.items)) (R.meaning factor.now) (map R.meaning by.now)) result }
{
    let mut list = list;
    for power in 0..by.len() {
        let part = factor.mul(alloc, &by[power])?;
        let place = from + power;
        list[place] = list[place].sub(alloc, &part)?;
    }
    Ok(list)
}

/// Whether each coefficient is zero.
pub fn all_zero<R: Ring>(list: &[R]) -> bool
    ensures { IsTrue result ↔ IsTrue (all_nought R.algebra.ops (map R.meaning list.now)) }
{
    for item in list {
        if !item.is_zero() {
            return false;
        }
    }
    true
}

// The quotient of the list by `low` and then `lead`, and the rest; none where some step has no coefficient. What is left of the list
// stands in its own places, with zeros behind it.
pub fn divide_lists<D: Domain>(
    alloc: Global,
    list: &[D],
    low: &[D],
    lead: &D,
) -> Result<Option<Divided<D>>, RingFault>
    requires not_zero { IsFalse (D.algebra.ops.is_nought (D.meaning lead.now)) }
    ensures { DividesList D.algebra D.division_in_bounds (λ divided. map D.meaning divided.quotient.items) (λ divided. map D.meaning divided.rest.items)
        (map D.meaning list.now) (map D.meaning low.now) (D.meaning lead.now) result }
{
    let mut quotient: Vec<D> = Vec::new(alloc);
    let _room = quotient.reserve(list.len());
    let mut rest = padded(alloc, list, low.len())?;
    let mut power = list.len();
    while power > 0 {
        power -= 1;
        let top = rest.pop().unwrap();
        let part = match top.divide_exact(alloc, lead)? {
            Some(part) => part,
            None => return Ok(None),
        };
        rest = reduced(alloc, rest, power, &part, low)?;
        quotient.push(part)?;
    }
    quotient.reverse();
    Ok(Some(Divided { quotient, rest }))
}
