//! Whole multiples of lists of coefficients.

ghost use Rattle.std.specs.Prelude.{◌≡◌, ◌↔◌, IsTrue, map, length};
ghost use Rattle.ring_laws.specs.Division.{IsTimes};

use ring_laws::{Domain, Ring, Whole};

// Whether the item is the number times the other.
fn is_times<D: Domain>(item: &D, by: &D, number: Whole) -> bool
    ensures { IsTrue result ↔ IsTimes D.algebra number.value (D.meaning by.now) (D.meaning item.now) }
{
    if by.is_zero() {
        return item.is_zero();
    }
    match item.whole_quotient(by) {
        Some(found) => found.same(&number),
        None => false,
    }
}

// Whether each item is the number times its counterpart.
pub fn are_times<D: Domain>(list: &[D], by: &[D], number: Whole) -> bool
    requires same_length { length list.now ≡ length by.now }
    ensures { IsTrue result ↔ (map (D.algebra.ops.product (D.algebra.ops.whole number.value)) (map D.meaning by.now) ≡ map D.meaning list.now) }
{
    for power in 0..list.len() {
        if !is_times(&list[power], &by[power], number) {
            return false;
        }
    }
    true
}
