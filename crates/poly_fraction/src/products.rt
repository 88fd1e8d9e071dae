//! Sums and differences of two products.

ghost use Rattle.ring_laws.specs.Answer.{GivesInBounds};
ghost use Rattle.poly_fraction.specs.FractionAnswer.{ProductsInBounds};

use ring_laws::{Ring, RingFault};
use std::alloc::Global;

// |a|*|b| + |c|*|d|. Where it fits, so does each step to a*b + c*d and to a*b - c*d.
fn size_of_products<R: Ring>(alloc: Global, a: &R, b: &R, c: &R, d: &R) -> Result<R, RingFault>
    ensures gives { GivesInBounds R.meaning (ProductsInBounds R.algebra (R.meaning a.now) (R.meaning b.now) (R.meaning c.now) (R.meaning d.now))
        (R.algebra.ops.sum (R.algebra.ops.product (R.algebra.ops.magnitude (R.meaning a.now)) (R.algebra.ops.magnitude (R.meaning b.now)))
        (R.algebra.ops.product (R.algebra.ops.magnitude (R.meaning c.now)) (R.algebra.ops.magnitude (R.meaning d.now)))) result }
{
    let a = a.magnitude(alloc)?;
    let b = b.magnitude(alloc)?;
    let c = c.magnitude(alloc)?;
    let d = d.magnitude(alloc)?;
    let left = a.mul(alloc, &b)?;
    let right = c.mul(alloc, &d)?;
    left.add(alloc, &right)
}

// a*b + c*d
pub fn sum_of_products<R: Ring>(alloc: Global, a: &R, b: &R, c: &R, d: &R) -> Result<R, RingFault>
    ensures gives { GivesInBounds R.meaning (ProductsInBounds R.algebra (R.meaning a.now) (R.meaning b.now) (R.meaning c.now) (R.meaning d.now))
        (R.algebra.ops.sum (R.algebra.ops.product (R.meaning a.now) (R.meaning b.now))
        (R.algebra.ops.product (R.meaning c.now) (R.meaning d.now))) result }
{
    let _size = size_of_products(alloc, a, b, c, d)?;
    let left = a.mul(alloc, b)?;
    let right = c.mul(alloc, d)?;
    left.add(alloc, &right)
}

// a*b - c*d
pub fn difference_of_products<R: Ring>(
    alloc: Global,
    a: &R,
    b: &R,
    c: &R,
    d: &R,
) -> Result<R, RingFault>
    ensures gives { GivesInBounds R.meaning (ProductsInBounds R.algebra (R.meaning a.now) (R.meaning b.now) (R.meaning c.now) (R.meaning d.now))
        (R.algebra.ops.sum (R.algebra.ops.product (R.meaning a.now) (R.meaning b.now))
        (R.algebra.ops.neg (R.algebra.ops.product (R.meaning c.now) (R.meaning d.now)))) result }
{
    let _size = size_of_products(alloc, a, b, c, d)?;
    let left = a.mul(alloc, b)?;
    let right = c.mul(alloc, d)?;
    left.sub(alloc, &right)
}
