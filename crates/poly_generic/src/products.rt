//! When a product is in bounds: a cheap test that shows it of most products, and the product of the magnitudes, which decides it of all.

ghost use Rattle.std.specs.Prelude.{◌≡◌, ◌≤◌, map, length, IsTrue, IfOk};
ghost use Rattle.ring_laws.specs.Algebra.{ProductInBounds};
ghost use Rattle.ring_laws.specs.Answer.{GivesInBounds};
ghost use Rattle.poly_laws.specs.Bounds.{ListProductInBounds};
ghost use Rattle.poly_generic.specs.MagnitudeSum.{magnitude_sum};

use crate::lists::{magnitudes, product_of_lists};
use crate::polys::Poly;
use ring_laws::{Ring, RingFault};
use std::alloc::Global;

// The sum of the magnitudes of the coefficients.
fn sum_of_magnitudes<R: Ring>(alloc: Global, list: &[R]) -> Result<R, RingFault>
    ensures { IfOk result (λ sum. R.meaning sum ≡ magnitude_sum R.algebra.ops (map R.meaning list.now)) }
{
    let mut sum = R::zero(alloc)?;
    let mut power = list.len();
    while power > 0 {
        power -= 1;
        let size = list[power].magnitude(alloc)?;
        sum = size.add(alloc, &sum)?;
    }
    Ok(sum)
}

// Whether the product of the sums of the magnitudes is a value of the ring. It is the sum of all coefficients of the product of
// the magnitudes, so then each of these fits. Where it isn't, or where there is no memory for it, nothing is known.
fn is_surely_in_bounds<R: Ring>(alloc: Global, a: &[R], b: &[R]) -> bool
    ensures { IsTrue result → ListProductInBounds R.algebra (map R.meaning a.now) (map R.meaning b.now) }
{
    let Ok(left) = sum_of_magnitudes(alloc, a) else {
        return false;
    };
    let Ok(right) = sum_of_magnitudes(alloc, b) else {
        return false;
    };
    left.mul(alloc, &right).is_ok()
}

impl<R: Ring> Poly<R> {
    // Whether the product has few coefficients, and each of them surely fits.
    pub(crate) fn is_product_surely_in_bounds(&self, alloc: Global, other: &Poly<R>) -> bool
        ensures { IsTrue result →
            ProductInBounds ⟦<Poly<R> as Ring>⟧.algebra (⟦<Poly<R> as Ring>⟧.meaning self.now) (⟦<Poly<R> as Ring>⟧.meaning other.now) }
    {
        self.list.len() + other.list.len() <= 257
            && is_surely_in_bounds(alloc, &self.list, &other.list)
    }

    // The product, where that of the magnitudes decides: it covers each step of the product, and doesn't fit exactly where the
    // product is out of bounds.
    pub(crate) fn product_by_magnitudes(
        &self,
        alloc: Global,
        other: &Poly<R>,
    ) -> Result<Poly<R>, RingFault>
        ensures gives { GivesInBounds ⟦<Poly<R> as Ring>⟧.meaning
            (ProductInBounds ⟦<Poly<R> as Ring>⟧.algebra (⟦<Poly<R> as Ring>⟧.meaning self.now) (⟦<Poly<R> as Ring>⟧.meaning other.now))
            (⟦<Poly<R> as Ring>⟧.algebra.ops.product (⟦<Poly<R> as Ring>⟧.meaning self.now) (⟦<Poly<R> as Ring>⟧.meaning other.now)) result }
    {
        let left = magnitudes(alloc, &self.list)?;
        let right = magnitudes(alloc, &other.list)?;
        let bound = product_of_lists(alloc, &left, &right)?;
        let _bound = Poly::from_coefficients(bound)?;
        let list = product_of_lists(alloc, &self.list, &other.list)?;
        Poly::from_coefficients(list)
    }

    // The product, which has a row for each coefficient of this polynomial.
    pub(crate) fn product(&self, alloc: Global, other: &Poly<R>) -> Result<Poly<R>, RingFault>
        ensures gives { GivesInBounds ⟦<Poly<R> as Ring>⟧.meaning
            (ProductInBounds ⟦<Poly<R> as Ring>⟧.algebra (⟦<Poly<R> as Ring>⟧.meaning self.now) (⟦<Poly<R> as Ring>⟧.meaning other.now))
            (⟦<Poly<R> as Ring>⟧.algebra.ops.product (⟦<Poly<R> as Ring>⟧.meaning self.now) (⟦<Poly<R> as Ring>⟧.meaning other.now)) result }
    {
        if !self.is_product_surely_in_bounds(alloc, other) {
            return self.product_by_magnitudes(alloc, other);
        }
        let list = product_of_lists(alloc, &self.list, &other.list)?;
        Poly::from_coefficients(list)
    }
}
