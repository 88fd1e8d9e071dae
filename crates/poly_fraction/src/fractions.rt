//! Fractions over a domain.

ghost use Rattle.std.specs.Prelude.{IsFalse};

use crate::products::{difference_of_products, sum_of_products};
use ring_laws::{Domain, RingFault, Whole};
use std::alloc::Global;

/// A fraction over a domain: a numerator and a denominator that isn't zero, not reduced.
#[derive(Drop)]
pub struct Frac<R: Domain> {
    top: R,
    bottom: R,
    ghost nonzero: { IsFalse (R.algebra.ops.is_nought (R.meaning bottom)) },
}

impl<R: Domain> Frac<R> {
    ghost use Rattle.std.specs.Prelude.{◌≡◌, ◌↔◌, IsTrue, IsFalse, IsNone, IfSome};
    ghost use Rattle.poly_fraction.specs.Fractions.{sum_of_fractions, difference_of_fractions, product_of_fractions, whole_fraction, negative_fraction};
    ghost use Rattle.poly_fraction.specs.Fractions.{AreSame, FractionSumInBounds, FractionProductInBounds, CrossProductsInBounds};
    ghost use Rattle.poly_fraction.specs.FractionAnswer.{GivesFraction, MakesFraction, TellsInBounds};
    ghost use Rattle.poly_fraction.specs.FractionOf.{fraction_of};

    /// The fraction of a numerator and a denominator, `None` exactly where the denominator is zero. It takes no memory.
    pub fn new(top: R, bottom: R) -> Option<Frac<R>>
        ensures none { IsNone result ↔ IsTrue (R.algebra.ops.is_nought (R.meaning bottom)) }
        ensures top { IfSome result (λ f. (fraction_of f).top ≡ R.meaning top) }
        ensures bottom { IfSome result (λ f. (fraction_of f).bottom ≡ R.meaning bottom) }
    {
        if bottom.is_zero() {
            None
        } else {
            Some(Frac { top, bottom })
        }
    }

    /// The whole number over 1.
    pub fn whole(alloc: Global, value: Whole) -> Result<Frac<R>, RingFault>
        ensures makes { MakesFraction fraction_of (whole_fraction R.algebra.ops value.value) result }
    {
        let top = R::whole(alloc, value)?;
        let bottom = R::one(alloc)?;
        Ok(Frac { top, bottom })
    }

    /// A second fraction with the same numerator and denominator.
    pub fn duplicate(&self, alloc: Global) -> Result<Frac<R>, RingFault>
        ensures makes { MakesFraction fraction_of (fraction_of self.now) result }
    {
        let top = self.top.duplicate(alloc)?;
        let bottom = self.bottom.duplicate(alloc)?;
        Ok(Frac { top, bottom })
    }

    /// The negative of a/b: `(-a)/b`.
    pub fn neg(&self, alloc: Global) -> Result<Frac<R>, RingFault>
        ensures makes { MakesFraction fraction_of (negative_fraction R.algebra.ops (fraction_of self.now)) result }
    {
        let top = self.top.neg(alloc)?;
        let bottom = self.bottom.duplicate(alloc)?;
        Ok(Frac { top, bottom })
    }

    /// The numerator.
    pub fn top(&self) -> &R
        ensures top { R.meaning result.now ≡ (fraction_of self.now).top }
    {
        &self.top
    }

    /// The denominator, which isn't zero.
    pub fn bottom(&self) -> &R
        ensures bottom { R.meaning result.now ≡ (fraction_of self.now).bottom }
        ensures not_zero { IsFalse (R.algebra.ops.is_nought (R.meaning result.now)) }
    {
        &self.bottom
    }

    /// The sum of a/b and c/d: `(a*d + c*b)/(b*d)`.
    ///
    /// `TooLarge` comes exactly where `|a|*|d| + |c|*|b|` or `|b|*|d|` doesn't fit.
    pub fn add(&self, alloc: Global, other: &Frac<R>) -> Result<Frac<R>, RingFault>
        ensures gives { GivesFraction fraction_of
            (FractionSumInBounds R.algebra (fraction_of self.now) (fraction_of other.now))
            (sum_of_fractions R.algebra.ops (fraction_of self.now) (fraction_of other.now)) result }
    {
        let top = sum_of_products(alloc, &self.top, &other.bottom, &other.top, &self.bottom)?;
        let bottom = self.bottom.mul(alloc, &other.bottom)?;
        Ok(Frac { top, bottom })
    }

    /// The difference of a/b and c/d: `(a*d - c*b)/(b*d)`.
    ///
    /// `TooLarge` comes exactly where `|a|*|d| + |c|*|b|` or `|b|*|d|` doesn't fit.
    pub fn sub(&self, alloc: Global, other: &Frac<R>) -> Result<Frac<R>, RingFault>
        ensures gives { GivesFraction fraction_of
            (FractionSumInBounds R.algebra (fraction_of self.now) (fraction_of other.now))
            (difference_of_fractions R.algebra.ops (fraction_of self.now) (fraction_of other.now)) result }
    {
        let top = difference_of_products(
            alloc,
            &self.top,
            &other.bottom,
            &other.top,
            &self.bottom,
        )?;
        let bottom = self.bottom.mul(alloc, &other.bottom)?;
        Ok(Frac { top, bottom })
    }

    /// The product of a/b and c/d: `(a*c)/(b*d)`.
    ///
    /// `TooLarge` comes exactly where `|a|*|c|` or `|b|*|d|` doesn't fit.
    pub fn mul(&self, alloc: Global, other: &Frac<R>) -> Result<Frac<R>, RingFault>
        ensures gives { GivesFraction fraction_of
            (FractionProductInBounds R.algebra (fraction_of self.now) (fraction_of other.now))
            (product_of_fractions R.algebra.ops (fraction_of self.now) (fraction_of other.now)) result }
    {
        let top = self.top.mul(alloc, &other.top)?;
        let bottom = self.bottom.mul(alloc, &other.bottom)?;
        Ok(Frac { top, bottom })
    }

    /// Whether a/b and c/d are the same fraction: whether `a*d` is `c*b`.
    ///
    /// `TooLarge` comes exactly where one of these two products is out of bounds.
    pub fn same(&self, alloc: Global, other: &Frac<R>) -> Result<bool, RingFault>
        ensures tells { TellsInBounds (CrossProductsInBounds R.algebra (fraction_of self.now) (fraction_of other.now))
            (AreSame R.algebra.ops (fraction_of self.now) (fraction_of other.now)) result }
    {
        let left = self.top.mul(alloc, &other.bottom)?;
        let right = other.top.mul(alloc, &self.bottom)?;
        Ok(left.same(&right))
    }
}
