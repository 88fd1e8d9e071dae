//! The product of fractions that are multiplied and divided by.

ghost use Rattle.std.specs.Prelude.{◌≡◌, ◌*◌, ◌&&◌, false, Some};
ghost use Rattle.hypergeometric.specs.Fraction.{fraction_product};
ghost use Rattle.steps.specs.Answers.{Answers};
ghost use Rattle.steps.specs.Found.{found};
ghost use Rattle.steps.specs.Operations.{of_fraction};
ghost use Rattle.steps.specs.Steps.{makes};
ghost use Rattle.steps.specs.TermFaults.{term_cause};
ghost use Rattle.hypergeometric.specs.Divisors.{size_of_top, size_of_bottom};
ghost use Rattle.hypergeometric.specs.PrimitiveForm.{is_zero};
ghost use Rattle.term_classes.specs.Finding.{divides_by_zero, factor_fraction, product_of_fractions, top_sizes, bottom_sizes, product_made};
ghost use Rattle.tree_polynomials.specs.Factors.{factor_of, factors_of};
ghost use Rattle.tree_polynomials.specs.Views.{fraction_value};

use crate::fractions::{lowered, over};
use poly_fraction::Frac;
use ring_laws::Whole;
use std::alloc::Global;
use steps::{TermFault, fault_at};

/// A fraction of a product, and whether it is divided by.
#[derive(Drop)]
pub(crate) struct Factor {
    pub(crate) turned: bool,
    pub(crate) fraction: Frac<Whole>,
}

// Whether the factor divides by 0.
fn is_zero_below(factor: &Factor) -> bool
    ensures test { result ≡ (factor.now.turned && is_zero (fraction_value factor.now.fraction).top) }
{
    factor.turned && factor.fraction.top().value() == 0
}

// Whether some factor divides by 0.
fn has_zero_below(factors: &[Factor]) -> bool
    ensures test { result ≡ divides_by_zero (factors_of factors.now) }
{
    for factor in factors {
        if is_zero_below(factor) {
            return true;
        }
    }
    false
}

// The fraction that is multiplied by: the factor's, or the one that divides by it.
fn multiplier(factor: &Factor) -> Frac<Whole>
    requires some { (factor.now.turned && is_zero (fraction_value factor.now.fraction).top) ≡ false }
    ensures fraction { fraction_value result ≡ factor_fraction (factor_of factor.now) }
{
    let top = *factor.fraction.top();
    let bottom = *factor.fraction.bottom();
    if factor.turned {
        over(bottom, top)
    } else {
        over(top, bottom)
    }
}

// The product times one more factor, as an operation of the node at the place.
fn times_factor(
    alloc: Global,
    at: u32,
    product: &Frac<Whole>,
    factor: &Factor,
) -> Result<Frac<Whole>, TermFault>
    requires some { (factor.now.turned && is_zero (fraction_value factor.now.fraction).top) ≡ false }
    ensures answers { Answers term_cause fraction_value (makes at
        (of_fraction (size_of_top (fraction_value product.now) * size_of_top (factor_fraction (factor_of factor.now)))
        (size_of_bottom (fraction_value product.now) * size_of_bottom (factor_fraction (factor_of factor.now))))
        (fraction_product (fraction_value product.now) (factor_fraction (factor_of factor.now)))) result }
{
    let multiplier = multiplier(factor);
    match product.mul(alloc, &multiplier) {
        Ok(product) => Ok(product),
        Err(fault) => Err(fault_at(at, fault)),
    }
}

// The product of all factors, as one operation of the node at the place.
fn product_of(alloc: Global, at: u32, factors: &[Factor]) -> Result<Frac<Whole>, TermFault>
    requires some { divides_by_zero (factors_of factors.now) ≡ false }
    ensures answers { Answers term_cause fraction_value (makes at
        (of_fraction (top_sizes (factors_of factors.now)) (bottom_sizes (factors_of factors.now)))
        (product_of_fractions (factors_of factors.now))) result }
{
    let mut product = over(Whole::ONE, Whole::ONE);
    for factor in factors {
        product = times_factor(alloc, at, &product, factor)?;
    }
    Ok(product)
}

// The product in lowest terms, where nothing is divided by 0.
pub(crate) fn product_in_lowest_terms(
    alloc: Global,
    at: u32,
    factors: &[Factor],
) -> Result<Option<Frac<Whole>>, TermFault>
    ensures answers { Answers term_cause (found fraction_value) (product_made at (Some (factors_of factors.now))) result }
{
    if has_zero_below(factors) {
        return Ok(None);
    }
    let product = product_of(alloc, at, factors)?;
    Ok(Some(lowered(&product)))
}
