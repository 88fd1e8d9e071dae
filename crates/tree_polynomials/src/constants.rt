//! The constant that a tree stands for.

ghost use Rattle.std.specs.Prelude.{◌≡◌, ◌≤◌, unsigned_abs};
ghost use Rattle.ring_laws.specs.Meaning.{items};
ghost use Rattle.hypergeometric.specs.Fraction.{fraction_negative};
ghost use Rattle.poly_laws.specs.TwoVariables.{constant_in_k};
ghost use Rattle.term_text.specs.View.{tree_of, parts_of};
ghost use Rattle.steps.specs.Answers.{Answers};
ghost use Rattle.steps.specs.Found.{found};
ghost use Rattle.steps.specs.Steps.{◌then◌};
ghost use Rattle.steps.specs.TermFaults.{term_cause};
ghost use Rattle.term_classes.specs.Finding.{find_constant, find_constants, product_made, fraction_of_whole};
ghost use Rattle.tree_polynomials.specs.ConstantCases.{find_negative, find_power};
ghost use Rattle.tree_polynomials.specs.Factors.{factors_of};
ghost use Rattle.tree_polynomials.specs.Views.{fraction_value};

use crate::constant_powers::{constant_power, exponent_of};
use crate::factors::{Factor, product_in_lowest_terms};
use crate::fractions::over;
use crate::polynomials::{constant_of, polynomial_of_tree};
use poly_fraction::Frac;
use poly_generic::Znk;
use ring_laws::{Ring, Whole};
use sqlite_items::Items;
use std::alloc::Global;
use steps::TermFault;
use term_text::{Ast, Node, Part};

// The constant that a polynomial is, as a fraction.
fn constant_fraction(polynomial: &Znk) -> Option<Frac<Whole>>
    ensures constant { found fraction_value result ≡ fraction_of_whole (constant_in_k (items (⟦<Znk as Ring>⟧.meaning polynomial.now))) }
{
    match constant_of(polynomial) {
        Some(number) => Some(over(number, Whole::ONE)),
        None => None,
    }
}

// Minus the constant.
fn negative(constant: &Frac<Whole>) -> Frac<Whole>
    ensures negative { fraction_value result ≡ fraction_negative (fraction_value constant.now) }
{
    let top = Whole {
        value: -constant.top().value(),
    };
    over(top, *constant.bottom())
}

/// The constant that the tree stands for, in lowest terms, or none, or the first refusal in seeking it.
#[cycle(finding)]
pub fn constant_of_tree(alloc: Global, tree: &Ast) -> Result<Option<Frac<Whole>>, TermFault>
    ensures answers { Answers term_cause (found fraction_value) (find_constant (tree_of tree.now)) result }
{
    if let Some(polynomial) = polynomial_of_tree(alloc, tree)? {
        return Ok(constant_fraction(&polynomial));
    }
    match &tree.node {
        Node::Sum(parts) => constant_of_sum(alloc, parts.as_slice()),
        Node::Product(parts) => constant_of_product(alloc, tree.at, parts.as_slice()),
        Node::Pow(base, exponent) => {
            let Some(power) = exponent_of(alloc, exponent.get())? else {
                return Ok(None);
            };
            constant_of_power(alloc, tree.at, base.get(), power)
        }
        Node::Literal(_) => Ok(None),
        Node::N => Ok(None),
        Node::K => Ok(None),
        Node::Factorial(_) => Ok(None),
        Node::Binomial(_, _) => Ok(None),
    }
}

// The constant of the parts of a sum: that of one part behind a leading minus, negated.
#[cycle(finding)]
fn constant_of_sum(alloc: Global, parts: &[Part]) -> Result<Option<Frac<Whole>>, TermFault>
    ensures answers { Answers term_cause (found fraction_value) (find_negative (parts_of parts.now)) result }
{
    let [part] = parts else {
        return Ok(None);
    };
    if !part.turned {
        return Ok(None);
    }
    let Some(constant) = constant_of_tree(alloc, &part.ast)? else {
        return Ok(None);
    };
    Ok(Some(negative(&constant)))
}

// The constant of the parts of a product.
#[cycle(finding)]
fn constant_of_product(
    alloc: Global,
    at: u32,
    parts: &[Part],
) -> Result<Option<Frac<Whole>>, TermFault>
    ensures answers { Answers term_cause (found fraction_value) (find_constants (parts_of parts.now) then (product_made at)) result }
{
    let Some(factors) = constants_of(alloc, parts)? else {
        return Ok(None);
    };
    product_in_lowest_terms(alloc, at, factors.as_slice())
}

// The constants of all parts of a product, in their order.
#[cycle(finding)]
fn constants_of(alloc: Global, parts: &[Part]) -> Result<Option<Items<Factor>>, TermFault>
    ensures answers { Answers term_cause (found factors_of) (find_constants (parts_of parts.now)) result }
{
    let mut factors = Items::new(alloc);
    for part in parts {
        let Some(fraction) = constant_of_tree(alloc, &part.ast)? else {
            return Ok(None);
        };
        let factor = Factor {
            turned: part.turned,
            fraction,
        };
        let Ok(()) = factors.push(factor) else {
            return Err(TermFault::Memory);
        };
    }
    Ok(Some(factors))
}

// The constant of a base to a constant power.
#[cycle(finding)]
fn constant_of_power(
    alloc: Global,
    at: u32,
    base: &Ast,
    power: Whole,
) -> Result<Option<Frac<Whole>>, TermFault>
    requires small { unsigned_abs power.value ≤ 12 }
    ensures answers { Answers term_cause (found fraction_value) (find_power at (tree_of base.now) power.value) result }
{
    let Some(base) = constant_of_tree(alloc, base)? else {
        return Ok(None);
    };
    constant_power(alloc, at, &base, power)
}
