//! The polynomial that a tree stands for, and the number that a polynomial is.

ghost use Rattle.std.specs.Prelude.{◌≡◌, ℕ, Option, map};
ghost use Rattle.ring_laws.specs.Meaning.{Meaning, items};
ghost use Rattle.poly_laws.specs.TwoVariables.{constant_in_n, constant_in_k};
ghost use Rattle.term_text.specs.View.{tree_of, parts_of};
ghost use Rattle.steps.specs.Answers.{Answers};
ghost use Rattle.steps.specs.Found.{found};
ghost use Rattle.steps.specs.TermFaults.{TermSteps, term_cause};
ghost use Rattle.term_classes.specs.Finding.{find_polynomial, find_summands, find_factors};
ghost use Rattle.tree_polynomials.specs.Exponents.{raised_to, ToExponent};
ghost use Rattle.tree_polynomials.specs.Views.{whole_value};

use crate::exponents::natural_exponent;
use crate::leaves::{variable_k, variable_n};
use crate::operations::{added, answer_at, multiplied, raised};
use crate::sums::signed;
use poly_generic::{Zn, Znk};
use ring_laws::{Ring, Whole};
use std::alloc::Global;
use steps::TermFault;
use term_text::{Ast, Node, Part};

// The number that a polynomial in n is, `None` exactly where it isn't constant.
fn constant_of_coefficient(coefficient: &Zn) -> Option<Whole>
    ensures constant { found whole_value result ≡ constant_in_n (items (⟦<Zn as Ring>⟧.meaning coefficient.now)) }
{
    match coefficient.coefficients() {
        [] => Some(Whole::ZERO),
        [number] => Some(*number),
        _ => None,
    }
}

/// The number that a polynomial is, `None` exactly where it isn't constant. It takes no memory.
pub fn constant_of(polynomial: &Znk) -> Option<Whole>
    ensures constant { found whole_value result ≡ constant_in_k (items (⟦<Znk as Ring>⟧.meaning polynomial.now)) }
{
    match polynomial.coefficients() {
        [] => Some(Whole::ZERO),
        [coefficient] => constant_of_coefficient(coefficient),
        _ => None,
    }
}

/// The polynomial in k over those in n that the tree stands for, or none, or the first refusal in seeking it.
#[cycle(seek)]
pub fn polynomial_of_tree(alloc: Global, tree: &Ast) -> Result<Option<Znk>, TermFault>
    ensures answers { Answers term_cause (found ⟦<Znk as Ring>⟧.meaning) (find_polynomial (tree_of tree.now)) result }
{
    match &tree.node {
        Node::Literal(number) => answer_at(tree.at, Znk::whole(alloc, *number)),
        Node::N => answer_at(tree.at, variable_n(alloc)),
        Node::K => answer_at(tree.at, variable_k(alloc)),
        Node::Sum(parts) => {
            let summands = summands_of(alloc, parts.as_slice())?;
            added(alloc, tree.at, summands)
        }
        Node::Product(parts) => {
            let factors = factors_of(alloc, parts.as_slice())?;
            multiplied(alloc, tree.at, factors)
        }
        Node::Pow(base, exponent) => {
            let Some(power) = exponent_of(alloc, exponent.get())? else {
                return Ok(None);
            };
            let base = polynomial_of_tree(alloc, base.get())?;
            raised(alloc, tree.at, base, power)
        }
        Node::Factorial(_) => Ok(None),
        Node::Binomial(_, _) => Ok(None),
    }
}

// The polynomials of the parts of a sum, with their signs, or that one of them has none.
#[cycle(seek)]
fn summands_of(alloc: Global, parts: &[Part]) -> Result<Option<Vec<Znk>>, TermFault>
    ensures answers { Answers term_cause (found (λ list. map ⟦<Znk as Ring>⟧.meaning list.items)) (find_summands (parts_of parts.now)) result }
{
    let mut summands = Vec::new(alloc);
    for part in parts {
        let Some(polynomial) = polynomial_of_tree(alloc, &part.ast)? else {
            return Ok(None);
        };
        let Ok(summand) = signed(alloc, part.turned, polynomial) else {
            return Err(TermFault::Memory);
        };
        if summands.push(summand).is_err() {
            return Err(TermFault::Memory);
        }
    }
    Ok(Some(summands))
}

// The polynomials of the parts of a product, or that one of them has none or is divided by.
#[cycle(seek)]
fn factors_of(alloc: Global, parts: &[Part]) -> Result<Option<Vec<Znk>>, TermFault>
    ensures answers { Answers term_cause (found (λ list. map ⟦<Znk as Ring>⟧.meaning list.items)) (find_factors (parts_of parts.now)) result }
{
    let mut factors = Vec::new(alloc);
    for part in parts {
        if part.turned {
            return Ok(None);
        }
        let Some(factor) = polynomial_of_tree(alloc, &part.ast)? else {
            return Ok(None);
        };
        if factors.push(factor).is_err() {
            return Err(TermFault::Memory);
        }
    }
    Ok(Some(factors))
}

// The constant exponent from 0 to 12 that a tree stands for, or that it stands for none.
#[cycle(seek)]
fn exponent_of(alloc: Global, tree: &Ast) -> Result<Option<u32>, TermFault>
    ensures exponent { (f : ℕ → TermSteps (Option Meaning)) → ToExponent f (raised_to (find_polynomial (tree_of tree.now)) f) result }
{
    let Some(polynomial) = polynomial_of_tree(alloc, tree)? else {
        return Ok(None);
    };
    let Some(constant) = constant_of(&polynomial) else {
        return Ok(None);
    };
    natural_exponent(constant)
}
