//! The polynomials of a recurrence.

ghost use Rattle.std.specs.Prelude.{◌≡◌, ◌≤◌, length, map, IfOk};
ghost use Rattle.ring_laws.specs.Answer.{Gives};
ghost use Rattle.ring_laws.specs.Meaning.{items};
ghost use Rattle.term_text.specs.View.{tree_of};
ghost use Rattle.term_classes.specs.Recurrence.{in_n_alone, find_coefficient, find_coefficients, not_zero_at, find_recurrence};
ghost use Rattle.steps.specs.Answers.{Answers};
ghost use Rattle.steps.specs.TermFaults.{term_cause};

use poly_generic::{Zn, Znk};
use ring_laws::{Ring, RingFault};
use std::alloc::Global;
use steps::{LimitName, TermFault, fault_at};
use term_text::Ast;
use tree_polynomials::{free_of_k, polynomial_of_tree};

// The coefficient of a polynomial at the power 0 of k.
fn constant_term(alloc: Global, polynomial: &Znk) -> Result<Zn, RingFault>
    ensures gives { Gives ⟦<Zn as Ring>⟧.meaning (in_n_alone (items (⟦<Znk as Ring>⟧.meaning polynomial.now))) result }
{
    match polynomial.coefficients() {
        [constant, ..] => constant.duplicate(alloc),
        [] => Zn::zero(alloc),
    }
}

// The polynomial in n that the tree of a coefficient stands for.
fn coefficient_of_tree(alloc: Global, tree: &Ast) -> Result<Zn, TermFault>
    ensures answers { Answers term_cause ⟦<Zn as Ring>⟧.meaning (find_coefficient (tree_of tree.now)) result }
{
    if let Some(at) = free_of_k(tree) {
        return Err(TermFault::Improper { reason: 8, at });
    }
    let Some(polynomial) = polynomial_of_tree(alloc, tree)? else {
        return Err(TermFault::Improper {
            reason: 6,
            at: tree.at,
        });
    };
    match constant_term(alloc, &polynomial) {
        Ok(coefficient) => Ok(coefficient),
        Err(fault) => Err(fault_at(tree.at, fault)),
    }
}

// Those of all trees, in their order.
fn coefficients_of_trees(alloc: Global, trees: &[Ast]) -> Result<Vec<Zn>, TermFault>
    ensures answers { Answers term_cause (λ list. map ⟦<Zn as Ring>⟧.meaning list.items) (find_coefficients (map tree_of trees.now)) result }
    ensures as_many { IfOk result (λ list. length list.items ≡ length trees.now) }
{
    let mut coefficients = Vec::new(alloc);
    for tree in trees {
        let coefficient = coefficient_of_tree(alloc, tree)?;
        let Ok(()) = coefficients.push(coefficient) else {
            return Err(TermFault::Memory);
        };
    }
    Ok(coefficients)
}

// Refused where the coefficient of a tree is 0.
fn not_zero(tree: &Ast, coefficient: &Zn) -> Result<(), TermFault>
    ensures answers { Answers term_cause (λ _. ⟦<Zn as Ring>⟧.meaning coefficient.now)
        (not_zero_at (tree_of tree.now) (⟦<Zn as Ring>⟧.meaning coefficient.now)) result }
{
    if coefficient.is_zero() {
        return Err(TermFault::Improper {
            reason: 7,
            at: tree.at,
        });
    }
    Ok(())
}

/// The polynomials in n of the trees of a recurrence, from the first on, or the first refusal (A=B 8.2).
///
/// There are at most seven, and neither the first nor the last of them is 0.
pub fn polynomials(alloc: Global, trees: &[Ast]) -> Result<Vec<Zn>, TermFault>
    requires two { 2 ≤ length trees.now }
    ensures answers { Answers term_cause (λ list. map ⟦<Zn as Ring>⟧.meaning list.items) (find_recurrence (map tree_of trees.now)) result }
{
    let order = trees.len() - 1;
    let counted = order as u64;
    if counted > LimitName::Order.greatest_count() {
        return Err(TermFault::Limit {
            name: LimitName::Order,
            counted,
        });
    }
    let coefficients = coefficients_of_trees(alloc, trees)?;
    not_zero(&trees[0], &coefficients[0])?;
    not_zero(&trees[order], &coefficients[order])?;
    Ok(coefficients)
}
