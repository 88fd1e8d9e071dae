//! The walk over a tree.

ghost use Rattle.std.specs.Prelude.{◌≡◌, ◌≢◌, ◌≤◌, pos, unsigned_abs};
ghost use Rattle.term_text.specs.View.{tree_of, parts_of};
ghost use Rattle.steps.specs.Answers.{Answers};
ghost use Rattle.steps.specs.Steps.{◌then◌};
ghost use Rattle.steps.specs.TermFaults.{term_cause};
ghost use Rattle.term_classes.specs.Finding.{find_polynomial};
ghost use Rattle.term_classes.specs.Walk.{place_of, times_found, walk, walk_parts};
ghost use Rattle.term_walk.specs.Views.{gathered_of};
ghost use Rattle.term_walk.specs.WalkRows.{is_one_turned};

use crate::exponents::{Exponent, kind_of_exponent, times_exponential_of};
use crate::factorials::{times_binomial_of, times_factorial_of};
use crate::gathered::Gathered;
use crate::powers::{WalkPower, power_of_part};
use std::alloc::Global;
use steps::TermFault;
use term_text::{Ast, Node, Part};
use tree_polynomials::polynomial_of_tree;

// What was gathered, times the tree to a power.
pub(crate) fn walk_tree(
    alloc: Global,
    tree: &Ast,
    power: i64,
    gathered: Gathered,
) -> Result<Gathered, TermFault>
    requires not_zero { power ≢ pos 0 }
    requires small { unsigned_abs power ≤ 12 }
    ensures answers { Answers term_cause gathered_of (walk (tree_of tree.now) power (gathered_of gathered)) result }
{
    walk_node(alloc, tree, WalkPower { value: power }, gathered)
}

// The same, by what stands at the tree's node.
#[cycle(walk)]
fn walk_node(
    alloc: Global,
    tree: &Ast,
    power: WalkPower,
    gathered: Gathered,
) -> Result<Gathered, TermFault>
    ensures answers { Answers term_cause gathered_of (walk (tree_of tree.now) power.value (gathered_of gathered)) result }
{
    match &tree.node {
        Node::Product(parts) => walk_factors(alloc, parts.as_slice(), power, gathered),
        Node::Sum(parts) => {
            let parts = parts.as_slice();
            if !has_one_turned(parts) {
                return times_polynomial_of(alloc, tree, power.value, gathered);
            }
            walk_node(alloc, &parts[0].ast, power, gathered.with_sign(power.value))
        }
        Node::Pow(base, exponent) => {
            let kind = kind_of_exponent(alloc, exponent.get(), power)?;
            match kind {
                Exponent::Zero => Ok(gathered),
                Exponent::Constant(product) => walk_node(alloc, base.get(), product, gathered),
                Exponent::Varying(form) => times_exponential_of(
                    alloc,
                    tree.at,
                    base.get(),
                    exponent.get(),
                    form,
                    power.value,
                    gathered,
                ),
            }
        }
        Node::Factorial(argument) => {
            times_factorial_of(alloc, argument.get(), power.value, gathered)
        }
        Node::Binomial(upper, lower) => times_binomial_of(
            alloc,
            tree.at,
            upper.get(),
            lower.get(),
            power.value,
            gathered,
        ),
        Node::Literal(_) => times_polynomial_of(alloc, tree, power.value, gathered),
        Node::N => times_polynomial_of(alloc, tree, power.value, gathered),
        Node::K => times_polynomial_of(alloc, tree, power.value, gathered),
    }
}

// What was gathered, times the parts of a product to a power: a part that is divided by has the opposite power.
#[cycle(walk)]
fn walk_factors(
    alloc: Global,
    parts: &[Part],
    power: WalkPower,
    gathered: Gathered,
) -> Result<Gathered, TermFault>
    ensures answers { Answers term_cause gathered_of (walk_parts (parts_of parts.now) power.value (gathered_of gathered)) result }
{
    let mut gathered = gathered;
    for part in parts {
        gathered = walk_node(
            alloc,
            &part.ast,
            power_of_part(part.turned, power),
            gathered,
        )?;
    }
    Ok(gathered)
}

// Whether there is exactly one part, which is turned.
fn has_one_turned(parts: &[Part]) -> bool
    ensures test { result ≡ is_one_turned (parts_of parts.now) }
{
    match parts {
        [] => false,
        [part] => part.turned,
        _ => false,
    }
}

// What was gathered, times the polynomial that a tree is, to a power.
fn times_polynomial_of(
    alloc: Global,
    tree: &Ast,
    power: i64,
    gathered: Gathered,
) -> Result<Gathered, TermFault>
    requires not_zero { power ≢ pos 0 }
    requires small { unsigned_abs power ≤ 12 }
    ensures answers { Answers term_cause gathered_of (find_polynomial (tree_of tree.now) then (times_found (place_of (tree_of tree.now)) power
        (gathered_of gathered))) result }
{
    let polynomial = polynomial_of_tree(alloc, tree)?;
    gathered.times_found(alloc, tree.at, power, polynomial)
}
