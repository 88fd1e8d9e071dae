//! Where the name k stands in a tree.

ghost use Rattle.std.specs.Prelude.{◌≡◌, [], MatchOption, Some, None, ◌++◌, ℕ, List};
ghost use Rattle.term_text.specs.View.{tree_of, parts_of};
ghost use Rattle.term_classes.specs.NamesOfK.{k_places, parts_k_places, IsLeast};

use term_text::{Ast, Node, Part};

/// The least place of a name k in the tree, `None` exactly where none stands in it. It takes no memory.
#[cycle(walk)]
pub fn free_of_k(tree: &Ast) -> Option<u32>
    ensures least { MatchOption result (k_places (tree_of tree.now) ≡ []) (λ at. IsLeast at (k_places (tree_of tree.now))) }
{
    match &tree.node {
        Node::K => Some(tree.at),
        Node::Literal(_) => None,
        Node::N => None,
        Node::Sum(parts) => least_of_parts(parts.as_slice()),
        Node::Product(parts) => least_of_parts(parts.as_slice()),
        Node::Pow(base, exponent) => { lesser(free_of_k(base.get()), free_of_k(exponent.get())) }
        Node::Factorial(argument) => free_of_k(argument.get()),
        Node::Binomial(upper, lower) => lesser(free_of_k(upper.get()), free_of_k(lower.get())),
    }
}

// The same of the parts of a sum or a product.
#[cycle(walk)]
fn least_of_parts(parts: &[Part]) -> Option<u32>
    ensures least { MatchOption result (parts_k_places (parts_of parts.now) ≡ []) (λ at. IsLeast at (parts_k_places (parts_of parts.now))) }
{
    let mut least = None;
    for part in parts {
        least = lesser(least, free_of_k(&part.ast));
    }
    least
}

// The lesser of two places, of which there may be none.
fn lesser(left: Option<u32>, right: Option<u32>) -> Option<u32>
    ensures least { (xs ys : List ℕ) → MatchOption left (xs ≡ []) (λ at. IsLeast at xs) → MatchOption right (ys ≡ []) (λ at. IsLeast at ys)
        → MatchOption result (xs ++ ys ≡ []) (λ at. IsLeast at (xs ++ ys)) }
{
    match (left, right) {
        (Some(left), Some(right)) => Some(left.min(right)),
        (Some(left), None) => Some(left),
        (None, right) => right,
    }
}
