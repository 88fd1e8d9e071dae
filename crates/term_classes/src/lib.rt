//! The class of a tree: the proper term that it stands for, or why it stands for none.
//!
//! `specs/` has the definitions, `proofs/` the laws that the crates above cite. The functions here do nothing: the contract of each is a law.
//! Read `specs/TreePolynomial.antt` and `specs/TreeValue.antt` (what a tree is worth),
//! `specs/Refusals.antt`, `specs/Steps.antt`, `specs/Finding.antt` (the polynomial and the constant of a tree), then `specs/Walk.antt`
//! (the class), and `specs/ClassValues.antt` (what it means that a term has the value of a tree).
#![tactic(auto)]

ghost use Rattle.std.specs.Prelude.{◌≡◌, Ok};
ghost use Rattle.hypergeometric.specs.ProperTerm.{ProperTerm};
ghost use Rattle.grammar.specs.Tree.{Tree};
ghost use Rattle.term_classes.specs.TreeValue.{term_value};
ghost use Rattle.term_classes.specs.Walk.{class_of, class_of_quotient};
ghost use Rattle.hypergeometric.specs.TermFacts.{IsPlain};
ghost use Rattle.term_classes.specs.ClassBounds.{IsTermInBounds};
ghost use Rattle.hypergeometric.specs.TermValue.{HasValue};
ghost use Rattle.term_classes.specs.ClassValues.{quotient_value};

/// The class of a tree, where it has one, is defined exactly where the tree's own value is, and has that value there, at all whole n
/// and k (A=B 4.4). The like for the quotient of two trees.
pub fn classes_have_the_values()
    ensures tree { (t : Tree) (f : ProperTerm) → (class_of t).outcome ≡ Ok f → HasValue f (term_value t) }
    ensures quotient { (a b : Tree) (f : ProperTerm) → (class_of_quotient a b).outcome ≡ Ok f → HasValue f (quotient_value a b) }
{}

/// The class of a tree is a plain term where its numbers are in bounds: no form stands above and below, all forms are within the limits,
/// denominators are primitive, fractions are in lowest terms, and nothing is 0. The like for the quotient of two trees.
pub fn classes_are_plain()
    ensures tree { (t : Tree) (f : ProperTerm) → (class_of t).outcome ≡ Ok f → IsTermInBounds f → IsPlain f }
    ensures quotient { (a b : Tree) (f : ProperTerm) → (class_of_quotient a b).outcome ≡ Ok f → IsTermInBounds f → IsPlain f }
{}
