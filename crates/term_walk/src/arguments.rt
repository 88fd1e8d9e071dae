//! The arguments of factorials and binomial coefficients, and the forms of exponents.

ghost use Rattle.std.specs.Prelude.{◌≡◌};
ghost use Rattle.term_text.specs.View.{tree_of};
ghost use Rattle.term_classes.specs.Walk.{find_argument, form_or_refused, not_negative};
ghost use Rattle.steps.specs.Answers.{Answers};
ghost use Rattle.steps.specs.Found.{found};
ghost use Rattle.steps.specs.TermFaults.{term_cause};
ghost use Rattle.term_walk.specs.Views.{wide_form_of};

use crate::wide_forms::{WideForm, is_negative_number, linear_form};
use std::alloc::Global;
use steps::TermFault;
use term_text::Ast;
use tree_polynomials::polynomial_of_tree;

// The linear form that the tree of an argument is.
pub(crate) fn argument_of_tree(alloc: Global, tree: &Ast) -> Result<WideForm, TermFault>
    ensures answers { Answers term_cause wide_form_of (find_argument (tree_of tree.now)) result }
{
    let polynomial = polynomial_of_tree(alloc, tree)?;
    form_of_tree(1, tree, linear_form(&polynomial))
}

// The linear form that was found of a tree, and the reason at the tree's place where there is none.
pub(crate) fn form_of_tree(
    reason: u8,
    tree: &Ast,
    form: Option<WideForm>,
) -> Result<WideForm, TermFault>
    ensures answers { Answers term_cause wide_form_of (form_or_refused reason (tree_of tree.now) (found wide_form_of form)) result }
{
    match form {
        Some(form) => Ok(form),
        None => Err(TermFault::Improper {
            reason,
            at: tree.at,
        }),
    }
}

// The argument, unless it is a negative number.
pub(crate) fn not_negative_number(at: u32, form: WideForm) -> Result<WideForm, TermFault>
    ensures answers { Answers term_cause wide_form_of (not_negative at (wide_form_of form)) result }
{
    if is_negative_number(form) {
        return Err(TermFault::Improper { reason: 2, at });
    }
    Ok(form)
}
