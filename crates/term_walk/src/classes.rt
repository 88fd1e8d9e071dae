//! The class of a tree.

ghost use Rattle.std.specs.Prelude.{◌≡◌, IfOk};
ghost use Rattle.hypergeometric.specs.TermFacts.{IsPlain};
ghost use Rattle.term_classes.specs.TreeValue.{term_value};
ghost use Rattle.lin_form.specs.ListOf.{list_of};
ghost use Rattle.term_text.specs.View.{tree_of};
ghost use Rattle.proper_term.specs.TermOf.{term_of};
ghost use Rattle.term_classes.specs.ClassBounds.{IsTermInBounds};
ghost use Rattle.hypergeometric.specs.TermValue.{HasValue};
ghost use Rattle.term_classes.specs.ClassValues.{quotient_value};
ghost use Rattle.steps.specs.Answers.{Answers};
ghost use Rattle.steps.specs.Steps.{gives};
ghost use Rattle.steps.specs.TermFaults.{term_cause};
ghost use Rattle.term_classes.specs.Walk.{cancelled, class_of, class_of_quotient};
ghost use Rattle.term_walk.specs.Views.{gathered_of};

use crate::cancelling_forms::{other_forms, shared_forms};
use crate::factors::Factors;
use crate::gathered::Gathered;
use crate::gathered_polynomials::nothing_gathered;
use crate::walk::walk_tree;
use proper_term::Proper;
use std::alloc::Global;
use steps::TermFault;
use term_text::Ast;

// What was gathered, with the factorials that stand above and below cancelled, and guarded.
fn cancelled_term(alloc: Global, gathered: Gathered) -> Result<Proper, TermFault>
    requires plain { IsTermInBounds (gathered_of gathered) → IsPlain (cancelled (gathered_of gathered)) }
    ensures answers { Answers term_cause term_of (gives (cancelled (gathered_of gathered))) result }
    ensures plain { IfOk result (λ term. IsPlain (term_of term)) }
{
    let Gathered {
        poly,
        scale,
        n_base,
        k_base,
        factors,
    } = gathered;
    let Factors { up, down, over, .. } = factors;
    let Ok(guard) = shared_forms(alloc, &up, &down) else {
        return Err(TermFault::Memory);
    };
    let Ok(up) = other_forms(alloc, &up, &guard) else {
        return Err(TermFault::Memory);
    };
    let Ok(down) = other_forms(alloc, &down, &guard) else {
        return Err(TermFault::Memory);
    };
    match Proper::new(poly, scale, n_base, k_base, up, down, over, guard) {
        Some(term) => Ok(term),
        None => unreachable!(),
    }
}

/// The proper term that a tree stands for, or the first refusal of the walk over it (A=B 4.4).
///
/// The term is plain. At all whole n and k it is defined exactly where the tree's own value is, and equal to it there.
pub fn classify(alloc: Global, tree: &Ast) -> Result<Proper, TermFault>
    ensures class { Answers term_cause term_of (class_of (tree_of tree.now)) result }
    ensures value { IfOk result (λ term. HasValue (term_of term) (term_value (tree_of tree.now))) }
    ensures plain { IfOk result (λ term. IsPlain (term_of term)) }
{
    let nothing = nothing_gathered(alloc)?;
    let gathered = walk_tree(alloc, tree, 1, nothing)?;
    cancelled_term(alloc, gathered)
}

/// The proper term that the quotient of two trees stands for, or the first refusal of the walk over both.
///
/// The term is plain. At all whole n and k it is defined exactly where the value of the first tree times that of the second to the
/// power -1 is, and equal to it there.
pub fn classify_quotient(alloc: Global, top: &Ast, bottom: &Ast) -> Result<Proper, TermFault>
    ensures class { Answers term_cause term_of (class_of_quotient (tree_of top.now) (tree_of bottom.now)) result }
    ensures value { IfOk result (λ term. HasValue (term_of term) (quotient_value (tree_of top.now) (tree_of bottom.now))) }
    ensures plain { IfOk result (λ term. IsPlain (term_of term)) }
{
    let nothing = nothing_gathered(alloc)?;
    let above = walk_tree(alloc, top, 1, nothing)?;
    let gathered = walk_tree(alloc, bottom, -1, above)?;
    cancelled_term(alloc, gathered)
}
