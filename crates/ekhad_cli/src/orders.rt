//! The steps of an order, as far as they are done today.

ghost use Rattle.std.specs.Prelude.{◌≤◌};
ghost use Rattle.hypergeometric.specs.TermFacts.{IsPlain};
ghost use Rattle.proper_term.specs.TermOf.{term_of};
ghost use Rattle.term_pieces.specs.NormalForm.{Normal};
ghost use Rattle.steps.specs.Answers.{Answers};
ghost use Rattle.steps.specs.StepFaults.{step_cause};
ghost use Rattle.ekhad_cli.specs.OrderSteps.{IsNormalAt, order_steps};

use gosper_form::{normal_form, pieces_of};
use proper_term::Proper;
use std::alloc::Global;
use steps::StepFault;

/// Whether the pieces of a term at an order, and the normal form of their quotient, are within the limits and in bounds.
pub(crate) fn test_order(alloc: Global, term: &Proper, order: u32) -> Result<(), StepFault>
    requires plain { IsPlain (term_of term.now) }
    requires low { order ≤ 6 }
    ensures steps { (normal : Normal) → IsNormalAt normal (term_of term.now) order
        → Answers step_cause (λ _. normal) (order_steps (term_of term.now) order normal) result }
{
    let pieces = pieces_of(alloc, term, order)?;
    let _normal = normal_form(alloc, &pieces)?;
    Ok(())
}
