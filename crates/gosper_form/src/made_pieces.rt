//! How the pieces of a term are made.

ghost use Rattle.std.specs.Prelude.{◌≤◌, ◌+◌, IfOk, IfErr};
ghost use Rattle.std.specs.List.{AllByRecursion};
ghost use Rattle.ring_laws.specs.Answer.{OnFault};
ghost use Rattle.hypergeometric.specs.TermFacts.{IsPlain, IsProper, total_power};
ghost use Rattle.proper_term.specs.TermOf.{term_of};
ghost use Rattle.steps.specs.Answers.{Answers};
ghost use Rattle.steps.specs.StepFaults.{step_cause};
ghost use Rattle.term_pieces.specs.Pieces.{ArePiecesOf};
ghost use Rattle.gosper_form.specs.PieceSteps.{degrees, piece_sizes, pieces_steps, SomeTooLarge};
ghost use Rattle.gosper_form.specs.PiecesOf.{pieces_held};

use crate::carriers::made_carrier;
use crate::degrees::test_degrees;
use crate::form_products::product_of;
use crate::piece_forms::{forms_of_q, forms_of_r};
use crate::pieces::Pieces;
use crate::tops::made_tops;
use proper_term::Proper;
use ring_laws::RingFault;
use std::alloc::Global;
use steps::{StepFault, step_fault};

// All that is multiplied, once the degrees are within the limit.
fn multiplied(alloc: Global, term: &Proper, order: u32) -> Result<Pieces, RingFault>
    requires plain { IsPlain (term_of term.now) }
    requires low { order ≤ 6 }
    ensures pieces { IfOk result (λ pieces. ArePiecesOf (pieces_held pieces) (term_of term.now) order) }
    ensures too_large { IfErr result (OnFault (SomeTooLarge (piece_sizes (term_of term.now) order))) }
{
    let forms = forms_of_q(alloc, term, order)?;
    let q0 = product_of(alloc, *term.k_base().top(), forms.as_slice())?;
    let forms = forms_of_r(alloc, term, order)?;
    let r0 = product_of(alloc, *term.k_base().bottom(), forms.as_slice())?;
    let tops = made_tops(alloc, term, order)?;
    let carrier = made_carrier(alloc, term, order)?;
    Ok(Pieces {
        order,
        tops,
        q0,
        r0,
        carrier,
    })
}

/// The pieces of a plain term at an order (A=B chapter 6, in a form without poles): p_0, .., p_J, q0, r0 and the carrier K. Wherever the term
/// is defined at n, .., n + J there is one value with which p_j makes the term at n + j, r0 at k - 1 makes K at k, and q0 makes K at k + 1.
///
/// `Limit` comes exactly where a degree in k is above 64, with the first of q0, r0, p_0, .., p_J that is: they are counted before anything is
/// multiplied. `TooLarge` comes only where all degrees are within the limit and an operation isn't in bounds.
pub fn pieces_of(alloc: Global, term: &Proper, order: u32) -> Result<Pieces, StepFault>
    requires plain { IsPlain (term_of term.now) }
    requires low { order ≤ 6 }
    ensures pieces { IfOk result (λ pieces. ArePiecesOf (pieces_held pieces) (term_of term.now) order) }
    ensures answers { Answers step_cause (λ _. tt {0}) (pieces_steps (term_of term.now) order) result }
    ensures degrees { IfOk result (λ pieces. AllByRecursion (λ degree. degree ≤ 64) (degrees (term_of term.now) order)) }
    ensures carrier { IfOk result (λ pieces. IsProper (pieces_held pieces).carrier) }
    ensures carrier_powers { IfOk result (λ pieces. total_power (pieces_held pieces).carrier.up + total_power (pieces_held pieces).carrier.down
        + total_power (pieces_held pieces).carrier.over ≤ 168) }
{
    test_degrees(alloc, term, order)?;
    match multiplied(alloc, term, order) {
        Ok(pieces) => Ok(pieces),
        Err(fault) => Err(step_fault(fault)),
    }
}
