//! The degrees in k of the pieces, counted before anything is multiplied.

ghost use Rattle.std.specs.Prelude.{◌≡◌, ◌≤◌, ℕ, suc, cond};
ghost use Rattle.hypergeometric.specs.TermFacts.{total_power, IsPlain};
ghost use Rattle.hypergeometric.specs.PrimitiveForm.{is_zero};
ghost use Rattle.lin_form.specs.Forms.{form_of};
ghost use Rattle.proper_term.specs.TermOf.{term_of};
ghost use Rattle.steps.specs.declared.limits.LimitName.TheVariants.{Degree};
ghost use Rattle.steps.specs.Answers.{Answers};
ghost use Rattle.steps.specs.Steps.{within_limit};
ghost use Rattle.steps.specs.StepFaults.{step_cause};
ghost use Rattle.term_pieces.specs.Pieces.{q_forms, r_forms};
ghost use Rattle.gosper_form.specs.RaisedForms.{factors_of, Makes};
ghost use Rattle.gosper_form.specs.PieceSteps.{degree_in_k, top_degree, degrees, each_from, each_within};

use crate::piece_forms::{forms_of_q, forms_of_r, forms_of_top};
use crate::raised_forms::RaisedForm;
use proper_term::Proper;
use ring_laws::RingFault;
use std::alloc::Global;
use steps::{LimitName, StepFault, step_fault};

// The power of a form with a k, and 0 of one without.
fn power_in_k(raised: RaisedForm) -> u64
    ensures power { result ≡ cond (is_zero (form_of raised.form).k_slope) 0 raised.power }
{
    if raised.form.k_slope() == 0 {
        return 0;
    }
    u64::from(raised.power)
}

// The degree in k of the product of the forms.
fn degree_of(forms: &[RaisedForm]) -> u64
    requires few { total_power (factors_of forms.now) ≤ 2304 }
    ensures degree { result ≡ degree_in_k (factors_of forms.now) }
    ensures small { result ≤ 2304 }
{
    let mut degree = 0;
    for raised in forms {
        degree += power_in_k(*raised);
    }
    degree
}

// The degree in k of q0.
fn degree_of_q(alloc: Global, term: &Proper, order: u32) -> Result<u64, RingFault>
    requires plain { IsPlain (term_of term.now) }
    requires low { order ≤ 6 }
    ensures makes { Makes (λ degree. degree) (degree_in_k (q_forms (term_of term.now) order)) result }
{
    let forms = forms_of_q(alloc, term, order)?;
    Ok(degree_of(forms.as_slice()))
}

// The degree in k of r0.
fn degree_of_r(alloc: Global, term: &Proper, order: u32) -> Result<u64, RingFault>
    requires plain { IsPlain (term_of term.now) }
    requires low { order ≤ 6 }
    ensures makes { Makes (λ degree. degree) (degree_in_k (r_forms (term_of term.now) order)) result }
{
    let forms = forms_of_r(alloc, term, order)?;
    Ok(degree_of(forms.as_slice()))
}

// The degree in k of p_j.
fn degree_of_top(alloc: Global, term: &Proper, order: u32, j: u32) -> Result<u64, RingFault>
    requires plain { IsPlain (term_of term.now) }
    requires low { order ≤ 6 }
    requires near { j ≤ 6 }
    ensures makes { Makes (λ degree. degree) (top_degree (term_of term.now) order j) result }
{
    let forms = forms_of_top(alloc, term, order, j)?;
    let degree = match term.poly().degree() {
        Some(degree) => u64::from(degree),
        None => 0,
    };
    Ok(degree + degree_of(forms.as_slice()))
}

// Whether a degree is within the limit.
fn test_degree(degree: u64) -> Result<(), StepFault>
    ensures answers { Answers step_cause (λ _. tt {0}) (within_limit Degree degree (tt {0})) result }
{
    if degree > LimitName::Degree.greatest_count() {
        return Err(StepFault::Limit {
            name: LimitName::Degree,
            counted: degree,
        });
    }
    Ok(())
}

// Whether a degree that was to be counted is.
fn test_counted(counted: Result<u64, RingFault>) -> Result<(), StepFault>
    ensures answers { (degree : ℕ) → Makes (λ found. found) degree counted → Answers step_cause (λ _. tt {0}) (within_limit Degree degree (tt {0})) result }
{
    match counted {
        Ok(degree) => test_degree(degree),
        Err(fault) => Err(step_fault(fault)),
    }
}

// Whether the degrees of p_0, .., p_J are, in this order.
fn test_tops(alloc: Global, term: &Proper, order: u32) -> Result<(), StepFault>
    requires plain { IsPlain (term_of term.now) }
    requires low { order ≤ 6 }
    ensures answers { Answers step_cause (λ _. tt {0}) (each_within (each_from (top_degree (term_of term.now) order) 0 (suc order))) result }
{
    for j in 0..order + 1 {
        test_counted(degree_of_top(alloc, term, order, j))?;
    }
    Ok(())
}

// Whether the degrees of q0, r0, p_0, .., p_J are, in this order.
pub(crate) fn test_degrees(alloc: Global, term: &Proper, order: u32) -> Result<(), StepFault>
    requires plain { IsPlain (term_of term.now) }
    requires low { order ≤ 6 }
    ensures answers { Answers step_cause (λ _. tt {0}) (each_within (degrees (term_of term.now) order)) result }
{
    test_counted(degree_of_q(alloc, term, order))?;
    test_counted(degree_of_r(alloc, term, order))?;
    test_tops(alloc, term, order)
}
