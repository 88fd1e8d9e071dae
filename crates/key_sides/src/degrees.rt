//! The degrees in k of the sides, counted before anything is multiplied.

ghost use Rattle.std.specs.Prelude.{◌≡◌, ◌-◌, ◌≤◌, ℕ, cond, length, map};
ghost use Rattle.ring_laws.specs.Meaning.{items};
ghost use Rattle.hypergeometric.specs.PrimitiveForm.{is_zero};
ghost use Rattle.lin_form.specs.Forms.{form_of};
ghost use Rattle.lin_form.specs.ListOf.{list_of};
ghost use Rattle.steps.specs.declared.limits.LimitName.TheVariants.{Degree};
ghost use Rattle.steps.specs.Answers.{Answers};
ghost use Rattle.steps.specs.Steps.{within_limit};
ghost use Rattle.steps.specs.StepFaults.{step_cause};
ghost use Rattle.steps.specs.Limits.{capped};
ghost use Rattle.gosper_form.specs.PieceSteps.{degree_in_k, each_within};
ghost use Rattle.gosper_form.specs.PiecesOf.{top_of, pieces_held};
ghost use Rattle.gosper_form.specs.NormalView.{normal_of};
ghost use Rattle.key_sides.specs.Sides.{side_degree, side_degrees};

use gosper_form::{Normal, Pieces, Top};
use lin_form::{FactorList, LinForm};
use poly_generic::Znk;
use ring_laws::Ring;
use steps::{LimitName, StepFault};

// The power of a form with a k, and 0 of one without.
fn power_in_k(form: LinForm, power: u32) -> u64
    ensures power { result ≡ cond (is_zero (form_of form).k_slope) 0 power }
{
    if form.k_slope() == 0 {
        return 0;
    }
    u64::from(power)
}

// The degree in k of the product of the forms, up to 2^64 - 1.
fn degree_of(list: &FactorList) -> u64
    ensures degree { result ≡ capped (degree_in_k (list_of list.now).factors) }
{
    let mut degree: u64 = 0;
    for (form, power) in list.iter() {
        degree = degree.saturating_add(power_in_k(form, power));
    }
    degree
}

// The degree in k of a polynomial, and 0 for zero.
fn degree_of_poly(f: &Znk) -> u64
    ensures degree { result ≡ length (items (⟦<Znk as Ring>⟧.meaning f.now)) - 1 }
    ensures small { result ≤ 255 }
{
    match f.degree() {
        Some(degree) => u64::from(degree),
        None => 0,
    }
}

// The degree in k of g p_j, up to 2^64 - 1.
fn degree_of_side(g: &FactorList, top: &Top) -> u64
    ensures degree { result ≡ capped (side_degree (list_of g.now) (top_of top.now)) }
{
    let degree = degree_of_poly(top.poly()).saturating_add(degree_of(top.factors()));
    degree_of(g).saturating_add(degree)
}

// Whether a degree, which is carried up to 2^64 - 1, is within the limit.
fn test_degree(degree: u64) -> Result<(), StepFault>
    ensures answers { (count : ℕ) → degree ≡ capped count → Answers step_cause (λ _. tt {0}) (within_limit Degree count (tt {0})) result }
{
    if degree > LimitName::Degree.greatest_count() {
        return Err(StepFault::Limit {
            name: LimitName::Degree,
            counted: degree,
        });
    }
    Ok(())
}

// Whether the degrees of g p_0, .., g p_J are within the limit, in this order.
pub(crate) fn test_degrees(pieces: &Pieces, normal: &Normal) -> Result<(), StepFault>
    ensures answers { Answers step_cause (λ _. tt {0}) (each_within (side_degrees (normal_of normal.now) (pieces_held pieces.now))) result }
{
    for j in 0..=pieces.order() {
        let Some(top) = pieces.top(j) else {
            return Ok(());
        };
        test_degree(degree_of_side(normal.g(), top))?;
    }
    Ok(())
}
