//! Which forms of q0 are forms of r0 at an earlier k, and at which shifts.

ghost use Rattle.std.specs.Prelude.{◌≡◌, ◌≢◌, ℕ, pos, ◌≤ℤ◌, IfOk, IfErr, MatchOption};
ghost use Rattle.std.specs.List.{AllByRecursion};
ghost use Rattle.ring_laws.specs.declared.faults.RingFault.TheVariants.{Memory};
ghost use Rattle.hypergeometric.specs.LinearForm.{LinearForm};
ghost use Rattle.hypergeometric.specs.FactorLists.{power_of};
ghost use Rattle.term_pieces.specs.NormalForm.{at_earlier_k};
ghost use Rattle.lin_form.specs.Forms.{form_of};
ghost use Rattle.lin_form.specs.ListOf.{list_of};
ghost use Rattle.gosper_form.specs.NormalCandidates.{IsFirstShift, StandsIn, HasAllCandidates, AreCandidates, AreRising};

use lin_form::{FactorList, LinForm};
use ring_laws::RingFault;
use std::alloc::Global;

// A shift h, a form, and the form at k - h. The order is that in which matches are taken: by shift, and then by form.
#[derive(Clone, Copy, PartialEq, Eq, PartialOrd, Ord, Drop)]
pub(crate) struct Candidate {
    pub(crate) shift: u64,
    pub(crate) form: LinForm,
    pub(crate) earlier: LinForm,
}

// All candidates, in the order in which matches are taken.
pub(crate) fn candidates(
    alloc: Global,
    q0: &FactorList,
    r0: &FactorList,
) -> Result<Vec<Candidate>, RingFault>
    requires rising { AllByRecursion (λ x. pos 0 ≤ℤ x.form.k_slope) (list_of q0.now).factors }
    ensures all { IfOk result (λ found. HasAllCandidates (list_of q0.now) (list_of r0.now) found.items) }
    ensures candidates { IfOk result (λ found. AreCandidates found.items) }
    ensures rising { IfOk result (λ found. AreRising found.items) }
    ensures memory { IfErr result (λ fault. fault ≡ Memory) }
{
    let mut found = all_candidates(alloc, q0, r0)?;
    found.sort_unstable();
    Ok(found)
}

// The candidates of each form of q0.
fn all_candidates(
    alloc: Global,
    q0: &FactorList,
    r0: &FactorList,
) -> Result<Vec<Candidate>, RingFault>
    requires rising { AllByRecursion (λ x. pos 0 ≤ℤ x.form.k_slope) (list_of q0.now).factors }
    ensures all { IfOk result (λ found. HasAllCandidates (list_of q0.now) (list_of r0.now) found.items) }
    ensures candidates { IfOk result (λ found. AreCandidates found.items) }
    ensures memory { IfErr result (λ fault. fault ≡ Memory) }
{
    let mut found = Vec::new(alloc);
    for index in 0..q0.len() {
        let Some((form, _)) = q0.item(index) else {
            return Ok(found);
        };
        found = with_candidates(found, form, r0)?;
    }
    Ok(found)
}

// The candidates, and those of a form besides: one for each form of r0 that it is at a later k.
fn with_candidates(
    mut found: Vec<Candidate>,
    form: LinForm,
    r0: &FactorList,
) -> Result<Vec<Candidate>, RingFault>
    requires candidates { AreCandidates found.items }
    requires rising { pos 0 ≤ℤ (form_of form).k_slope }
    ensures candidates { IfOk result (λ all. AreCandidates all.items) }
    ensures kept { IfOk result (λ all. (s : LinearForm) (h : ℕ) → StandsIn found.items s h → StandsIn all.items s h) }
    ensures added { IfOk result (λ all. (h : ℕ) → IsFirstShift (form_of form) h → power_of (at_earlier_k (form_of form) h) (list_of r0.now).factors ≢ 0
        → StandsIn all.items (form_of form) h) }
    ensures memory { IfErr result (λ fault. fault ≡ Memory) }
{
    for index in 0..r0.len() {
        let Some((earlier, _)) = r0.item(index) else {
            return Ok(found);
        };
        if let Some(shift) = first_shift(&form, &earlier) {
            found.push(Candidate {
                shift,
                form,
                earlier,
            })?;
        }
    }
    Ok(found)
}

// The first h of at least 0 for which the form at k - h is the other one.
fn first_shift(form: &LinForm, earlier: &LinForm) -> Option<u64>
    requires rising { pos 0 ≤ℤ (form_of form.now).k_slope }
    ensures shift { MatchOption result ((h : ℕ) → IsFirstShift (form_of form.now) h → at_earlier_k (form_of form.now) h ≢ form_of earlier.now)
        (λ h. IsFirstShift (form_of form.now) h × (at_earlier_k (form_of form.now) h ≡ form_of earlier.now)) }
{
    if form.k_slope() > 0 {
        return form.match_shift(earlier);
    }
    (form == earlier).then_some(0)
}
