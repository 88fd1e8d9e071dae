//! Gosper's normal form.

ghost use Rattle.std.specs.Prelude.{◌≡◌, ◌≢◌, ◌≤◌, Err, IfOk, IfErr};
ghost use Rattle.ring_laws.specs.declared.faults.RingFault.TheVariants.{Memory};
ghost use Rattle.steps.specs.Answers.{Answers};
ghost use Rattle.steps.specs.StepFaults.{step_cause};
ghost use Rattle.steps.specs.declared.faults.StepFault.TheVariants.{TooLarge};
ghost use Rattle.term_pieces.specs.NormalForm.{Normal as NormalForm, IsNormalFormOf, HasNoMatch};
ghost use Rattle.lin_form.specs.ListOf.{list_of};
ghost use Rattle.gosper_form.specs.NormalCandidates.{AreMatchesOf, AreTaken};
ghost use Rattle.gosper_form.specs.NormalView.{matches_of, normal_of};
ghost use Rattle.gosper_form.specs.NormalShifts.{shifts_counted, normal_steps};
ghost use Rattle.gosper_form.specs.NormalLists.{IsFormQuotient};
ghost use Rattle.gosper_form.specs.PiecesOf.{pieces_held};

use crate::normal_candidates::candidates;
use crate::normal_lists::{chains, without};
use crate::normal_matches::{Taken, take_matches};
use crate::pieces::Pieces;
use lin_form::{FactorList, LinForm};
use ring_laws::RingFault;
use std::alloc::Global;
use steps::{StepFault, step_fault};

/// A form s of q0 and a shift h: s at k - h is taken from r0 with it, each to a power.
#[derive(Clone, Copy, Debug, PartialEq, Eq, Drop)]
pub struct Match {
    /// The form s.
    pub form: LinForm,
    /// The shift h.
    pub shift: u64,
    /// How often it is taken, at least once.
    pub power: u32,
}

/// Gosper's normal form of a quotient q0/r0 of products of forms: q0(k)/r0(k) is q(k)/r(k) times g(k+1)/g(k).
#[derive(Drop)]
pub struct Normal {
    matches: Vec<Match>,
    q: FactorList,
    r: FactorList,
    g: FactorList,
    poles: FactorList,
}

impl Normal {
    /// What was taken, by rising shift and then by form.
    pub fn matches(&self) -> &[Match]
        ensures matches { matches_of result.now ≡ (normal_of self.now).matches }
    {
        &self.matches
    }

    /// What is left of q0.
    pub fn q(&self) -> &FactorList
        ensures q { list_of result.now ≡ (normal_of self.now).q }
    {
        &self.q
    }

    /// What is left of r0.
    pub fn r(&self) -> &FactorList
        ensures r { list_of result.now ≡ (normal_of self.now).r }
    {
        &self.r
    }

    /// The product of s(k-1) .. s(k-h) over the matches of s at h.
    pub fn g(&self) -> &FactorList
        ensures g { list_of result.now ≡ (normal_of self.now).g }
    {
        &self.g
    }

    /// The first poles: the product of the chains s(k-1) .. s(k-h-1) over the matches of s at h.
    pub fn poles(&self) -> &FactorList
        ensures poles { list_of result.now ≡ (normal_of self.now).poles }
    {
        &self.poles
    }
}

/// Gosper's normal form of the quotient of two products of forms (A=B chapter 5).
///
/// For h = 0, 1, 2, .. and each form s of q0 in the order of forms: where s at k - h is a form of r0, the lesser of the two powers is taken
/// from both. What is left is q and r, and no form of q is a form of r at the same or an earlier k.
///
/// `Limit` comes exactly where the sum of (h+1) times the power passes 256, with the first such sum: it is tested after each match. It is
/// never `TooLarge`.
pub fn normal_form_of(alloc: Global, q0: &FactorList, r0: &FactorList) -> Result<Normal, StepFault>
    requires forms { IsFormQuotient (list_of q0.now) (list_of r0.now) }
    ensures normal { IfOk result (λ normal. IsNormalFormOf (normal_of normal) (list_of q0.now) (list_of r0.now)) }
    ensures no_match { IfOk result (λ normal. HasNoMatch (normal_of normal).q.factors (normal_of normal).r.factors) }
    ensures few_shifts { IfOk result (λ normal. shifts_counted (normal_of normal).matches ≤ 256) }

    // The limit is passed exactly where the steps say so, and with what they count.
    ensures steps { (normal : NormalForm) → IsNormalFormOf normal (list_of q0.now) (list_of r0.now)
        → Answers step_cause normal_of (normal_steps normal) result }
    ensures never_too_large { result ≢ Err TooLarge }
{
    let found = candidates(alloc, q0, r0).map_err(|fault| step_fault(fault))?;
    let taken = take_matches(alloc, q0, r0, &found)?;
    match with_lists(alloc, q0, r0, taken) {
        Ok(normal) => Ok(normal),
        Err(fault) => Err(step_fault(fault)),
    }
}

// The normal form, of what is taken.
fn with_lists(
    alloc: Global,
    q0: &FactorList,
    r0: &FactorList,
    taken: Taken,
) -> Result<Normal, RingFault>
    requires forms { IsFormQuotient (list_of q0.now) (list_of r0.now) }
    requires matches { AreMatchesOf (matches_of taken.matches.items) (list_of q0.now) (list_of r0.now) }
    requires taken { AreTaken (matches_of taken.matches.items) (list_of taken.above).factors (list_of taken.below).factors }
    requires few_shifts { shifts_counted (matches_of taken.matches.items) ≤ 256 }
    ensures normal { IfOk result (λ normal. IsNormalFormOf (normal_of normal) (list_of q0.now) (list_of r0.now)) }
    ensures few_shifts { IfOk result (λ normal. shifts_counted (normal_of normal).matches ≤ 256) }
    ensures memory { IfErr result (λ fault. fault ≡ Memory) }
{
    let q = without(alloc, q0, &taken.above)?;
    let r = without(alloc, r0, &taken.below)?;
    let g = chains(alloc, &taken.matches, 0)?;
    let poles = chains(alloc, &taken.matches, 1)?;
    Ok(Normal {
        matches: taken.matches,
        q,
        r,
        g,
        poles,
    })
}

/// Gosper's normal form of the quotient q0/r0 of pieces, as `normal_form_of` gives it (A=B chapter 5).
pub fn normal_form(alloc: Global, pieces: &Pieces) -> Result<Normal, StepFault>
    ensures normal { IfOk result (λ normal. IsNormalFormOf (normal_of normal) (pieces_held pieces.now).q0 (pieces_held pieces.now).r0) }
    ensures no_match { IfOk result (λ normal. HasNoMatch (normal_of normal).q.factors (normal_of normal).r.factors) }
    ensures few_shifts { IfOk result (λ normal. shifts_counted (normal_of normal).matches ≤ 256) }
    ensures steps { (normal : NormalForm) → IsNormalFormOf normal (pieces_held pieces.now).q0 (pieces_held pieces.now).r0
        → Answers step_cause normal_of (normal_steps normal) result }
    ensures never_too_large { result ≢ Err TooLarge }
{
    normal_form_of(alloc, pieces.q0(), pieces.r0())
}
