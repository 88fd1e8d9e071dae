//! What is taken from q0 and r0, candidate by candidate.

ghost use Rattle.std.specs.Prelude.{◌≡◌, ◌≢◌, ◌+◌, ◌-◌, ◌≤◌, ◌<◌, ◌^◌, min, [], ◌∷◌, ◌++◌, Err, IfOk, IfErr, OnOk};
ghost use Rattle.ring_laws.specs.declared.faults.RingFault.TheVariants.{Memory};
ghost use Rattle.hypergeometric.specs.LinearForm.{LinearForm};
ghost use Rattle.hypergeometric.specs.FactorLists.{power_of, with_factor};
ghost use Rattle.steps.specs.Answers.{HasCause};
ghost use Rattle.steps.specs.Limits.{capped};
ghost use Rattle.steps.specs.StepFaults.{step_cause};
ghost use Rattle.steps.specs.declared.faults.StepFault.TheVariants.{Limit, TooLarge};
ghost use Rattle.steps.specs.declared.limits.LimitName.TheVariants.{MatchShifts};
ghost use Rattle.term_pieces.specs.NormalForm.{Normal as NormalForm, IsNormalFormOf};
ghost use Rattle.lin_form.specs.Forms.{form_of};
ghost use Rattle.lin_form.specs.ListOf.{list_of};
ghost use Rattle.gosper_form.specs.NormalView.{matches_of};
ghost use Rattle.gosper_form.specs.NormalShifts.{shifts_counted, normal_steps};
ghost use Rattle.gosper_form.specs.NormalCandidates.{HasAllCandidates, AreRising, AreCandidates, AreMatchesOf, AreTaken};

use crate::normal::Match;
use crate::normal_candidates::Candidate;
use lin_form::FactorList;
use ring_laws::RingFault;
use std::alloc::Global;
use steps::{LimitName, StepFault, step_fault};

// The matches so far, and what they take from q0 and from r0.
#[derive(Drop)]
pub(crate) struct Taken {
    pub(crate) matches: Vec<Match>,
    pub(crate) above: FactorList,
    pub(crate) below: FactorList,
}

impl Taken {
    // Nothing is taken.
    fn new(alloc: Global) -> Result<Taken, RingFault>
        ensures matches { IfOk result (λ taken. matches_of taken.matches.items ≡ []) }
        ensures taken { IfOk result (λ taken. AreTaken [] (list_of taken.above).factors (list_of taken.below).factors) }
        ensures memory { IfErr result (λ fault. fault ≡ Memory) }
    {
        Ok(Taken {
            matches: Vec::new(alloc),
            above: FactorList::new(alloc)?,
            below: FactorList::new(alloc)?,
        })
    }

    // How often a candidate can be taken: the lesser of what is left of its form in q0, and of the form at k - h in r0.
    fn left(&self, candidate: &Candidate, q0: &FactorList, r0: &FactorList) -> u32
        ensures lesser { result
            ≡ min (power_of (form_of candidate.now.form) (list_of q0.now).factors - power_of (form_of candidate.now.form) (list_of self.now.above).factors)
            (power_of (form_of candidate.now.earlier) (list_of r0.now).factors
            - power_of (form_of candidate.now.earlier) (list_of self.now.below).factors) }
        ensures fits_above { 1 ≤ result → power_of (form_of candidate.now.form) (list_of self.now.above).factors + result < 2 ^ 32 }
        ensures fits_below { 1 ≤ result → power_of (form_of candidate.now.earlier) (list_of self.now.below).factors + result < 2 ^ 32 }
    {
        let above = q0
            .power(&candidate.form)
            .saturating_sub(self.above.power(&candidate.form));
        let below = r0
            .power(&candidate.earlier)
            .saturating_sub(self.below.power(&candidate.earlier));
        above.min(below)
    }

    // One match more.
    fn with_match(mut self, candidate: &Candidate, power: u32) -> Result<Taken, RingFault>
        requires some { 1 ≤ power }
        requires fits_above { power_of (form_of candidate.now.form) (list_of self.above).factors + power < 2 ^ 32 }
        requires fits_below { power_of (form_of candidate.now.earlier) (list_of self.below).factors + power < 2 ^ 32 }
        ensures matches { IfOk result (λ taken. taken.matches.items
            ≡ self.matches.items ++ (record { form = candidate.now.form; shift = candidate.now.shift; power = power } ∷ [])) }
        ensures above { IfOk result (λ taken. (list_of taken.above).factors
            ≡ with_factor (form_of candidate.now.form) power (list_of self.above).factors) }
        ensures below { IfOk result (λ taken. (list_of taken.below).factors
            ≡ with_factor (form_of candidate.now.earlier) power (list_of self.below).factors) }
        ensures memory { IfErr result (λ fault. fault ≡ Memory) }
    {
        self.above.multiply(candidate.form, power)?;
        self.below.multiply(candidate.earlier, power)?;
        self.matches.push(Match {
            form: candidate.form,
            shift: candidate.shift,
            power,
        })?;
        Ok(self)
    }
}

// What is taken from q0 and r0 over all candidates, or the first count of shifts that is above the limit.
pub(crate) fn take_matches(
    alloc: Global,
    q0: &FactorList,
    r0: &FactorList,
    candidates: &[Candidate],
) -> Result<Taken, StepFault>
    requires candidates { AreCandidates candidates.now }
    requires all { HasAllCandidates (list_of q0.now) (list_of r0.now) candidates.now }
    requires rising { AreRising candidates.now }
    ensures matches { IfOk result (λ taken. AreMatchesOf (matches_of taken.matches.items) (list_of q0.now) (list_of r0.now)) }
    ensures taken { IfOk result (λ taken. AreTaken (matches_of taken.matches.items) (list_of taken.above).factors (list_of taken.below).factors) }
    ensures few_shifts { IfOk result (λ taken. shifts_counted (matches_of taken.matches.items) ≤ 256) }
    ensures limit { IfErr result (λ fault. (normal : NormalForm) → IsNormalFormOf normal (list_of q0.now) (list_of r0.now)
        → HasCause (normal_steps normal) (step_cause fault)) }
    ensures never_too_large { result ≢ Err TooLarge }
{
    let mut taken = Taken::new(alloc).map_err(|fault| step_fault(fault))?;
    let mut counted: u128 = 0;
    for candidate in candidates {
        let power = taken.left(candidate, q0, r0);
        if power > 0 {
            taken = taken
                .with_match(candidate, power)
                .map_err(|fault| step_fault(fault))?;
            counted += (u128::from(candidate.shift) + 1) * u128::from(power);
            within_shifts(counted)?;
        }
    }
    Ok(taken)
}

// Refuses a count of shifts that is above the limit.
fn within_shifts(counted: u128) -> Result<(), StepFault>
    ensures within { OnOk result (counted ≤ 256) }
    ensures passed { IfErr result (λ fault. (256 < counted) × (fault ≡ Limit MatchShifts (capped counted))) }
{
    let name = LimitName::MatchShifts;
    let counted = counted.min(u128::from(u64::MAX)) as u64;
    if counted > name.greatest_count() {
        return Err(StepFault::Limit { name, counted });
    }
    Ok(())
}
