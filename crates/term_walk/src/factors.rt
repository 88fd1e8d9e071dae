//! The factorials and denominators that a walk over a tree has gathered.

ghost use Rattle.std.specs.Prelude.{◌≡◌, ◌+◌, ◌≤◌, pos, [], IfOk, IfErr};
ghost use Rattle.hypergeometric.specs.TermFacts.{total_power};
ghost use Rattle.lin_form.specs.Forms.{form_of};
ghost use Rattle.hypergeometric.specs.FactorLists.{with_factor};
ghost use Rattle.lin_form.specs.ListOf.{list_of};

use lin_form::{FactorList, LinForm};
use std::alloc::Global;
use steps::{LimitName, TermFault};

/// Forms whose factorials stand above and below, and forms that the rest is divided by: at most 24 by their powers.
///
/// The scales of the three lists are 1.
#[derive(Drop)]
pub(crate) struct Factors {
    pub(crate) up: FactorList,
    pub(crate) down: FactorList,
    pub(crate) over: FactorList,
    pub(crate) count: u32,
    ghost up_scale: { (list_of up).scale ≡ pos 1 },
    ghost down_scale: { (list_of down).scale ≡ pos 1 },
    ghost over_scale: { (list_of over).scale ≡ pos 1 },
    ghost counted: { count ≡ total_power (list_of up).factors + total_power (list_of down).factors + total_power (list_of over).factors },
    ghost few: { count ≤ 24 },
}

// An empty list.
fn no_form(alloc: Global) -> Result<FactorList, TermFault>
    ensures factors { IfOk result (λ list. (list_of list).factors ≡ []) }
    ensures scale { IfOk result (λ list. (list_of list).scale ≡ pos 1) }
    ensures memory { IfErr result (λ fault. fault ≡ TermFault.Memory) }
{
    match FactorList::new(alloc) {
        Ok(list) => Ok(list),
        Err(_) => Err(TermFault::Memory),
    }
}

// The list times the form to a power.
fn multiplied(list: FactorList, form: LinForm, power: u32) -> Result<FactorList, TermFault>
    requires few { total_power (list_of list).factors ≤ 24 }
    requires some { 1 ≤ power }
    requires small { power ≤ 12 }
    ensures factors { IfOk result (λ longer. (list_of longer).factors ≡ with_factor (form_of form) power (list_of list).factors) }
    ensures scale { IfOk result (λ longer. (list_of longer).scale ≡ (list_of list).scale) }
    ensures memory { IfErr result (λ fault. fault ≡ TermFault.Memory) }
{
    let mut list = list;
    match list.multiply(form, power) {
        Ok(()) => Ok(list),
        Err(_) => Err(TermFault::Memory),
    }
}

impl Factors {
    ghost use Rattle.std.specs.Prelude.{◌≡◌, ◌≢◌, ◌≤◌, ◌+◌, pos, [], unsigned_abs};
    ghost use Rattle.hypergeometric.specs.ProperTerm.{ProperTerm};
    ghost use Rattle.hypergeometric.specs.TermFacts.{total_power};
    ghost use Rattle.lin_form.specs.Forms.{form_of};
    ghost use Rattle.hypergeometric.specs.FactorLists.{with_factor};
    ghost use Rattle.lin_form.specs.ListOf.{list_of};
    ghost use Rattle.steps.specs.Answers.{Answers};
    ghost use Rattle.steps.specs.Steps.{gives};
    ghost use Rattle.steps.specs.TermFaults.{term_cause};
    ghost use Rattle.term_classes.specs.Walk.{with_lists, few_factors, with_factorial};
    ghost use Rattle.term_walk.specs.Views.{with_factors};

    // No factor.
    pub(crate) fn new(alloc: Global) -> Result<Factors, TermFault>
        ensures answers { (f : ProperTerm) → Answers term_cause (with_factors f) (gives (with_lists [] [] [] f.guard f)) result }
    {
        let up = no_form(alloc)?;
        let down = no_form(alloc)?;
        let over = no_form(alloc)?;
        Ok(Factors {
            up,
            down,
            over,
            count: 0,
        })
    }

    // The lists, where their factors are within the limit.
    fn within_limit(
        up: FactorList,
        down: FactorList,
        over: FactorList,
        count: u32,
    ) -> Result<Factors, TermFault>
        requires up_scale { (list_of up).scale ≡ pos 1 }
        requires down_scale { (list_of down).scale ≡ pos 1 }
        requires over_scale { (list_of over).scale ≡ pos 1 }
        requires counted { count ≡ total_power (list_of up).factors + total_power (list_of down).factors + total_power (list_of over).factors }
        ensures answers { (f : ProperTerm) → Answers term_cause (with_factors f) (few_factors (with_lists
            (list_of up).factors (list_of down).factors (list_of over).factors f.guard f)) result }
    {
        let counted = u64::from(count);
        if counted > LimitName::Factors.greatest_count() {
            return Err(TermFault::Limit {
                name: LimitName::Factors,
                counted,
            });
        }
        Ok(Factors {
            up,
            down,
            over,
            count,
        })
    }

    // The factorial of a form to a power above.
    fn with_up(self, form: LinForm, power: u32) -> Result<Factors, TermFault>
        requires some { 1 ≤ power }
        requires small { power ≤ 12 }
        ensures answers { (f : ProperTerm) → Answers term_cause (with_factors f) (few_factors (with_lists
            (with_factor (form_of form) power (list_of self.up).factors) (list_of self.down).factors (list_of self.over).factors f.guard f)) result }
    {
        let Factors {
            up,
            down,
            over,
            count,
        } = self;
        let up = multiplied(up, form, power)?;
        Factors::within_limit(up, down, over, count + power)
    }

    // The factorial of a form to a power below.
    fn with_down(self, form: LinForm, power: u32) -> Result<Factors, TermFault>
        requires some { 1 ≤ power }
        requires small { power ≤ 12 }
        ensures answers { (f : ProperTerm) → Answers term_cause (with_factors f) (few_factors (with_lists (list_of self.up).factors
            (with_factor (form_of form) power (list_of self.down).factors) (list_of self.over).factors f.guard f)) result }
    {
        let Factors {
            up,
            down,
            over,
            count,
        } = self;
        let down = multiplied(down, form, power)?;
        Factors::within_limit(up, down, over, count + power)
    }

    // One over the form to a power.
    pub(crate) fn with_over(self, form: LinForm, power: u32) -> Result<Factors, TermFault>
        requires some { 1 ≤ power }
        requires small { power ≤ 12 }
        ensures answers { (f : ProperTerm) → Answers term_cause (with_factors f) (few_factors (with_lists (list_of self.up).factors (list_of self.down).factors
            (with_factor (form_of form) power (list_of self.over).factors) f.guard f)) result }
    {
        let Factors {
            up,
            down,
            over,
            count,
        } = self;
        let over = multiplied(over, form, power)?;
        Factors::within_limit(up, down, over, count + power)
    }

    // The factorial of a form to a power: above where it is positive, and else below.
    pub(crate) fn with_factorial(self, form: LinForm, power: i64) -> Result<Factors, TermFault>
        requires not_zero { power ≢ pos 0 }
        requires small { unsigned_abs power ≤ 12 }
        ensures answers { (f : ProperTerm) → Answers term_cause (with_factors f) (with_factorial (form_of form) power (with_factors f self)) result }
    {
        let count = power.unsigned_abs() as u32;
        if power > 0 {
            self.with_up(form, count)
        } else {
            self.with_down(form, count)
        }
    }
}
