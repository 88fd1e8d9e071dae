//! Factorials that stand above and below.

ghost use Rattle.std.specs.Prelude.{◌≡◌, pos, IfOk, IfErr};
ghost use Rattle.ring_laws.specs.declared.faults.RingFault.TheVariants.{Memory};
ghost use Rattle.lin_form.specs.ListOf.{list_of};
ghost use Rattle.hypergeometric.specs.FactorLists.{in_both, without};

use lin_form::FactorList;
use ring_laws::RingFault;
use std::alloc::Global;

// The forms of a list that stand in another too, each with the smaller of its two powers, in the order of the first.
pub(crate) fn shared_forms(
    alloc: Global,
    list: &FactorList,
    other: &FactorList,
) -> Result<FactorList, RingFault>
    ensures factors { IfOk result (λ shared. (list_of shared).factors ≡ in_both (list_of list.now).factors (list_of other.now).factors) }
    ensures scale { IfOk result (λ shared. (list_of shared).scale ≡ pos 1) }
    ensures memory { IfErr result (λ fault. fault ≡ Memory) }
{
    let mut shared = FactorList::new(alloc)?;
    for index in 0..list.len() {
        let Some((form, power)) = list.item(index) else {
            return Ok(shared);
        };
        let smaller = power.min(other.power(&form));
        if smaller > 0 {
            shared.multiply(form, smaller)?;
        }
    }
    Ok(shared)
}

// Each form of a list with its power less that in another list, without the forms whose power is then 0.
pub(crate) fn other_forms(
    alloc: Global,
    list: &FactorList,
    taken: &FactorList,
) -> Result<FactorList, RingFault>
    ensures factors { IfOk result (λ left. (list_of left).factors ≡ without (list_of list.now).factors (list_of taken.now).factors) }
    ensures scale { IfOk result (λ left. (list_of left).scale ≡ pos 1) }
    ensures memory { IfErr result (λ fault. fault ≡ Memory) }
{
    let mut left = FactorList::new(alloc)?;
    for index in 0..list.len() {
        let Some((form, power)) = list.item(index) else {
            return Ok(left);
        };
        let rest = power.saturating_sub(taken.power(&form));
        if rest > 0 {
            left.multiply(form, rest)?;
        }
    }
    Ok(left)
}
