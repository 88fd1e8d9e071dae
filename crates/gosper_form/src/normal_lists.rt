//! The lists of a normal form: what is left, and the products of forms at earlier k.

ghost use Rattle.std.specs.Prelude.{◌≡◌, ◌≢◌, ℕ, ◌+◌, ◌*◌, ◌≤◌, ◌<◌, ◌^◌, pos, neg_ℤ, IfOk, IfErr};
ghost use Rattle.std.specs.List.{AllByRecursion};
ghost use Rattle.ring_laws.specs.declared.faults.RingFault.TheVariants.{Memory};
ghost use Rattle.hypergeometric.specs.LinearForm.{LinearForm};
ghost use Rattle.hypergeometric.specs.FactorLists.{power_of};
ghost use Rattle.hypergeometric.specs.FormOrder.{IsSorted, IsForm};
ghost use Rattle.term_pieces.specs.Products.{IsProductOf};
ghost use Rattle.term_pieces.specs.NormalForm.{at_earlier_k, forms_before, power_within};
ghost use Rattle.lin_form.specs.Forms.{form_of};
ghost use Rattle.lin_form.specs.ListOf.{list_of};
ghost use Rattle.gosper_form.specs.NormalView.{matches_of};
ghost use Rattle.gosper_form.specs.NormalShifts.{shifts_counted};
ghost use Rattle.gosper_form.specs.NormalLists.{HasChain, forms_further, IsLeftOf};

use crate::normal::Match;
use lin_form::FactorList;
use ring_laws::RingFault;
use std::alloc::Global;

// A list without what is taken from it, sorted.
pub(crate) fn without(
    alloc: Global,
    whole: &FactorList,
    taken: &FactorList,
) -> Result<FactorList, RingFault>
    requires no_more { (f : LinearForm) → power_of f (list_of taken.now).factors ≤ power_of f (list_of whole.now).factors }
    ensures left { IfOk result (λ left. IsLeftOf (list_of left) (list_of whole.now) (list_of taken.now).factors) }
    ensures memory { IfErr result (λ fault. fault ≡ Memory) }
{
    let mut left = FactorList::new(alloc)?;
    left.multiply_scale(whole.scale())?;
    for index in 0..whole.len() {
        let Some((form, power)) = whole.item(index) else {
            return Ok(left);
        };
        let rest = power.saturating_sub(taken.power(&form));
        if rest > 0 {
            left.multiply(form, rest)?;
        }
    }
    left.sorted()
}

// The product of s(k-1) .. s(k-h-further) over the matches of s at h, each to the power of its match, sorted.
pub(crate) fn chains(
    alloc: Global,
    matches: &[Match],
    further: u64,
) -> Result<FactorList, RingFault>
    requires chains { AllByRecursion HasChain (matches_of matches.now) }
    requires few_shifts { shifts_counted (matches_of matches.now) ≤ 256 }
    requires one_further { further ≤ 1 }
    ensures product { IfOk result (λ product. IsProductOf (list_of product) (pos 1) (forms_further further (matches_of matches.now))) }
    ensures memory { IfErr result (λ fault. fault ≡ Memory) }
{
    let mut product = FactorList::new(alloc)?;
    for entry in matches {
        product = with_chain(product, entry, further + entry.shift)?;
    }
    product.sorted()
}

// The product, and s(k-1) .. s(k-length) besides, each to the power of a match of s.
fn with_chain(mut product: FactorList, entry: &Match, length: u64) -> Result<FactorList, RingFault>
    requires some { 1 ≤ entry.now.power }
    requires short { length < 2 ^ 32 }
    requires within { (j : ℕ) → j ≤ length → IsForm (at_earlier_k (form_of entry.now.form) j) }
    requires fits { (f : LinearForm) → power_of f (list_of product).factors + length * entry.now.power < 2 ^ 32 }
    ensures powers { IfOk result (λ all. (f : LinearForm) → power_of f (list_of all).factors
        ≡ power_of f (list_of product).factors + power_within f (forms_before (form_of entry.now.form) length entry.now.power)) }
    ensures scale { IfOk result (λ all. (list_of all).scale ≡ (list_of product).scale) }
    ensures memory { IfErr result (λ fault. fault ≡ Memory) }
{
    for step in 0..length {
        let form = entry.form.shift_k(-1 - step as i64);
        product.multiply(form, entry.power)?;
    }
    Ok(product)
}
