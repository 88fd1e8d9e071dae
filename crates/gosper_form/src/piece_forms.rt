//! The forms of the pieces, before they are made primitive.

ghost use Rattle.std.specs.Prelude.{◌≤◌, ◌+◌, ◌*◌, ◌++◌, IfOk};
ghost use Rattle.std.specs.List.{AllByRecursion};
ghost use Rattle.hypergeometric.specs.TermFacts.{AllWithinLimits, total_power, IsPlain};
ghost use Rattle.lin_form.specs.ListOf.{list_of};
ghost use Rattle.proper_term.specs.TermOf.{term_of};
ghost use Rattle.term_pieces.specs.ItemForms.{from_each, kept_over};
ghost use Rattle.term_pieces.specs.Pieces.{top_forms, q_forms, r_forms};
ghost use Rattle.gosper_form.specs.RaisedForms.{factors_of, Makes};
ghost use Rattle.gosper_form.specs.Shares.{share_of, CanGive};

use crate::raised_forms::RaisedForm;
use crate::shares::{Share, with_share};
use lin_form::FactorList;
use proper_term::Proper;
use ring_laws::RingFault;
use std::alloc::Global;

// The forms, and the shares of each item of a list.
fn with_shares(
    forms: Vec<RaisedForm>,
    share: Share,
    list: &FactorList,
    order: u32,
) -> Result<Vec<RaisedForm>, RingFault>
    requires within { AllWithinLimits (list_of list.now).factors }
    requires few { total_power (list_of list.now).factors ≤ 24 }
    requires can_give { AllByRecursion (λ x. CanGive share x.form) (list_of list.now).factors }
    requires low { order ≤ 6 }
    ensures makes { Makes (λ longer. factors_of longer.items) (factors_of forms.items ++ from_each (share_of share order) (list_of list.now).factors) result }
    ensures few { IfOk result (λ longer. total_power (factors_of longer.items) ≤ total_power (factors_of forms.items)
        + 96 * total_power (list_of list.now).factors) }
{
    let mut forms = forms;
    for index in 0..list.len() {
        let Some((form, power)) = list.item(index) else {
            return Ok(forms);
        };
        forms = with_share(forms, share, form, power, order)?;
    }
    Ok(forms)
}

// The shares of the factorials above, of those below and of the denominators.
fn all_shares(
    alloc: Global,
    term: &Proper,
    order: u32,
    up: Share,
    down: Share,
    over: Share,
) -> Result<Vec<RaisedForm>, RingFault>
    requires plain { IsPlain (term_of term.now) }
    requires low { order ≤ 6 }
    requires up { AllByRecursion (λ x. CanGive up x.form) (term_of term.now).up }
    requires down { AllByRecursion (λ x. CanGive down x.form) (term_of term.now).down }
    requires over { AllByRecursion (λ x. CanGive over x.form) (term_of term.now).over }
    ensures makes { Makes (λ forms. factors_of forms.items) (from_each (share_of up order) (term_of term.now).up
        ++ (from_each (share_of down order) (term_of term.now).down ++ from_each (share_of over order) (term_of term.now).over)) result }
    ensures few { IfOk result (λ forms. total_power (factors_of forms.items) ≤ 2304) }
{
    let forms = with_shares(Vec::new(alloc), up, term.up(), order)?;
    let forms = with_shares(forms, down, term.down(), order)?;
    with_shares(forms, over, term.over(), order)
}

// The forms of p_j.
pub(crate) fn forms_of_top(
    alloc: Global,
    term: &Proper,
    order: u32,
    j: u32,
) -> Result<Vec<RaisedForm>, RingFault>
    requires plain { IsPlain (term_of term.now) }
    requires low { order ≤ 6 }
    requires near { j ≤ 6 }
    ensures makes { Makes (λ forms. factors_of forms.items) (top_forms (term_of term.now) order j) result }
    ensures few { IfOk result (λ forms. total_power (factors_of forms.items) ≤ 2304) }
{
    all_shares(
        alloc,
        term,
        order,
        Share::AboveLeast(j),
        Share::BelowGreatest(j),
        Share::CountedBut(j),
    )
}

// The forms of q0.
pub(crate) fn forms_of_q(
    alloc: Global,
    term: &Proper,
    order: u32,
) -> Result<Vec<RaisedForm>, RingFault>
    requires plain { IsPlain (term_of term.now) }
    requires low { order ≤ 6 }
    ensures makes { Makes (λ forms. factors_of forms.items) (q_forms (term_of term.now) order) result }
    ensures few { IfOk result (λ forms. total_power (factors_of forms.items) ≤ 2304) }
{
    all_shares(
        alloc,
        term,
        order,
        Share::RisingUp,
        Share::FallingDown,
        Share::Cleared,
    )
}

// The forms of r0.
pub(crate) fn forms_of_r(
    alloc: Global,
    term: &Proper,
    order: u32,
) -> Result<Vec<RaisedForm>, RingFault>
    requires plain { IsPlain (term_of term.now) }
    requires low { order ≤ 6 }
    ensures makes { Makes (λ forms. factors_of forms.items) (r_forms (term_of term.now) order) result }
    ensures few { IfOk result (λ forms. total_power (factors_of forms.items) ≤ 2304) }
{
    all_shares(
        alloc,
        term,
        order,
        Share::FallingUp,
        Share::RisingDown,
        Share::Later,
    )
}

// The denominators that the carrier keeps, wherever they count.
pub(crate) fn forms_kept(
    alloc: Global,
    term: &Proper,
    order: u32,
) -> Result<Vec<RaisedForm>, RingFault>
    requires plain { IsPlain (term_of term.now) }
    requires low { order ≤ 6 }
    ensures makes { Makes (λ forms. factors_of forms.items) (from_each (kept_over order) (term_of term.now).over) result }
    ensures few { IfOk result (λ forms. total_power (factors_of forms.items) ≤ 2304) }
{
    with_shares(Vec::new(alloc), Share::Kept, term.over(), order)
}
