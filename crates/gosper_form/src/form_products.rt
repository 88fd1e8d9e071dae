//! Products of a number and forms as lists of primitive forms.

ghost use Rattle.std.specs.Prelude.{◌≡◌, ◌≢◌, ◌≤◌, pos, [], IfOk, IfErr};
ghost use Rattle.ring_laws.specs.Answer.{OnFault};
ghost use Rattle.hypergeometric.specs.TermFacts.{total_power};
ghost use Rattle.lin_form.specs.ListOf.{list_of};
ghost use Rattle.steps.specs.Operations.{IsInBounds};
ghost use Rattle.term_pieces.specs.Products.{IsProductOf};
ghost use Rattle.term_pieces.specs.Pieces.{gathered_forms};
ghost use Rattle.gosper_form.specs.RaisedForms.{factors_of, Makes};
ghost use Rattle.gosper_form.specs.PieceSteps.{scale_size};

use crate::numbers::times_number_power;
use crate::raised_forms::RaisedForm;
use lin_form::FactorList;
use ring_laws::{RingFault, Whole};
use std::alloc::Global;

// The list that the number times the product of the forms is: each form is made primitive, and the list is sorted.
pub(crate) fn product_of(
    alloc: Global,
    number: Whole,
    forms: &[RaisedForm],
) -> Result<FactorList, RingFault>
    requires not_zero { number.value ≢ pos 0 }
    requires few { total_power (factors_of forms.now) ≤ 2304 }
    ensures product { IfOk result (λ list. IsProductOf (list_of list) number.value (factors_of forms.now)) }
    ensures too_large { IfErr result (OnFault (¬ IsInBounds (scale_size number.value (factors_of forms.now)))) }
{
    let mut number = number;
    let mut list = FactorList::new(alloc)?;
    for raised in forms {
        let (content, form) = raised.form.primitive();
        number = times_number_power(alloc, number, Whole::from(content), raised.power)?;
        list.multiply(form, raised.power)?;
    }
    let mut list = list.sorted()?;
    list.multiply_scale(number)?;
    Ok(list)
}

// The forms as they are, each once with the sum of its powers.
pub(crate) fn gathered(alloc: Global, forms: &[RaisedForm]) -> Result<FactorList, RingFault>
    requires few { total_power (factors_of forms.now) ≤ 2304 }
    ensures makes { Makes (λ list. (list_of list).factors) (gathered_forms [] (factors_of forms.now)) result }
    ensures scale { IfOk result (λ list. (list_of list).scale ≡ pos 1) }
{
    let mut list = FactorList::new(alloc)?;
    for raised in forms {
        list.multiply(raised.form, raised.power)?;
    }
    Ok(list)
}
