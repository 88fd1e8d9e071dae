//! The carrier of a term at an order: a proper term, in which nothing is cancelled.

ghost use Rattle.std.specs.Prelude.{◌≡◌, ◌≢◌, ◌≤◌, pos, neg_ℤ, IfOk, IfErr};
ghost use Rattle.ring_laws.specs.Answer.{OnFault};
ghost use Rattle.hypergeometric.specs.Divisors.{lowest_terms};
ghost use Rattle.hypergeometric.specs.TermFacts.{IsWithinLimits, AllWithinLimits, IsPlain};
ghost use Rattle.lin_form.specs.Forms.{form_of};
ghost use Rattle.lin_form.specs.ListOf.{list_of};
ghost use Rattle.poly_fraction.specs.FractionOf.{fraction_of};
ghost use Rattle.proper_term.specs.Fields.{number_fraction_of};
ghost use Rattle.proper_term.specs.TermOf.{term_of};
ghost use Rattle.steps.specs.Operations.{IsInBounds};
ghost use Rattle.term_pieces.specs.Products.{form_plus};
ghost use Rattle.term_pieces.specs.ItemForms.{negative_part, positive_part, least_of, greatest_of};
ghost use Rattle.term_pieces.specs.Pieces.{carrier_of, carrier_up, carrier_down};
ghost use Rattle.gosper_form.specs.RaisedForms.{Makes};
ghost use Rattle.gosper_form.specs.PieceSteps.{carrier_size};

use crate::form_products::gathered;
use crate::numbers::times_number_power;
use crate::piece_forms::forms_kept;
use crate::runs::moved;
use crate::shares::{above_zero, below_zero, greatest, least};
use lin_form::{FactorList, LinForm};
use poly_fraction::{Frac, lowest};
use poly_generic::Znk;
use proper_term::Proper;
use ring_laws::{Ring, RingFault, Whole};
use std::alloc::Global;

// The form of a factorial of the carrier above.
fn form_above(form: LinForm, order: u32) -> LinForm
    requires within { IsWithinLimits (form_of form) }
    requires low { order ≤ 6 }
    ensures form { form_of result ≡ form_plus (least_of order (form_of form)) (neg_ℤ (negative_part (form_of form).k_slope)) }
{
    moved(least(form, order), -below_zero(form.k_slope()))
}

// The form of one below.
fn form_below(form: LinForm, order: u32) -> LinForm
    requires within { IsWithinLimits (form_of form) }
    requires low { order ≤ 6 }
    ensures form { form_of result ≡ form_plus (greatest_of order (form_of form)) (neg_ℤ (positive_part (form_of form).k_slope)) }
{
    moved(greatest(form, order), -above_zero(form.k_slope()))
}

// The factorials of the carrier above: the least of each form, and further up where its k slope is below 0.
fn factorials_above(alloc: Global, list: &FactorList, order: u32) -> Result<FactorList, RingFault>
    requires within { AllWithinLimits (list_of list.now).factors }
    requires low { order ≤ 6 }
    ensures makes { Makes (λ above. (list_of above).factors) (carrier_up order (list_of list.now).factors) result }
    ensures scale { IfOk result (λ above. (list_of above).scale ≡ pos 1) }
{
    let mut above = FactorList::new(alloc)?;
    for index in 0..list.len() {
        let Some((form, power)) = list.item(index) else {
            return Ok(above);
        };
        above.multiply(form_above(form, order), power)?;
    }
    Ok(above)
}

// Those below: the greatest of each form, and further down where its k slope is above 0.
fn factorials_below(alloc: Global, list: &FactorList, order: u32) -> Result<FactorList, RingFault>
    requires within { AllWithinLimits (list_of list.now).factors }
    requires low { order ≤ 6 }
    ensures makes { Makes (λ below. (list_of below).factors) (carrier_down order (list_of list.now).factors) result }
    ensures scale { IfOk result (λ below. (list_of below).scale ≡ pos 1) }
{
    let mut below = FactorList::new(alloc)?;
    for index in 0..list.len() {
        let Some((form, power)) = list.item(index) else {
            return Ok(below);
        };
        below.multiply(form_below(form, order), power)?;
    }
    Ok(below)
}

// The quotient of two numbers in lowest terms.
fn lowest_quotient(top: Whole, bottom: Whole) -> Frac<Whole>
    requires not_zero { bottom.value ≢ pos 0 }
    ensures quotient { number_fraction_of (fraction_of result) ≡ lowest_terms (record { top = top.value; bottom = bottom.value }) }
{
    match Frac::new(top, bottom) {
        Some(fraction) => lowest(&fraction),
        None => unreachable!(),
    }
}

// The scale of the carrier: that of the term, times the denominator of the base of k, over that of the base of n to the power of the order.
fn carrier_scale(alloc: Global, term: &Proper, order: u32) -> Result<Frac<Whole>, RingFault>
    ensures scale { IfOk result (λ scale. number_fraction_of (fraction_of scale) ≡ (carrier_of (term_of term.now) order).scale) }
    ensures in_bounds { IfOk result (λ scale. IsInBounds (carrier_size (term_of term.now) order)) }
    ensures too_large { IfErr result (OnFault (¬ IsInBounds (carrier_size (term_of term.now) order))) }
{
    let scale = term.scale();
    let top = times_number_power(alloc, *scale.top(), *term.k_base().bottom(), 1)?;
    let bottom = times_number_power(alloc, *scale.bottom(), *term.n_base().bottom(), order)?;
    Ok(lowest_quotient(top, bottom))
}

// The carrier: r0 at k - 1 times the value that the pieces share, with factorials in the place of products.
pub(crate) fn made_carrier(alloc: Global, term: &Proper, order: u32) -> Result<Proper, RingFault>
    requires plain { IsPlain (term_of term.now) }
    requires low { order ≤ 6 }
    ensures carrier { IfOk result (λ carrier. term_of carrier ≡ carrier_of (term_of term.now) order) }
    ensures too_large { IfErr result (OnFault (¬ IsInBounds (carrier_size (term_of term.now) order))) }
{
    let scale = carrier_scale(alloc, term, order)?;
    let up = factorials_above(alloc, term.up(), order)?;
    let down = factorials_below(alloc, term.down(), order)?;
    let kept = forms_kept(alloc, term, order)?;
    let over = gathered(alloc, kept.as_slice())?;
    let poly = Znk::one(alloc)?;
    let n_base = term.n_base().duplicate(alloc)?;
    let k_base = term.k_base().duplicate(alloc)?;
    let guard = FactorList::new(alloc)?;
    match Proper::new(poly, scale, n_base, k_base, up, down, over, guard) {
        Some(carrier) => Ok(carrier),
        None => unreachable!(),
    }
}
