//! The products p_0, .., p_J of a term.

ghost use Rattle.std.specs.Prelude.{◌≡◌, ◌≤◌, suc, IfOk, IfErr};
ghost use Rattle.ring_laws.specs.Answer.{OnFault};
ghost use Rattle.hypergeometric.specs.TermFacts.{IsPlain};
ghost use Rattle.lin_form.proofs.Items.{each_of};
ghost use Rattle.proper_term.specs.TermOf.{term_of};
ghost use Rattle.gosper_form.specs.PieceSteps.{top_sizes, each_from, all_of, SomeTooLarge};
ghost use Rattle.gosper_form.specs.TopsOf.{IsTopOf, AreTopsOf};
ghost use Rattle.gosper_form.specs.PiecesOf.{top_of};

use crate::form_products::product_of;
use crate::numbers::base_number;
use crate::piece_forms::forms_of_top;
use lin_form::FactorList;
use poly_generic::Znk;
use proper_term::Proper;
use ring_laws::{Ring, RingFault};
use std::alloc::Global;

/// A polynomial times a product of forms.
#[derive(Drop)]
pub struct Top {
    pub(crate) poly: Znk,
    pub(crate) factors: FactorList,
}

impl Top {
    ghost use Rattle.std.specs.Prelude.{◌≡◌};
    ghost use Rattle.lin_form.specs.ListOf.{list_of};
    ghost use Rattle.gosper_form.specs.PiecesOf.{top_of};

    /// The polynomial in k over those in n.
    pub fn poly(&self) -> &Znk
        ensures poly { ⟦<Znk as Ring>⟧.meaning result.now ≡ (top_of self.now).poly }
    {
        &self.poly
    }

    /// The forms, primitive and sorted, with a number before them.
    pub fn factors(&self) -> &FactorList
        ensures factors { list_of result.now ≡ (top_of self.now).factors }
    {
        &self.factors
    }
}

// p_j: the polynomial at n + j, the numbers and the forms.
fn made_top(alloc: Global, term: &Proper, order: u32, j: u32) -> Result<Top, RingFault>
    requires plain { IsPlain (term_of term.now) }
    requires low { order ≤ 6 }
    requires near { j ≤ order }
    ensures top { IfOk result (λ top. IsTopOf (top_of top) (term_of term.now) order j) }
    ensures too_large { IfErr result (OnFault (SomeTooLarge (top_sizes (term_of term.now) order j))) }
{
    let poly = term.poly().shift_inner_by(alloc, i64::from(j))?;
    let forms = forms_of_top(alloc, term, order, j)?;
    let number = base_number(alloc, term.n_base(), order, j)?;
    let factors = product_of(alloc, number, forms.as_slice())?;
    Ok(Top { poly, factors })
}

// p_0, .., p_J
pub(crate) fn made_tops(alloc: Global, term: &Proper, order: u32) -> Result<Vec<Top>, RingFault>
    requires plain { IsPlain (term_of term.now) }
    requires low { order ≤ 6 }
    ensures tops { IfOk result (λ tops. AreTopsOf (each_of tops.items top_of) (term_of term.now) order) }
    ensures too_large { IfErr result (OnFault (SomeTooLarge (all_of (each_from (top_sizes (term_of term.now) order) 0 (suc order))))) }
{
    let mut tops = Vec::new(alloc);
    for j in 0..order + 1 {
        tops.push(made_top(alloc, term, order, j)?)?;
    }
    Ok(tops)
}
