//! The pieces of a term at an order.

ghost use Rattle.std.specs.Prelude.{◌≡◌, ◌+◌, length};
ghost use Rattle.lin_form.specs.ListOf.{list_of};
ghost use Rattle.gosper_form.specs.NormalLists.{IsFormQuotient};
ghost use Rattle.gosper_form.specs.OneProof.{form_quotient_once};

use crate::tops::Top;
use lin_form::FactorList;
use proper_term::Proper;

/// The pieces of a term at an order J: the products p_0, .., p_J, the quotient q0/r0 and the carrier.
#[derive(Drop)]
pub struct Pieces {
    pub(crate) order: u32,
    pub(crate) tops: Vec<Top>,
    pub(crate) q0: FactorList,
    pub(crate) r0: FactorList,
    pub(crate) carrier: Proper,
    ghost counted: { length tops.items ≡ order + 1 },
    ghost quotient: { IsFormQuotient (list_of q0) (list_of r0) } by { form_quotient_once (list_of q0) (list_of r0) },
}

impl Pieces {
    ghost use Rattle.std.specs.Prelude.{◌≡◌, ◌≤◌, ◌<◌, ◌+◌, length, MatchOption};
    ghost use Rattle.lin_form.specs.ListOf.{list_of};
    ghost use Rattle.proper_term.specs.TermOf.{term_of};
    ghost use Rattle.term_pieces.specs.Pieces.{top_at};
    ghost use Rattle.gosper_form.specs.PiecesOf.{top_of, pieces_held};

    /// The order.
    pub fn order(&self) -> u32
        ensures order { length (pieces_held self.now).tops ≡ result + 1 }
    {
        self.order
    }

    /// p_j, `None` exactly where j is above the order.
    pub fn top(&self, j: u32) -> Option<&Top>
        ensures top { MatchOption result (length (pieces_held self.now).tops ≤ j)
            (λ top. (j < length (pieces_held self.now).tops) × (top_of top.now ≡ top_at (pieces_held self.now) j)) }
    {
        self.tops.get(j as usize)
    }

    /// The forms above, primitive and sorted, with a number before them.
    pub fn q0(&self) -> &FactorList
        ensures q0 { list_of result.now ≡ (pieces_held self.now).q0 }
    {
        &self.q0
    }

    /// The forms below, primitive and sorted, with a number before them.
    pub fn r0(&self) -> &FactorList
        ensures r0 { list_of result.now ≡ (pieces_held self.now).r0 }
    {
        &self.r0
    }

    /// The carrier.
    pub fn carrier(&self) -> &Proper
        ensures carrier { term_of result.now ≡ (pieces_held self.now).carrier }
    {
        &self.carrier
    }
}
