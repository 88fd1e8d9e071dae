//! Whether a document answers its command.

ghost use Rattle.std.specs.Prelude.{IsTrue, ◌↔◌};
ghost use Rattle.documents.specs.Answers.{IsAnswer, HasNoAnswer};
ghost use Rattle.documents.specs.Views.{claim_said, document_of};

use crate::claims::Claim;
use crate::documents::Doc;

impl Claim {
    ghost use Rattle.std.specs.Prelude.{IsTrue, ◌↔◌};
    ghost use Rattle.documents.specs.Answers.{IsAnswer};
    ghost use Rattle.documents.specs.Views.{claim_said};

    /// Whether the claim has a recurrence, a pair or a solution.
    pub fn is_answer(&self) -> bool
        ensures test { IsTrue result ↔ IsAnswer (claim_said self.now) }
    {
        match self {
            Claim::Found(_) | Claim::Pair(_) | Claim::Solution(_) => true,
            Claim::Empty(_)
            | Claim::NoPair(_)
            | Claim::Sums(_)
            | Claim::NoRoot(_)
            | Claim::Barren(_)
            | Claim::Again(_) => false,
        }
    }
}

impl Doc {
    ghost use Rattle.std.specs.Prelude.{IsTrue, ◌↔◌};
    ghost use Rattle.documents.specs.Answers.{HasNoAnswer};
    ghost use Rattle.documents.specs.Views.{document_of};

    /// Whether a claim of the document has a recurrence, a pair or a solution.
    pub fn has_answer(&self) -> bool
        ensures test { IsTrue result ↔ (¬ (HasNoAnswer (document_of self.now))) }
    {
        for claim in &self.claims {
            if claim.is_answer() {
                return true;
            }
        }
        false
    }
}
