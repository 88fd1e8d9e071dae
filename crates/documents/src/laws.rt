//! What is so of well-formed documents. The functions here do nothing: the contract of each is a law.

ghost use Rattle.std.specs.Prelude.{◌≡◌, ◌≢◌, ◌≤◌, ℕ, suc, length, []};
ghost use Rattle.documents.specs.Documents.{Document, gosper, ct, zeil};
ghost use Rattle.documents.specs.WellFormed.{IsWellFormed};
ghost use Rattle.documents.specs.Answers.{HasNoAnswer, HaveOrdersFrom, AnswersLast};
ghost use Rattle.documents.specs.declared.documents.Version.{Version};

/// A well-formed document of gosper or of ct has one claim, which is of the order of the command.
pub fn claims_of_one_order()
    ensures gosper { (version : Version) (d : Document) → IsWellFormed version d → d.command ≡ gosper
        → (length d.claims ≡ 1) × HaveOrdersFrom 0 d.claims }
    ensures ct { (version : Version) (d : Document) (order : ℕ) → IsWellFormed version d → d.command ≡ ct order
        → (length d.claims ≡ 1) × HaveOrdersFrom order d.claims × (order ≤ 6) }
{}

/// A well-formed document of zeil has a claim of each order from 0 up to the last one, which is at most that of the command; only the last may
/// have a recurrence, and where it has none, it is of the order of the command.
pub fn empty_orders_rise()
    ensures orders { (version : Version) (d : Document) (most : ℕ) → IsWellFormed version d → d.command ≡ zeil most → HaveOrdersFrom 0 d.claims }
    ensures some { (version : Version) (d : Document) (most : ℕ) → IsWellFormed version d → d.command ≡ zeil most → d.claims ≢ [] }
    ensures few { (version : Version) (d : Document) (most : ℕ) → IsWellFormed version d → d.command ≡ zeil most
        → (length d.claims ≤ suc most) × (most ≤ 6) }
    ensures last { (version : Version) (d : Document) (most : ℕ) → IsWellFormed version d → d.command ≡ zeil most → AnswersLast d.claims }
    ensures all { (version : Version) (d : Document) (most : ℕ) → IsWellFormed version d → d.command ≡ zeil most → HasNoAnswer d
        → length d.claims ≡ suc most }
{}
