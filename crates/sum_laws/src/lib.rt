//! The sums of a term over its natural range in k, that the recurrence of a claim holds for them, and that a recurrence determines its sequences.
//!
//! `specs/NaturalSums.antt` has natural sums, `specs/Sequences.antt` what a recurrence leaves open, `proofs/` the laws. The functions here do
//! nothing: their contracts are laws.
#![tactic(auto)]

ghost use Rattle.std.specs.Prelude.{◌≡◌, ℕ, suc, pos, List, length, Some};
ghost use Rattle.ring_laws.specs.Meaning.{Meaning};
ghost use Rattle.hypergeometric.specs.Point.{Point, later_n};
ghost use Rattle.hypergeometric.specs.Fraction.{Fraction, ◌≈◌};
ghost use Rattle.hypergeometric.specs.LinearForm.{LinearForm};
ghost use Rattle.hypergeometric.specs.ProperTerm.{ProperTerm};
ghost use Rattle.hypergeometric.specs.TermFacts.{IsProper};
ghost use Rattle.hypergeometric.specs.Claim.{Claim};
ghost use Rattle.hypergeometric.specs.TermValue.{HasValue};
ghost use Rattle.term_pieces.specs.Pieces.{Pieces, ArePiecesOf};
ghost use Rattle.hypergeometric.specs.NaturalRange.{natural_range};
ghost use Rattle.claim_laws.specs.Certified.{IsCertified};
ghost use Rattle.sum_laws.specs.NaturalSums.{ends_of, NaturalSumsVanish};
ghost use Rattle.sum_laws.specs.Sequences.{SatisfiesFrom, IsOpenAt, AgreeFrom};

/// The recurrence of a claim that goes with the pieces of a term holds for the term's sums over its natural range (A=B chapter 6).
pub fn natural_sums_satisfy_claims()
    ensures vanish { (f : ProperTerm) (value : Point → Fraction) (pieces : Pieces) (order : ℕ) (c : Claim) (ends : LinearForm × LinearForm)
        → IsProper f → HasValue f value → ArePiecesOf pieces f order → IsCertified c pieces order → natural_range f.down ≡ Some ends
        → NaturalSumsVanish value (ends_of ends) c }
{}

/// Two sequences for which one recurrence holds from a place on agree from there on, where they agree at the places that it leaves open.
pub fn recurrences_determine_sequences()
    ensures agree { (s t : Point → Fraction) (multipliers : List Meaning) (order : ℕ) (first : Point) → length multipliers ≡ suc order
        → SatisfiesFrom s multipliers first → SatisfiesFrom t multipliers first
        → ((i : ℕ) → IsOpenAt multipliers order first i → s (later_n first (pos i)) ≈ t (later_n first (pos i))) → AgreeFrom s t first }
{}
