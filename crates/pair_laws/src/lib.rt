//! WZ pairs and their companion identity, from the identity of polynomials that a checker tests.
//!
//! `specs/` has what a pair is, what it is for a claim to go with the pieces of a term, the companion identity and what is said of a box; `proofs/`
//! has the laws. The functions here do nothing: their contracts are laws.
//! Read `specs/Pairs.antt`, `specs/CertifiedPairs.antt`, then `specs/Companion.antt` and `specs/BoxSums.antt`.
#![tactic(auto)]

ghost use Rattle.std.specs.Prelude.{◌≡◌, Some};
ghost use Rattle.ring_laws.specs.Meaning.{Meaning};
ghost use Rattle.hypergeometric.specs.Point.{Point};
ghost use Rattle.hypergeometric.specs.Fraction.{Fraction};
ghost use Rattle.hypergeometric.specs.LinearForm.{LinearForm};
ghost use Rattle.hypergeometric.specs.ProperTerm.{ProperTerm};
ghost use Rattle.hypergeometric.specs.TermFacts.{IsProper};
ghost use Rattle.hypergeometric.specs.Claim.{Claim};
ghost use Rattle.hypergeometric.specs.TermValue.{HasValue};
ghost use Rattle.term_pieces.specs.Pieces.{Pieces, ArePiecesOf};
ghost use Rattle.hypergeometric.specs.NaturalRange.{natural_range};
ghost use Rattle.sum_laws.specs.NaturalSums.{ends_of};
ghost use Rattle.pair_laws.specs.Pairs.{IsPair, PairSumsVanish};
ghost use Rattle.pair_laws.specs.CertifiedPairs.{IsCertifiedPair};
ghost use Rattle.pair_laws.specs.Companion.{Box, HasCompanion};
ghost use Rattle.pair_laws.specs.BoxSums.{BoxSums, sides, AreBoxSums};

/// The claim of a pair gives a WZ pair, and over the natural range the sums of its term don't change (A=B chapter 7).
pub fn certified_pairs_are_pairs()
    ensures pair { (f : ProperTerm) (value : Point → Fraction) (pieces : Pieces) (a : Meaning) (c : Claim) → IsProper f → HasValue f value
        → ArePiecesOf pieces f 1 → IsCertifiedPair c a pieces → IsPair value f.poly a c }
    ensures vanish { (f : ProperTerm) (value : Point → Fraction) (pieces : Pieces) (a : Meaning) (c : Claim) (ends : LinearForm × LinearForm)
        → IsProper f → HasValue f value → ArePiecesOf pieces f 1 → IsCertifiedPair c a pieces → natural_range f.down ≡ Some ends
        → PairSumsVanish value (ends_of ends) a c }
{}

/// Every pair has the companion identity over every box without an undefined point.
pub fn pairs_have_companions()
    ensures companion { (value : Point → Fraction) (poly a : Meaning) (c : Claim) → IsPair value poly a c → HasCompanion value a c }
{}

/// Of a box one thing only can be said, and its two sums in lowest terms are the same fraction.
pub fn boxes_have_one_answer()
    ensures only { (value : Point → Fraction) (a : Meaning) (c : Claim) (b : Box) (x y : BoxSums) → AreBoxSums value a c b x
        → AreBoxSums value a c b y → x ≡ y }
    ensures agree { (value : Point → Fraction) (a : Meaning) (c : Claim) (b : Box) (left right : Fraction) → HasCompanion value a c
        → AreBoxSums value a c b (sides left right) → left ≡ right }
{}
