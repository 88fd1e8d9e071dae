//! The claim that a solution of the key equation of a term's normal form gives goes with the term's pieces, so it says at all points what a found
//! claim or a pair says.
//!
//! `specs/SolvedClaims.antt` has what a claim keeps of a solution, `proofs/` the laws. The functions here do nothing: their contracts are laws.
#![tactic(auto)]

ghost use Rattle.std.specs.Prelude.{◌≡◌, ℕ, suc, pos, [], ◌∷◌};
ghost use Rattle.poly_laws.specs.Values.{level};
ghost use Rattle.hypergeometric.specs.ProperTerm.{ProperTerm};
ghost use Rattle.hypergeometric.specs.TermFacts.{IsProper};
ghost use Rattle.hypergeometric.specs.Claim.{Claim};
ghost use Rattle.term_pieces.specs.Pieces.{Pieces, ArePiecesOf};
ghost use Rattle.term_pieces.specs.NormalForm.{Normal, IsNormalFormOf};
ghost use Rattle.kernel_laws.specs.Answers.{Vector, meant};
ghost use Rattle.division_laws.specs.Polynomials.{Polynomial};
ghost use Rattle.key_laws.specs.KeyRows.{listing};
ghost use Rattle.pole_laws.specs.Orders.{tops_of, pair_top};
ghost use Rattle.claim_laws.specs.Certified.{HasPieces, IsCertified};
ghost use Rattle.pair_laws.specs.CertifiedPairs.{IsCertifiedPair};
ghost use Rattle.solved_claims.specs.SolvedClaims.{Solves, Leaves};

/// What is left of a solution of an order's key equation, with the carrier and the ratio of the pieces, is a certified claim of the order.
pub fn solutions_are_certified()
    ensures found { (f : ProperTerm) (pieces : Pieces) (order : ℕ) (normal : Normal) (y : Polynomial (level 1))
        (multipliers : Vector (level 1)) (c : Claim) → IsProper f → ArePiecesOf pieces f order
        → Solves pieces normal (tops_of pieces order) y multipliers → Leaves normal y c → HasPieces c pieces
        → c.multipliers ≡ listing (suc order) (meant (level 1) multipliers) → IsCertified c pieces order }
{}

/// The like for a pair, whose one side is g times the difference of p_1 and p_0.
pub fn solutions_are_certified_pairs()
    ensures pair { (f : ProperTerm) (pieces : Pieces) (normal : Normal) (y : Polynomial (level 1)) (multipliers : Vector (level 1)) (c : Claim)
        → IsProper f → ArePiecesOf pieces f 1 → Solves pieces normal (pair_top pieces) y multipliers → Leaves normal y c → HasPieces c pieces
        → c.multipliers ≡ (multipliers 0).0 ∷ [] → IsCertifiedPair c (multipliers 0).0 pieces }
{}

/// The first poles of a normal form have the scale 1, so that what is left of them is a product of forms alone.
pub fn first_poles_have_no_scale()
    ensures scale { (f : ProperTerm) (pieces : Pieces) (order : ℕ) (normal : Normal) → ArePiecesOf pieces f order
        → IsNormalFormOf normal pieces.q0 pieces.r0 → normal.poles.scale ≡ pos 1 }
{}
