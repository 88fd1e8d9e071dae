//! The right claims of Hyper for a recurrence with polynomials in n (A=B chapter 8).
//!
//! Input: the polynomials of a recurrence. Output: the claims that a document has of it, as one relation, `IsHyperAnswer`; laws alone, no code.
//! The functions do nothing: the contract of each is a law.
//! What a right answer is stands in `specs/`: read Orders, Pairs, Roots, Claims, HyperAnswer.
#![tactic(auto)]

ghost use Rattle.std.specs.Prelude.{◌≡◌, List};
ghost use Rattle.std.specs.List.{AllByRecursion};
ghost use Rattle.ring_laws.specs.Meaning.{Meaning};
ghost use Rattle.hyper_claims.specs.Claims.{HyperClaim, Holds};
ghost use Rattle.hyper_claims.specs.HyperAnswer.{IsHyperAnswer};

/// Each claim of a right answer holds: a solution solves the recurrence from its first n on.
pub fn right_claims_hold()
    ensures hold { (ps : List Meaning) (claims : List HyperClaim) → IsHyperAnswer ps claims → AllByRecursion (Holds ps) claims }
{}

/// A recurrence has at most one right answer.
pub fn right_claims_are_one()
    ensures only { (ps : List Meaning) (claims others : List HyperClaim) → IsHyperAnswer ps claims → IsHyperAnswer ps others → claims ≡ others }
{}
