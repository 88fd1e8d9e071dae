//! The right claims of a term for the commands that telescope, and what they say.
//!
//! `specs/` has the definitions, in this order: Claims, Cancelling, KeySolutions, Orders, RightClaims; then Truth, what the claims say, and Choice,
//! what their choice is good for. The functions here do nothing: the contract of each is a law.
#![tactic(auto)]

ghost use Rattle.std.specs.Prelude.{◌≡◌, ℕ, List};
ghost use Rattle.std.specs.List.{AllByRecursion};
ghost use Rattle.hypergeometric.specs.Point.{Point};
ghost use Rattle.hypergeometric.specs.Fraction.{Fraction};
ghost use Rattle.hypergeometric.specs.ProperTerm.{ProperTerm};
ghost use Rattle.hypergeometric.specs.TermFacts.{IsProper};
ghost use Rattle.hypergeometric.specs.TermValue.{HasValue};
ghost use Rattle.right_claims.specs.Claims.{TermClaim};
ghost use Rattle.right_claims.specs.RightClaims.{Command, AreRightClaims};
ghost use Rattle.right_claims.specs.Truth.{Holds};
ghost use Rattle.right_claims.specs.Choice.{IsWellChosen};

/// Each right claim holds of every function that has the value of the term: what is found telescopes it, an empty order has no solution and no
/// rational certificate, and a pair is one, with its companion identity.
pub fn right_claims_hold()
    ensures hold { (command : Command) (f : ProperTerm) (value : Point → Fraction) (claims : List TermClaim) → IsProper f → HasValue f value
        → AreRightClaims command f claims → AllByRecursion (Holds f value) claims }
{}

/// A term has one list of right claims for a command.
pub fn right_claims_are_one_list()
    ensures only { (command : Command) (f : ProperTerm) (claims others : List TermClaim) → AreRightClaims command f claims
        → AreRightClaims command f others → claims ≡ others }
{}

/// Of all solutions of its key equation a right claim has the last multiplier that isn't zero as early as it can be, with a positive leading
/// coefficient; no pole divides Y, the poles are among the chains, and no number above 1 and no form u*n + v, u from 1 to 4, divides all
/// multipliers and all coefficients of Y.
pub fn right_claims_are_well_chosen()
    ensures chosen { (command : Command) (f : ProperTerm) (claims : List TermClaim) → AreRightClaims command f claims
        → AllByRecursion (IsWellChosen f) claims }
{}
