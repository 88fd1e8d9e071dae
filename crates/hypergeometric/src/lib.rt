//! Proper hypergeometric terms, recurrences with their certificates: the definitions that contracts cite.
//!
//! `specs/` has the definitions, in this order: Fraction, Point, LinearForm, ProperTerm, Claim, Telescopes;
//! besides, what is said of forms and of their lists alone.
//! `proofs/` has their laws. The functions here do nothing: the contract of each is a law.
#![tactic(auto)]

ghost use Rattle.hypergeometric.specs.Point.{Point};
ghost use Rattle.hypergeometric.specs.Fraction.{Fraction};
ghost use Rattle.hypergeometric.specs.ProperTerm.{HasFractions};
ghost use Rattle.hypergeometric.specs.Claim.{Claim};
ghost use Rattle.hypergeometric.specs.Telescopes.{TelescopesAtPoints, TelescopesOverRanges};

/// What telescopes at each point telescopes over every finite range: for every term and every claim of any order.
pub fn points_give_ranges()
    ensures ranges { (f : Point → Fraction) (c : Claim) → HasFractions c.carrier → TelescopesAtPoints f c → TelescopesOverRanges f c }
{}
