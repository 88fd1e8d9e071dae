//! The grammar of texts of terms: derivations, what can be continued, the first fault.
//!
//! `specs/` has the definitions, in this order: Token, Tokens, Grammar, Bounds, Several, Reading. `proofs/` has their laws. The functions here do
//! nothing: the contract of each is a law.
#![tactic(auto)]

ghost use Rattle.std.specs.Prelude.{◌≡◌, ◌⊎◌, [], ◌++◌, ℕ, List, ℤ};
ghost use Rattle.grammar.specs.Token.{Placed};
ghost use Rattle.grammar.specs.Tree.{Tree};
ghost use Rattle.grammar.specs.Grammar.{Sum, sum_text};
ghost use Rattle.grammar.specs.Several.{Kind};
ghost use Rattle.grammar.specs.Reading.{Fault, HasContents, IsFirstFault};

/// `sum_text s rest` is the text of `s` and then `rest`.
pub fn text_in_front()
    ensures front { (s : Sum) (rest : List Placed) → sum_text s rest ≡ sum_text s [] ++ rest }
{}

/// No text has two derivations.
pub fn one_derivation()
    ensures one { (s t : Sum) → sum_text s [] ≡ sum_text t [] → s ≡ t }
{}

/// A text of a kind has its trees and bounds, or else one first fault: one of the two, and not both.
pub fn one_outcome()
    ensures some { (kind : Kind) (text : List ℕ) → ((t : List Tree) × (b : List ℤ) × HasContents kind text t b) ⊎ ((fault : Fault) × IsFirstFault kind text fault) }
    ensures contents { (kind : Kind) (text : List ℕ) (t u : List Tree) (b c : List ℤ) → HasContents kind text t b → HasContents kind text u c → (t ≡ u) × (b ≡ c) }
    ensures apart { (kind : Kind) (text : List ℕ) (t : List Tree) (b : List ℤ) (fault : Fault) → HasContents kind text t b → ¬ (IsFirstFault kind text fault) }
    ensures fault { (kind : Kind) (text : List ℕ) (f g : Fault) → IsFirstFault kind text f → IsFirstFault kind text g → f ≡ g }
{}
