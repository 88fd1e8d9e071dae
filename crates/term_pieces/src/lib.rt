//! The pieces of a term at an order: the polynomials, the quotient and the carrier on which creative telescoping rests; and the normal form
//! of the quotient.
//!
//! `specs/` has the definitions, `proofs/` the laws. The functions here do nothing: their contracts are laws.
//! Read `specs/Products.antt` (products of forms that follow one another), `specs/Pieces.antt`, `specs/PieceValues.antt` (what the pieces
//! are good for), then `specs/NormalForm.antt` (Gosper's normal form of q0 and r0).
#![tactic(auto)]

ghost use Rattle.std.specs.Prelude.{◌≡◌, ◌≤◌, ℕ, ℤ, pos, List, negsuc, ◌*ℤ◌};
ghost use Rattle.hypergeometric.specs.Point.{Point, later_n, later_k};
ghost use Rattle.hypergeometric.specs.LinearForm.{Factor, FactorList, LinearForm, factor_list_value};
ghost use Rattle.hypergeometric.specs.ProperTerm.{ProperTerm, HasFractions, IsDefinedAt};
ghost use Rattle.term_pieces.specs.Products.{IsProductOf};
ghost use Rattle.term_pieces.specs.Pieces.{Pieces, ArePiecesOf};
ghost use Rattle.term_pieces.specs.PieceValues.{ShareValue};
ghost use Rattle.hypergeometric.specs.FormOrder.{IsSorted};
ghost use Rattle.hypergeometric.specs.FactorLists.{power_of};
ghost use Rattle.term_pieces.specs.NormalForm.{Normal, Taken, IsTaking, taken_above, taken_below, IsNormalFormOf, HasNoMatch};
ghost use Rattle.term_pieces.specs.Quotients.{value_above, value_below};

/// A number and forms are the product of one list, and of one only.
pub fn products_are_one_list()
    ensures some { (number : ℤ) (forms : List Factor) → (l : FactorList) × IsProductOf l number forms }
    ensures only { (l m : FactorList) (number : ℤ) (forms : List Factor) → IsProductOf l number forms → IsProductOf m number forms → l ≡ m }
{}

/// Where a term is defined at n, .., n + J, its pieces at the order J share one value there: the term at n + j is p_j times it, and the
/// carrier is r0 at k - 1 times it at k, and q0 times it at k + 1 (A=B chapter 6).
pub fn pieces_share_a_value()
    ensures shares { (f : ProperTerm) (pieces : Pieces) (order : ℕ) (p : Point) → HasFractions f → ArePiecesOf pieces f order
        → ((j : ℕ) → j ≤ order → IsDefinedAt f (later_n p (pos j))) → ShareValue f pieces order p }
{}

/// A term has one list of pieces at an order: p_0 to p_J, q0, r0 and the carrier.
pub fn pieces_are_one()
    ensures only { (f : ProperTerm) (order : ℕ) (x y : Pieces) → ArePiecesOf x f order → ArePiecesOf y f order → x ≡ y }
{}

/// Each term has pieces at each order.
pub fn pieces_exist()
    ensures some { (f : ProperTerm) (order : ℕ) → (pieces : Pieces) × ArePiecesOf pieces f order }
{}

/// What is taken from q0 and r0, shift by shift: never more than there is, and in one way only.
pub fn takings_are_exact()
    ensures above { (q0 r0 : List Factor) (e : Taken) → IsTaking q0 r0 e → (s : LinearForm) (h : ℕ) → taken_above e s h ≤ power_of s q0 }
    ensures below { (q0 r0 : List Factor) (e : Taken) → IsTaking q0 r0 e → (t : LinearForm) (h : ℕ) → taken_below e t h ≤ power_of t r0 }
    ensures only { (q0 r0 : List Factor) (d e : Taken) → IsTaking q0 r0 d → IsTaking q0 r0 e → (s : LinearForm) (h : ℕ) → d s h ≡ e s h }
{}

/// In a normal form no form of q is a form of r at an earlier k (A=B chapter 5).
pub fn normal_forms_have_no_match()
    ensures no_match { (normal : Normal) (q0 r0 : FactorList) → IsNormalFormOf normal q0 r0
        → HasNoMatch normal.q.factors normal.r.factors }
{}

/// Two lists have one normal form: its matches, q, r, g and first poles.
pub fn normal_forms_are_one()
    ensures only { (n m : Normal) (q0 r0 : FactorList) → IsNormalFormOf n q0 r0 → IsNormalFormOf m q0 r0 → n ≡ m }
{}

/// Any two lists have a normal form.
pub fn normal_forms_exist()
    ensures some { (q0 r0 : FactorList) → (normal : Normal) × IsNormalFormOf normal q0 r0 }
{}

/// A normal form keeps the quotient, at each point. With A what the matches take from q0 and B what they take from r0: q0 = q A and r0 = r B.
/// The chains are g(k) B(k-1), and A(k) g(k) at k + 1. So q0(k)/r0(k) is q(k)/r(k) times g(k+1)/g(k) (A=B chapter 5).
pub fn normal_forms_keep_the_quotient()
    ensures q { (normal : Normal) (q0 r0 : FactorList) → IsNormalFormOf normal q0 r0 → IsSorted q0.factors → (p : Point)
        → factor_list_value q0 p ≡ factor_list_value normal.q p *ℤ value_above normal p }
    ensures r { (normal : Normal) (q0 r0 : FactorList) → IsNormalFormOf normal q0 r0 → IsSorted r0.factors → (p : Point)
        → factor_list_value r0 p ≡ factor_list_value normal.r p *ℤ value_below normal p }
    ensures chains_here { (normal : Normal) (q0 r0 : FactorList) → IsNormalFormOf normal q0 r0 → (p : Point)
        → factor_list_value normal.poles p ≡ factor_list_value normal.g p *ℤ value_below normal (later_k p (negsuc 0)) }
    ensures chains_next { (normal : Normal) (q0 r0 : FactorList) → IsNormalFormOf normal q0 r0 → (p : Point)
        → factor_list_value normal.poles (later_k p (pos 1)) ≡ value_above normal p *ℤ factor_list_value normal.g p }
    ensures quotient { (normal : Normal) (q0 r0 : FactorList) → IsNormalFormOf normal q0 r0 → IsSorted q0.factors → IsSorted r0.factors → (p : Point)
        → factor_list_value q0 p *ℤ (factor_list_value normal.r p *ℤ factor_list_value normal.g p)
        ≡ factor_list_value r0 p *ℤ (factor_list_value normal.q p *ℤ factor_list_value normal.g (later_k p (pos 1))) }
{}
