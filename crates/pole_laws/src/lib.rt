//! What a solution of the key equation of a normal form is good for: without the pole forms that divide it, it meets the identity by which
//! a certificate is checked.
//!
//! `specs/` has the definitions, `proofs/` the laws. The functions here do nothing: their contracts are the laws.
//! Read `specs/Orders.antt`, then `specs/Cancelled.antt` and `specs/CertificateValues.antt`; the identity is that of key_laws.
#![tactic(auto)]

ghost use Rattle.std.specs.Prelude.{◌≡◌, ℕ, ℤ, List, [], ◌∷◌};
ghost use Rattle.ring_laws.specs.Meaning.{Meaning};
ghost use Rattle.poly_laws.specs.Values.{level};
ghost use Rattle.hypergeometric.specs.Point.{Point};
ghost use Rattle.hypergeometric.specs.LinearForm.{LinearForm, Factor, FactorList};
ghost use Rattle.hypergeometric.specs.FormOrder.{IsSorted};
ghost use Rattle.hypergeometric.specs.FactorLists.{factor_with};
ghost use Rattle.hypergeometric.specs.Products.{form_polynomial, list_polynomial};
ghost use Rattle.hypergeometric.specs.ProperTerm.{ProperTerm, HasFractions};
ghost use Rattle.term_pieces.specs.Products.{IsProductOf};
ghost use Rattle.term_pieces.specs.Pieces.{Pieces, ArePiecesOf};
ghost use Rattle.term_pieces.specs.NormalForm.{Normal, IsNormalFormOf, IsWithout, form_above, form_below, matched};
ghost use Rattle.kernel_laws.specs.Answers.{Vector, meant};
ghost use Rattle.division_laws.specs.Polynomials.{Polynomial, at_previous, at_next};
ghost use Rattle.key_laws.specs.KeyEquation.{meanings, KeyEquation};
ghost use Rattle.key_laws.specs.Certificates.{CertificateIdentity};
ghost use Rattle.pole_laws.specs.Orders.{sides_of};
ghost use Rattle.pole_laws.specs.CertificateValues.{HoldsAt};
ghost use Rattle.pole_laws.specs.Cancelled.{of_forms, IsCancelled};

/// A solution of the key equation of a normal form meets the identity of a certificate: over the poles that are left where forms were
/// divided out of Y and of the chains, and over none where Y is zero.
pub fn solutions_give_certificates()
    ensures some { (normal : Normal) (q0 r0 : FactorList) → IsNormalFormOf normal q0 r0 → IsSorted q0.factors → IsSorted r0.factors
        → (tops : List (Polynomial (level 1))) (y left : Polynomial (level 1)) (multipliers : Vector (level 1)) (poles : FactorList) (gone : List Factor)
        → KeyEquation (level 1).ops (list_polynomial normal.q) (list_polynomial normal.r) (sides_of normal (meanings (level 1) tops)) y.0
        (meant (level 1) multipliers)
        → ¬ (y.0 ≡ (level 2).ops.nought) → IsCancelled normal.poles poles y.0 left.0 gone
        → CertificateIdentity (level 1).ops (list_polynomial q0) (list_polynomial r0) (meanings (level 1) tops) left.0 (meant (level 1) multipliers)
        (list_polynomial poles) }
    ensures none { (normal : Normal) (q0 r0 : FactorList) → IsNormalFormOf normal q0 r0 → IsSorted q0.factors → IsSorted r0.factors
        → (tops : List (Polynomial (level 1))) (y : Polynomial (level 1)) (multipliers : Vector (level 1))
        → KeyEquation (level 1).ops (list_polynomial normal.q) (list_polynomial normal.r) (sides_of normal (meanings (level 1) tops)) y.0
        (meant (level 1) multipliers)
        → y.0 ≡ (level 2).ops.nought → ¬ (list_polynomial q0 ≡ (level 2).ops.nought)
        → CertificateIdentity (level 1).ops (list_polynomial q0) (list_polynomial r0) (meanings (level 1) tops) (level 2).ops.nought
        (meant (level 1) multipliers) (list_polynomial (of_forms [])) }
{}

/// The pole forms are cancelled one after another: each divides what is left of Y, and has one power less among the poles.
pub fn poles_are_cancelled_one_by_one()
    ensures begin { (normal : Normal) (number : ℤ) (forms : List Factor) (y : Polynomial (level 1)) → IsProductOf normal.poles number forms
        → IsCancelled normal.poles normal.poles y.0 y.0 [] }
    ensures step { (chains poles fewer : FactorList) (y left quotient : Polynomial (level 1)) (gone : List Factor) (f : LinearForm)
        → IsCancelled chains poles y.0 left.0 gone → left.0 ≡ (level 2).ops.product quotient.0 (form_polynomial f)
        → IsWithout fewer poles (factor_with f 1 ∷ []) → IsCancelled chains fewer y.0 quotient.0 (factor_with f 1 ∷ gone) }
{}

/// A normal form keeps the quotient, as polynomials. With A the forms that the matches take from q0 and B those that they take from r0:
/// q0 = q A and r0 = r B, and the chains are g(k) B(k-1), and A(k) g(k) at k + 1.
pub fn normal_forms_keep_the_polynomials()
    ensures q { (normal : Normal) (q0 r0 : FactorList) → IsNormalFormOf normal q0 r0 → IsSorted q0.factors
        → list_polynomial q0 ≡ (level 2).ops.product (list_polynomial normal.q) (list_polynomial (of_forms (matched form_above normal.matches))) }
    ensures r { (normal : Normal) (q0 r0 : FactorList) → IsNormalFormOf normal q0 r0 → IsSorted r0.factors
        → list_polynomial r0 ≡ (level 2).ops.product (list_polynomial normal.r) (list_polynomial (of_forms (matched form_below normal.matches))) }
    ensures chains_here { (normal : Normal) (q0 r0 : FactorList) → IsNormalFormOf normal q0 r0
        → list_polynomial normal.poles ≡ (level 2).ops.product (list_polynomial normal.g)
        (at_previous (level 1).ops (list_polynomial (of_forms (matched form_below normal.matches)))) }
    ensures chains_next { (normal : Normal) (q0 r0 : FactorList) → IsNormalFormOf normal q0 r0
        → at_next (level 1).ops (list_polynomial normal.poles)
        ≡ (level 2).ops.product (list_polynomial (of_forms (matched form_above normal.matches))) (list_polynomial normal.g) }
{}

/// The lists q0 and r0 of the pieces of a term aren't zero as polynomials, and neither are q and r(k-1) of a normal form of such lists.
pub fn lists_are_not_zero()
    ensures q0 { (f : ProperTerm) (pieces : Pieces) (order : ℕ) → HasFractions f → ArePiecesOf pieces f order
        → ¬ (list_polynomial pieces.q0 ≡ (level 2).ops.nought) }
    ensures r0 { (f : ProperTerm) (pieces : Pieces) (order : ℕ) → HasFractions f → ArePiecesOf pieces f order
        → ¬ (list_polynomial pieces.r0 ≡ (level 2).ops.nought) }
    ensures q { (normal : Normal) (q0 r0 : FactorList) → IsNormalFormOf normal q0 r0 → IsSorted q0.factors
        → ¬ (list_polynomial q0 ≡ (level 2).ops.nought) → ¬ (list_polynomial normal.q ≡ (level 2).ops.nought) }
    ensures r { (normal : Normal) (q0 r0 : FactorList) → IsNormalFormOf normal q0 r0 → IsSorted r0.factors
        → ¬ (list_polynomial r0 ≡ (level 2).ops.nought) → ¬ (at_previous (level 1).ops (list_polynomial normal.r) ≡ (level 2).ops.nought) }
{}

/// The identity of a certificate holds at each point, between the values of its polynomials.
pub fn certificates_hold_at_points()
    ensures at { (q0 r0 : Meaning) (tops : List Meaning) (y : Meaning) (multipliers : ℕ → Meaning) (poles : Meaning)
        → CertificateIdentity (level 1).ops q0 r0 tops y multipliers poles → (p : Point) → HoldsAt q0 r0 tops y multipliers poles p }
{}
