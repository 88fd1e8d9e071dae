//! Gosper's theorem: where a key equation has no polynomial solution, it has no rational one either (after A=B chapter 5).
//!
//! `specs/CommonPrimes.antt` and `specs/RationalCertificates.antt` say what that is, `proofs/` has the laws: over any domain, and for an order of a
//! term. The functions here do nothing: their contracts are the laws.
#![tactic(auto)]

ghost use Rattle.std.specs.Prelude.{◌≡◌, ◌<◌, ℕ, List, length};
ghost use Rattle.poly_laws.specs.PolyAlgebra.{poly_algebra};
ghost use Rattle.kernel_laws.specs.Answers.{Vector, meant};
ghost use Rattle.poly_laws.specs.Values.{level};
ghost use Rattle.hypergeometric.specs.ProperTerm.{ProperTerm, HasFractions};
ghost use Rattle.hypergeometric.specs.Products.{list_polynomial};
ghost use Rattle.term_pieces.specs.Pieces.{Pieces, ArePiecesOf};
ghost use Rattle.term_pieces.specs.NormalForm.{Normal, IsNormalFormOf};
ghost use Rattle.division_laws.specs.Polynomials.{Polynomial};
ghost use Rattle.key_laws.specs.KeyEquation.{meanings, combination, Insoluble, InsolubleWith};
ghost use Rattle.pole_laws.specs.Orders.{sides_of};
ghost use Rattle.key_laws.specs.Certificates.{IsCertificate};
ghost use Rattle.gosper_theorem.specs.CommonPrimes.{ShareNoPrime};
ghost use Rattle.gosper_theorem.specs.RationalCertificates.{HasNoCertificate};

use ring_laws::Domain;

/// Where the key equation is insoluble, and no prime divides q at a later k and r(k-1) at the same or an earlier one, a fraction U/W solves it
/// with no multipliers but zeros.
pub fn no_fraction_solves<R: Domain>()
    ensures zero { (q b : Polynomial R.algebra) (sides : List (Polynomial R.algebra)) → InsolubleWith R.algebra q.0 b.0 (meanings R.algebra sides)
        → ShareNoPrime R.algebra q b → (multipliers : Vector R.algebra) (u w : Polynomial R.algebra)
        → IsCertificate R.algebra.ops q.0 b.0 (combination R.algebra.ops (meant R.algebra multipliers) (meanings R.algebra sides)) u.0 w.0
        → ¬ (w.0 ≡ (poly_algebra R.algebra).ops.nought) → (j : ℕ) → j < length sides → (multipliers j).0 ≡ R.algebra.ops.nought }
{}

/// An order whose key equation is insoluble has no rational certificate.
pub fn insoluble_orders_have_no_certificate()
    ensures none { (f : ProperTerm) (pieces : Pieces) (order : ℕ) → HasFractions f → ArePiecesOf pieces f order
        → (normal : Normal) → IsNormalFormOf normal pieces.q0 pieces.r0 → (tops : List (Polynomial (level 1)))
        → Insoluble (level 1) (list_polynomial normal.q) (list_polynomial normal.r) (sides_of normal (meanings (level 1) tops))
        → HasNoCertificate pieces tops }
{}
