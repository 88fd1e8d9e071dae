//! Polynomials in one variable k over any domain: degrees, division with remainder, common divisors, primes and shifts of k.
//!
//! `specs/` has the definitions, `proofs/` the laws, for polynomials of any degree. The functions here do nothing: their contracts are the laws.
//! The coefficients need no fractions: a divisor divides up to a factor that is free of k and not zero.
//! Read `specs/Polynomials.antt`, `specs/Divisors.antt`, then `specs/Division.antt`.
#![tactic(auto)]

ghost use Rattle.std.specs.Prelude.{◌≡◌, ◌+◌, ◌⊎◌, ℕ, ℤ, suc};
ghost use Rattle.poly_laws.specs.PolyAlgebra.{poly_ops};
ghost use Rattle.poly_laws.specs.Shift.{poly_shift};
ghost use Rattle.division_laws.specs.Polynomials.{Polynomial};
ghost use Rattle.division_laws.specs.Divisors.{HasDegree, Divides, IsPrime};
ghost use Rattle.division_laws.specs.Division.{Remainder, CommonDivisor};

use ring_laws::Domain;

/// The degree of a product is the sum of the degrees, and a polynomial at k + w has the degree of the polynomial.
pub fn degrees_of_products_and_shifts<R: Domain>()
    ensures product { (f g h : Polynomial R.algebra) (m e : ℕ) → HasDegree R.algebra f m → HasDegree R.algebra g e
        → h.0 ≡ (poly_ops R.algebra.ops).product f.0 g.0 → HasDegree R.algebra h (m + e) }
    ensures shift { (f h : Polynomial R.algebra) (w : ℤ) (m : ℕ) → HasDegree R.algebra f m → h.0 ≡ poly_shift R.algebra.ops w f.0
        → HasDegree R.algebra h m }
{}

/// A polynomial is divided by one that isn't zero with a remainder of a lower degree, after it was multiplied by a factor free of k.
pub fn division_leaves_a_lower_remainder<R: Domain>()
    ensures remainder { (f g : Polynomial R.algebra) (m : ℕ) → HasDegree R.algebra g m → Remainder R.algebra f g m }
{}

/// Two polynomials, of which the first isn't zero, have a common divisor that is a combination of them.
pub fn common_divisors_are_combinations<R: Domain>()
    ensures common { (f g : Polynomial R.algebra) → ¬ (f.0 ≡ (poly_ops R.algebra.ops).nought) → CommonDivisor R.algebra f g }
{}

/// A prime that divides a product divides a factor. A polynomial of positive degree is not without a prime that divides it, and is one where
/// its degree is 1.
pub fn primes_divide_a_factor<R: Domain>()
    ensures factor { (p f g h : Polynomial R.algebra) → IsPrime R.algebra p → h.0 ≡ (poly_ops R.algebra.ops).product f.0 g.0
        → Divides R.algebra p h → Divides R.algebra p f ⊎ Divides R.algebra p g }
    ensures some { (w : Polynomial R.algebra) (m : ℕ) → HasDegree R.algebra w (suc m)
        → ¬ ((p : Polynomial R.algebra) → IsPrime R.algebra p → ¬ (Divides R.algebra p w)) }
    ensures linear { (p : Polynomial R.algebra) → HasDegree R.algebra p 1 → IsPrime R.algebra p }
{}
