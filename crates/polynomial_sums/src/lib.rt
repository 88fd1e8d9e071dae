//! Polynomials as sums of monomials, in any of the letters n, k and x: the monomials tell the polynomial.
//!
//! There is no code here: `specs/PolynomialSums` has the definitions, and `proofs/` their laws: Powers, Letters, Telling, Bounds, Placing, Levels.
//! A polynomial is a trimmed list of coefficients at each level; its text is the sum of its monomials, by falling powers.
//! The function does nothing: its contract is the law that the text tells the polynomial.
#![tactic(auto)]

ghost use Rattle.std.specs.Prelude.{◌≡◌};
ghost use Rattle.ring_laws.specs.Meaning.{Meaning};
ghost use Rattle.exact_texts.specs.Lines.{AreWithinLine};
ghost use Rattle.polynomial_sums.specs.PolynomialSums.{in_n_k, in_n_k_x, polynomials};

/// The text of a polynomial in n and k, or in n, k and x, tells the polynomial, and stands in one line.
pub fn text_tells_polynomial()
    ensures without_x { (p q : Meaning) → (polynomials in_n_k).Has p → (polynomials in_n_k).Has q
        → (polynomials in_n_k).text p ≡ (polynomials in_n_k).text q → p ≡ q }
    ensures with_x { (p q : Meaning) → (polynomials in_n_k_x).Has p → (polynomials in_n_k_x).Has q
        → (polynomials in_n_k_x).text p ≡ (polynomials in_n_k_x).text q → p ≡ q }

    // There are such polynomials, and each of their texts is within a line.
    ensures one_line_without_x { AreWithinLine (polynomials in_n_k) }
    ensures one_line_with_x { AreWithinLine (polynomials in_n_k_x) }
{}
