//! The laws of the texts of polynomials: each has one, and it is the one that it has in documents.

ghost use Rattle.std.specs.Prelude.{◌≡◌};
ghost use Rattle.ring_laws.specs.Meaning.{Meaning};
ghost use Rattle.hypergeometric.specs.TermFacts.{IsPolynomial};
ghost use Rattle.document_text.specs.Spelling.{polynomial_in_n_text, polynomial_text};
ghost use Rattle.polynomial_sums.specs.PolynomialSums.{in_n, in_n_k, polynomials};

use crate::rings::PolynomialRing;

/// Every value of a ring of polynomials is within the bounds of those that have a text.
pub fn every_polynomial_has_a_text<R: PolynomialRing>()
    ensures has { (x : R) → IsPolynomial R.levels (R.meaning x) }
{}

/// Polynomials in n, and in n and k, have the texts that they have in documents.
pub fn polynomials_have_their_texts_in_documents()
    ensures in_n { (p : Meaning) → polynomial_in_n_text p ≡ (polynomials in_n).text p }
    ensures in_n_and_k { (p : Meaning) → polynomial_text p ≡ (polynomials in_n_k).text p }
{}
