//! The trait of polynomials of any number of levels.

ghost use Rattle.std.specs.Prelude.{◌≡◌, ◌++◌, ℕ, map, length, OnOk, IfOk, MatchOption};
ghost use Rattle.ring_laws.specs.Meaning.{Meaning};
ghost use Rattle.hypergeometric.specs.TermFacts.{IsPolynomial};
ghost use Rattle.polynomial_sums.specs.PolynomialSums.{monomials_of, times, AreDistinct, IsFree, HasLetters};
ghost use Rattle.spelled.specs.Monomials.{MonomialValue, monomial_of};
ghost use Rattle.polynomial_lines.specs.Letters.{letter_of};

use crate::letters::Letter;
use ring_laws::Ring;
use spelled::Monomial;
use std::alloc::{AllocError, Global};

/// A ring of polynomials over the whole numbers, with a letter for each level; the whole numbers have none.
///
/// Which letters they are is said at each call, the outermost first.
pub trait PolynomialRing: Ring {
    // How many letters there are.
    ghost levels: { ℕ };

    /// Appends the monomials of the polynomial, each times the given powers of other letters, by falling powers.
    fn push_monomials(
        &self,
        letters: &[Letter],
        powers: &Monomial,
        monomials: &mut Vec<Monomial>,
    ) -> Result<(), AllocError>
        requires one_each { length letters.now ≡ levels }
        requires distinct { AreDistinct (map letter_of letters.now) }
        requires others { IsFree (map letter_of letters.now) (monomial_of powers.now) }
        ensures pushed { OnOk result (map monomial_of monomials.new.items ≡ map monomial_of monomials.old.items
            ++ map (times (monomial_of powers.now)) (monomials_of (map letter_of letters.now) (Self.meaning self.now))) };

    /// The polynomial that has these monomials, each times the same powers of other letters. For monomials that are those of none it may
    /// give any polynomial.
    fn from_monomials(
        alloc: Global,
        letters: &[Letter],
        monomials: &[Monomial],
    ) -> Result<Option<Self>, AllocError>
        requires one_each { length letters.now ≡ levels }
        requires distinct { AreDistinct (map letter_of letters.now) }
        ensures read { (powers : MonomialValue) (p : Meaning) → IsPolynomial levels p → IsFree (map letter_of letters.now) powers
            → map monomial_of monomials.now ≡ map (times powers) (monomials_of (map letter_of letters.now) p)
            → IfOk result (λ found. MatchOption found ⊥ (λ x. Self.meaning x ≡ p)) };

    // Its members are the polynomials in so many letters, and what fits is within bounds.
    ghost has_letters: { HasLetters levels Self.algebra };
}
