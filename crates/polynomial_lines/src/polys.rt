//! Polynomials over polynomials, with one letter more.

ghost use Rattle.std.specs.Prelude.{◌≡◌, ◌≤◌, ◌++◌, ◌∷◌, suc, ℕ, List, map, length, OnOk, IfOk, MatchOption};
ghost use Rattle.ring_laws.specs.Meaning.{Meaning};
ghost use Rattle.polynomial_sums.specs.PolynomialSums.{falling, monomials_of, times, AreDistinct, IsFree};
ghost use Rattle.polynomial_sums.proofs.Powers.{HavePower, HaveAtLeast};
ghost use Rattle.polynomial_sums.proofs.Levels.{poly_has_letters};
ghost use Rattle.spelled.specs.Monomials.{MonomialValue, monomial_of};
ghost use Rattle.polynomial_lines.specs.Letters.{letter_of};
ghost use Rattle.polynomial_lines.specs.Coefficients.{AreCoefficients};

use crate::letters::Letter;
use crate::rings::PolynomialRing;
use poly_generic::Poly;
use ring_laws::RingFault;
use spelled::Monomial;
use std::alloc::{AllocError, Global};

// Appends the monomials of coefficients, the greatest power of their letter first.
fn push_falling<R: PolynomialRing>(
    coefficients: &[R],
    letter: Letter,
    inner: &[Letter],
    powers: &Monomial,
    monomials: &mut Vec<Monomial>,
) -> Result<(), AllocError>
    requires short { length coefficients.now ≤ 256 }
    requires one_each { length inner.now ≡ R.levels }
    requires distinct { AreDistinct (letter_of letter ∷ map letter_of inner.now) }
    requires others { IsFree (letter_of letter ∷ map letter_of inner.now) (monomial_of powers.now) }
    ensures pushed { OnOk result (map monomial_of monomials.new.items ≡ map monomial_of monomials.old.items
        ++ map (times (monomial_of powers.now))
        (falling (letter_of letter) (monomials_of (map letter_of inner.now)) (map R.meaning coefficients.now) 0)) }
{
    let mut power = coefficients.len();
    while power > 0 {
        power -= 1;
        let placed = letter.with_power(power as u32, powers);
        coefficients[power].push_monomials(inner, &placed, monomials)?;
    }
    Ok(())
}

// The monomials in front of the last ones that have a power of a letter, and these.
fn cut_at_power(monomials: &[Monomial], letter: Letter, power: u32) -> (&[Monomial], &[Monomial])
    ensures cut { (xs ys : List MonomialValue) → HaveAtLeast (letter_of letter) (suc power) xs → HavePower (letter_of letter) power ys
        → map monomial_of monomials.now ≡ xs ++ ys → (map monomial_of result.0.now ≡ xs) × (map monomial_of result.1.now ≡ ys) }
    ensures shorter { length result.0.now ≤ length monomials.now }
{
    let mut end = monomials.len();
    while end > 0 && letter.power_in(&monomials[end - 1]) == power {
        end -= 1;
    }
    monomials.split_at(end)
}

// The coefficients whose monomials these are, from the power 0 up.
fn read_falling<R: PolynomialRing>(
    alloc: Global,
    letter: Letter,
    inner: &[Letter],
    monomials: &[Monomial],
) -> Result<Option<Vec<R>>, AllocError>
    requires one_each { length inner.now ≡ R.levels }
    requires distinct { AreDistinct (letter_of letter ∷ map letter_of inner.now) }
    ensures read { (powers : MonomialValue) (cs : List Meaning) → AreCoefficients R.levels cs → length cs ≤ 256
        → IsFree (letter_of letter ∷ map letter_of inner.now) powers
        → map monomial_of monomials.now ≡ map (times powers) (falling (letter_of letter) (monomials_of (map letter_of inner.now)) cs 0)
        → IfOk result (λ found. MatchOption found ⊥ (λ list. map R.meaning list.items ≡ cs)) }
{
    let mut coefficients = Vec::new(alloc);
    let mut rest = monomials;
    while !rest.is_empty() {
        if coefficients.len() == MAX_LENGTH {
            return Ok(None);
        }
        let (front, last) = cut_at_power(rest, letter, coefficients.len() as u32);
        match R::from_monomials(alloc, inner, last)? {
            Some(coefficient) => coefficients.push(coefficient)?,
            None => return Ok(None),
        }
        rest = front;
    }
    Ok(Some(coefficients))
}

// The most coefficients of a polynomial.
const MAX_LENGTH: usize = 256;

impl<R: PolynomialRing> PolynomialRing for Poly<R> {
    ghost levels = { suc R.levels };

    fn push_monomials(
        &self,
        letters: &[Letter],
        powers: &Monomial,
        monomials: &mut Vec<Monomial>,
    ) -> Result<(), AllocError> {
        match letters.split_first() {
            Some((letter, inner)) => {
                push_falling(self.coefficients(), *letter, inner, powers, monomials)
            }
            None => Ok(()),
        }
    }

    fn from_monomials(
        alloc: Global,
        letters: &[Letter],
        monomials: &[Monomial],
    ) -> Result<Option<Poly<R>>, AllocError> {
        let Some((letter, inner)) = letters.split_first() else {
            return Ok(None);
        };
        let Some(coefficients) = read_falling(alloc, *letter, inner, monomials)? else {
            return Ok(None);
        };
        match Poly::from_coefficients(coefficients) {
            Ok(poly) => Ok(Some(poly)),
            Err(RingFault::TooLarge) => Ok(None),
            Err(RingFault::Memory) => Err(AllocError),
        }
    }

    ghost has_letters = { poly_has_letters R.levels R.algebra R.has_letters };
}
