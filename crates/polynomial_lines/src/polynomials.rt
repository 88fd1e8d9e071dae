//! The spelling of polynomials.

ghost use Rattle.std.specs.Prelude.{◌≡◌, length};
ghost use Rattle.ring_laws.specs.Meaning.{Meaning};
ghost use Rattle.polynomial_sums.specs.PolynomialSums.{polynomials};
ghost use Rattle.polynomial_lines.specs.Letters.{letters_of};
ghost use Rattle.polynomial_lines.specs.LetterLaws.{letters_within_line, letters_are_items};

use crate::letters::Letters;
use crate::rings::PolynomialRing;
use poly_generic::{Zn, Znk};
use spelled::{ItemSpelling, Monomial, Spelling, Sums};
use std::alloc::{AllocError, Global};
use std::marker::PhantomData;

/// Polynomials with at most 256 coefficients at each level and numbers below 2^127 in magnitude, as sums of their monomials.
#[derive(Drop)]
pub struct Polynomials<R: PolynomialRing> {
    /// The letters, one for each level.
    pub letters: Letters,
    ring: PhantomData<R>,
    ghost one_each: { length (letters_of letters) ≡ R.levels },
}

/// Polynomials in n.
pub const POLYNOMIALS_IN_N: Polynomials<Zn> = Polynomials {
    letters: Letters::InN,
    ring: PhantomData,
};

/// Polynomials in n and k.
pub const POLYNOMIALS_IN_N_AND_K: Polynomials<Znk> = Polynomials {
    letters: Letters::InNAndK,
    ring: PhantomData,
};

impl<R: PolynomialRing> Polynomials<R> {
    /// Polynomials in these letters, one for each level.
    pub fn new(letters: Letters) -> Polynomials<R>
        requires one_each { length (letters_of letters) ≡ R.levels }
        ensures letters { result.letters ≡ letters }
    {
        Polynomials {
            letters,
            ring: PhantomData,
        }
    }
}

// The monomial 1.
const ONE: Monomial = Monomial {
    coefficient: 1,
    n_power: 0,
    k_power: 0,
    x_power: 0,
};

impl<R: PolynomialRing> Spelling for Polynomials<R> {
    type Item = R;

    ghost Value = { Meaning };

    ghost value_of = { R.meaning };

    ghost format = { λ spelling. polynomials (letters_of spelling.letters) };

    fn write(&self, polynomial: &R, text: &mut String) -> Result<(), AllocError> {
        let mut monomials = Vec::new(*text.allocator());
        polynomial.push_monomials(self.letters.each(), &ONE, &mut monomials)?;
        Sums.write(&monomials, text)
    }

    fn read(&self, alloc: Global, text: &[u8]) -> Result<Option<R>, AllocError> {
        match Sums.read(alloc, text)? {
            Some(monomials) => R::from_monomials(alloc, self.letters.each(), &monomials),
            None => Ok(None),
        }
    }

    ghost within_line = { λ spelling. letters_within_line spelling.letters };
}

impl<R: PolynomialRing> ItemSpelling for Polynomials<R> {
    ghost are_items = { λ spelling. letters_are_items spelling.letters };
}
