//! The letters of polynomials.

ghost use Rattle.std.specs.Prelude.{◌≡◌, map};
ghost use Rattle.polynomial_sums.specs.PolynomialSums.{power_in, with_power};
ghost use Rattle.spelled.specs.Monomials.{monomial_of};
ghost use Rattle.polynomial_lines.specs.Letters.{letter_of, letters_of};

use spelled::Monomial;

/// A letter of polynomials.
#[derive(Clone, Copy, Debug, PartialEq, Eq, Drop)]
pub enum Letter {
    /// n
    N,
    /// k
    K,
    /// x
    X,
}

impl Letter {
    /// The power of the letter in a monomial.
    pub fn power_in(self, monomial: &Monomial) -> u32
        ensures power { result ≡ power_in (letter_of self) (monomial_of monomial.now) }
    {
        match self {
            Letter::N => monomial.n_power,
            Letter::K => monomial.k_power,
            Letter::X => monomial.x_power,
        }
    }

    /// The monomial with another power of the letter.
    pub fn with_power(self, power: u32, monomial: &Monomial) -> Monomial
        ensures monomial { monomial_of result ≡ with_power (letter_of self) power (monomial_of monomial.now) }
    {
        match self {
            Letter::N => Monomial {
                n_power: power,
                ..*monomial
            },
            Letter::K => Monomial {
                k_power: power,
                ..*monomial
            },
            Letter::X => Monomial {
                x_power: power,
                ..*monomial
            },
        }
    }
}

/// The letters that polynomials are written in. Their powers fall letter by letter, and a monomial is written n before k before x.
#[derive(Clone, Copy, Debug, PartialEq, Eq, Drop)]
pub enum Letters {
    /// In n.
    InN,
    /// In n and k, by falling power of k, then of n.
    InNAndK,
    /// In n, k and x, by falling power of k, then of n, then of x.
    InNKAndX,
}

impl Letters {
    /// The letters, one for each level of a polynomial, the outermost first.
    pub fn each(self) -> &'static [Letter]
        ensures letters { map letter_of result.now ≡ letters_of self }
    {
        match self {
            Letters::InN => &[Letter::N],
            Letters::InNAndK => &[Letter::K, Letter::N],
            Letters::InNKAndX => &[Letter::K, Letter::N, Letter::X],
        }
    }
}
