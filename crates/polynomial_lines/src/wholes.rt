//! The whole numbers, as polynomials without letters.

ghost use Rattle.std.specs.Prelude.{◌≡◌};
ghost use Rattle.polynomial_sums.proofs.Levels.{whole_has_letters};

use crate::letters::Letter;
use crate::rings::PolynomialRing;
use ring_laws::Whole;
use spelled::Monomial;
use std::alloc::{AllocError, Global};

impl PolynomialRing for Whole {
    ghost levels = { 0 };

    fn push_monomials(
        &self,
        _letters: &[Letter],
        powers: &Monomial,
        monomials: &mut Vec<Monomial>,
    ) -> Result<(), AllocError> {
        let coefficient = self.value();
        if coefficient == 0 {
            return Ok(());
        }
        monomials.push(Monomial {
            coefficient,
            ..*powers
        })?;
        Ok(())
    }

    fn from_monomials(
        _alloc: Global,
        _letters: &[Letter],
        monomials: &[Monomial],
    ) -> Result<Option<Whole>, AllocError> {
        match monomials.first() {
            Some(monomial) => Ok(Whole::new(monomial.coefficient)),
            None => Ok(Some(Whole::ZERO)),
        }
    }

    ghost has_letters = { whole_has_letters };
}
