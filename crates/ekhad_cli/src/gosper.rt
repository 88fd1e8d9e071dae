//! The document of a whole number times a polynomial in k: its term, and the least multiple of it that is the difference of a polynomial.

ghost use Rattle.std.specs.Prelude.{◌≡◌, ◌≢◌, ◌≤◌, ℤ, All, length, IfOk, Err};
ghost use Rattle.ring_laws.specs.declared.faults.RingFault.{RingFault};
ghost use Rattle.ekhad_cli.specs.FirstRun.{IsSmall, polynomial_of};
ghost use Rattle.ekhad_cli.specs.Answer.{IsAntidifferenceOf};

use crate::antidifference::least_antidifference;
use crate::small_terms::SmallTerm;
use cert_text::PolyDoc;
use poly_generic::{Poly, Zn};
use ring_laws::{Ring, RingFault, Whole};
use std::alloc::Global;

// A number of 64 bits.
fn whole(value: i64) -> Whole
    ensures { result.value ≡ value }
{
    Whole::new(i128::from(value)).unwrap()
}

// The polynomial with these coefficients, from the power 0 up.
fn poly_of(alloc: Global, coefficients: &[i64]) -> Result<Zn, RingFault>
    requires short { length coefficients.now ≤ 256 }
    ensures meaning { IfOk result (λ p. ⟦<Zn as Ring>⟧.meaning p ≡ polynomial_of coefficients.now) }
    ensures in_bounds { result ≢ Err RingFault.TooLarge }
{
    let mut list = Vec::new(alloc);
    for coefficient in coefficients {
        list.push(whole(*coefficient))?;
    }
    Poly::from_coefficients(list)
}

/// The document of a small whole number times a polynomial in k.
///
/// `TooLarge` never comes, since the numbers are small.
pub(crate) fn gosper(alloc: Global, term: &SmallTerm) -> Result<PolyDoc, RingFault>
    requires small { All IsSmall term.now.coefficients }
    ensures poly { IfOk result (λ doc. ⟦<Zn as Ring>⟧.meaning doc.poly ≡ polynomial_of term.now.coefficients) }
    ensures scale { IfOk result (λ doc. doc.scale.value ≡ term.now.scale) }
    ensures carrier { IfOk result (λ doc. doc.carrier_scale.value ≡ term.now.scale) }
    ensures antidifference { IfOk result (λ doc. IsAntidifferenceOf (⟦<Zn as Ring>⟧.meaning doc.poly) doc.multiplier.value
        (⟦<Zn as Ring>⟧.meaning doc.y)) }
    ensures in_bounds { result ≢ Err RingFault.TooLarge }
{
    let least = least_antidifference(&term.coefficients);
    Ok(PolyDoc {
        poly: poly_of(alloc, &term.coefficients)?,
        scale: whole(term.scale),
        multiplier: whole(least.multiplier),
        carrier_scale: whole(term.scale),
        y: poly_of(alloc, &least.coefficients)?,
    })
}
