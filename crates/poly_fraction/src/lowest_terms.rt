//! Lowest terms of fractions of whole numbers.

ghost use Rattle.std.specs.Prelude.{◌≡◌, ◌≢◌, pos, ◌*ℤ◌, ◌<ℤ◌, ◌↔◌, unsigned_abs};
ghost use Rattle.std.specs.Int.{◌∣◌, IsGcd};
ghost use Rattle.poly_fraction.specs.Fractions.{AreSame};
ghost use Rattle.poly_fraction.specs.FractionOf.{fraction_of};
ghost use Rattle.poly_fraction.specs.LowestTerms.{IsInLowestTerms};

use crate::fractions::Frac;
use ring_laws::{Ring, Whole, gcd_whole};

/// The same fraction in lowest terms: with a positive denominator and no common divisor above 1. It takes no memory.
pub fn lowest(f: &Frac<Whole>) -> Frac<Whole>
    ensures same { AreSame ⟦<Whole as Ring>⟧.algebra.ops (fraction_of result) (fraction_of f.now) }
    ensures lowest { IsInLowestTerms (fraction_of result) }
{
    let top = *f.top();
    let bottom = *f.bottom();
    let divisor = signed_divisor(top, bottom);
    let top = exact_quotient(top, divisor);
    let bottom = exact_quotient(bottom, divisor);
    Frac::new(top, bottom).unwrap()
}

// The greatest common divisor, with the sign of the second number.
fn signed_divisor(a: Whole, b: Whole) -> i128
    requires not_zero { b.value ≢ pos 0 }
    ensures greatest { IsGcd (unsigned_abs a.value) (unsigned_abs b.value) (unsigned_abs result) }
    ensures sign { (pos 0 <ℤ result) ↔ (pos 0 <ℤ b.value) }
    ensures not_zero { result ≢ pos 0 }
{
    let divisor = divisor_of(a, b);
    if b.value() > 0 { divisor } else { -divisor }
}

// The greatest common divisor of two numbers, of which the second isn't 0.
fn divisor_of(a: Whole, b: Whole) -> i128
    requires not_zero { b.value ≢ pos 0 }
    ensures positive { pos 0 <ℤ result }
    ensures greatest { IsGcd (unsigned_abs a.value) (unsigned_abs b.value) (unsigned_abs result) }
{
    gcd_whole(a.value().unsigned_abs(), b.value().unsigned_abs()) as i128
}

// The quotient by a number that divides.
fn exact_quotient(number: Whole, divisor: i128) -> Whole
    requires divides { unsigned_abs divisor ∣ unsigned_abs number.value }
    requires not_zero { divisor ≢ pos 0 }
    ensures quotient { result.value *ℤ divisor ≡ number.value }
{
    Whole::new(number.value() / divisor).unwrap()
}
