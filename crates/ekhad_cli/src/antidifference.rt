//! Antidifferences of polynomials in k of degree at most 4.
//!
//! An antidifference of a power of k is a polynomial whose difference is that power. Over the common denominator 60:
//!
//! | power | sixty times the antidifference |
//! |---|---|
//! | 0 | 60k |
//! | 1 | 30k^2 - 30k |
//! | 2 | 20k^3 - 30k^2 + 10k |
//! | 3 | 15k^4 - 30k^3 + 15k^2 |
//! | 4 | 12k^5 - 30k^4 + 20k^3 - 2k |

ghost use Rattle.std.specs.Prelude.{◌≡◌, ◌≤◌, ◌↔◌, ℕ, All, ℤ, pos, ◌*ℤ◌, ◌<ℤ◌, unsigned_abs, slice_index_or, length};
ghost use Rattle.std.specs.Int.{◌∣◌};
ghost use Rattle.ekhad_cli.specs.Antidifference.{dot_product, IsDifference, DividesAll, AreQuotients, IsLeastAntidifference};

use ring_laws::gcd_whole;

/// A multiplier, and the coefficients from k^0 up of the polynomial whose difference is that many times another polynomial.
#[derive(Clone, Copy, Drop)]
pub(crate) struct Antidifference {
    pub(crate) multiplier: i64,
    pub(crate) coefficients: [i64; 6],
}

// What the antidifferences of the table are multiplied by.
const DENOMINATOR: i64 = 60;

// The sum of the products of weights and coefficients.
fn dot(weights: &[i64], c: &[i64]) -> i64
    requires five { length weights.now ≡ 5 }
    requires as_many { length c.now ≡ 5 }
    requires small_weights { All (λ w. unsigned_abs w ≤ 60) weights.now }
    requires small { All (λ x. unsigned_abs x ≤ 5000000) c.now }
    ensures value { result ≡ dot_product weights.now c.now }
    ensures small { unsigned_abs result ≤ 1500000000 }
{
    let mut sum = 0;
    for place in 0..weights.len() {
        sum += weights[place] * c[place];
    }
    sum
}

// Sixty times the antidifference of the polynomial with these coefficients, from k^0 up. Each line has the weights of one power of
// the answer: what it is for 1, k, k^2, k^3 and k^4.
fn sixty_fold(c: &[i64; 5]) -> [i64; 6]
    requires small { All (λ x. unsigned_abs x ≤ 5000000) c.now }
    ensures difference { IsDifference (pos 60) c.now result }
    ensures small { All (λ x. unsigned_abs x ≤ 1500000000) result }
    ensures no_constant { slice_index_or result 0 (pos 0) ≡ pos 0 }
{
    [
        0,
        dot(&[60, -30, 10, 0, -2], c),
        dot(&[0, 30, -30, 15, 0], c),
        dot(&[0, 0, 20, -30, 20], c),
        dot(&[0, 0, 0, 15, -30], c),
        dot(&[0, 0, 0, 0, 12], c),
    ]
}

// The greatest common divisor of the denominator and the numbers.
fn common_divisor(numbers: &[i64]) -> i64
    ensures positive { pos 0 <ℤ result }
    ensures few { unsigned_abs result ≤ 60 }
    ensures greatest { (d : ℕ) → (d ∣ unsigned_abs result) ↔ ((d ∣ 60) × DividesAll d numbers.now) }
{
    greatest_divisor(numbers) as i64
}

// The same number, without its sign.
fn greatest_divisor(numbers: &[i64]) -> u128
    ensures { (d : ℕ) → (d ∣ result) ↔ ((d ∣ 60) × DividesAll d numbers.now) }
{
    let mut divisor = 60;
    for number in numbers {
        divisor = gcd_whole(divisor, u128::from(number.unsigned_abs()));
    }
    divisor
}

// The quotient of a number by a divisor of it.
fn quotient(number: i64, divisor: i64) -> i64
    requires positive { pos 0 <ℤ divisor }
    requires divides { unsigned_abs divisor ∣ unsigned_abs number }
    ensures exact { result *ℤ divisor ≡ number }
    ensures small { unsigned_abs result ≤ unsigned_abs number }
{
    number / divisor
}

// Each number divided by a common divisor.
fn divide_all(numbers: &mut [i64], divisor: i64)
    requires positive { pos 0 <ℤ divisor }
    requires few { unsigned_abs divisor ≤ 60 }
    requires small { All (λ z. unsigned_abs z ≤ 1500000000) numbers.old }
    requires divides { DividesAll (unsigned_abs divisor) numbers.old }
    ensures { AreQuotients divisor numbers.old numbers.new }
{
    for number in numbers.iter_mut() {
        *number = quotient(*number, divisor);
    }
}

/// The antidifference with the least multiplier, of the polynomial with these coefficients, from k^0 up.
pub(crate) fn least_antidifference(c: &[i64; 5]) -> Antidifference
    requires small { All (λ x. unsigned_abs x ≤ 5000000) c.now }
    ensures least { IsLeastAntidifference c.now result.multiplier result.coefficients }
    ensures few { unsigned_abs result.multiplier ≤ 60 }
    ensures small { All (λ x. unsigned_abs x ≤ 1500000000) result.coefficients }
{
    let mut coefficients = sixty_fold(c);
    let divisor = common_divisor(&coefficients);
    divide_all(&mut coefficients, divisor);
    Antidifference {
        multiplier: quotient(DENOMINATOR, divisor),
        coefficients,
    }
}
