//! The sign of the value of a polynomial, without memory and whatever its size.

ghost use Rattle.std.specs.Prelude.{◌≡◌, ◌≢◌, ℤ, pos, negsuc, ◌≤◌, ◌<◌, ◌^◌, ◌+ℤ◌, ◌*ℤ◌, unsigned_abs, length, IsTrue, ◌↔◌};
ghost use Rattle.poly_laws.specs.Values.{horner};
ghost use Rattle.whole_roots.specs.Signs.{sign_of, value};
ghost use Rattle.whole_roots.specs.Clamps.{IsClamped};

use poly_generic::Zn;
use ring_laws::{Ring, Sign, Whole};

/// The sign of the value at any whole number but the least one of its type. It takes no memory, and the value may have any size.
pub fn sign_at(f: &Zn, at: i128) -> Sign
    requires at { at ≢ i128.MIN }
    ensures sign { result ≡ sign_of (value (⟦<Zn as Ring>⟧.meaning f.now) at) }
{
    if at.unsigned_abs() < 2 {
        return sign_near(f.coefficients(), at);
    }
    sign_far(f.coefficients(), at)
}

// Whether the value there has this sign.
pub fn has_sign(f: &Zn, at: i128, sign: Sign) -> bool
    requires at { at ≢ i128.MIN }
    ensures test { IsTrue result ↔ (sign_of (value (⟦<Zn as Ring>⟧.meaning f.now) at) ≡ sign) }
{
    sign_at(f, at) == sign
}

// The sign of a number.
fn sign(number: i128) -> Sign
    ensures sign { result ≡ sign_of number }
{
    if number < 0 {
        Sign::Negative
    } else if number == 0 {
        Sign::Zero
    } else {
        Sign::Positive
    }
}

// The sign of the value at -1, 0 or 1, by Horner's rule with two words, which 256 sums can't overflow.
fn sign_near(list: &[Whole], at: i128) -> Sign
    requires near { unsigned_abs at < 2 }
    requires short { length list.now ≤ 256 }
    ensures sign { result ≡ sign_of (horner (λ w. w.value) at list.now) }
{
    let mut high: i128 = 0;
    let mut low: i128 = 0;
    let mut power = list.len();
    while power > 0 {
        power -= 1;
        let (above, below) = words(list[power].value());
        high = above + times_near(at, high);
        low = below + times_near(at, low);
    }
    sign_of_words(high, low)
}

// The sign of a number from its two words, of which the lower one may have grown beyond 64 bits.
fn sign_of_words(high: i128, low: i128) -> Sign
    requires high { unsigned_abs high ≤ 2 ^ 80 }
    requires low { unsigned_abs low ≤ 2 ^ 80 }
    ensures sign { result ≡ sign_of (high *ℤ pos (2 ^ 64) +ℤ low) }
{
    let (carry, rest) = words(low);
    let upper = high + carry;
    if upper > 0 {
        return Sign::Positive;
    }
    if upper < 0 {
        return Sign::Negative;
    }
    sign(rest)
}

// The two words of a number, the lower one of 64 bits and a sign.
fn words(number: i128) -> (i128, i128)
    ensures number { number ≡ result.0 *ℤ pos (2 ^ 64) +ℤ result.1 }
    ensures high { unsigned_abs result.0 ≤ 2 ^ 63 }
    ensures low { unsigned_abs result.1 < 2 ^ 64 }
{
    (number / (1 << 64), number % (1 << 64))
}

// A word times -1, 0 or 1.
fn times_near(at: i128, word: i128) -> i128
    requires near { unsigned_abs at < 2 }
    requires least { word ≢ i128.MIN }
    ensures product { result ≡ at *ℤ word }
    ensures bound { unsigned_abs result ≤ unsigned_abs word }
{
    if at == 0 {
        0
    } else if at < 0 {
        -word
    } else {
        word
    }
}

// The sign of the value at a number of magnitude 2 or more, by Horner's rule with values that are cut off at 127 bits: a value
// that has passed all coefficients only grows.
fn sign_far(list: &[Whole], at: i128) -> Sign
    requires far { 2 ≤ unsigned_abs at }
    requires least { at ≢ i128.MIN }
    ensures sign { result ≡ sign_of (horner (λ w. w.value) at list.now) }
{
    let mut clamped: i128 = 0;
    let mut power = list.len();
    while power > 0 {
        power -= 1;
        clamped = clamped_step(list[power].value(), at, clamped);
    }
    sign(clamped)
}

// coefficient + at * held, cut off at 127 bits.
fn clamped_step(coefficient: i128, at: i128, held: i128) -> i128
    requires coefficient { coefficient ≢ i128.MIN }
    ensures clamped { IsClamped (coefficient +ℤ at *ℤ held) result }
{
    let Some(size) = at.unsigned_abs().checked_mul(held.unsigned_abs()) else {
        return if (at < 0) == (held < 0) {
            i128::MAX
        } else {
            -i128::MAX
        };
    };
    if (at < 0) == (held < 0) {
        clamped_sum(coefficient, size)
    } else {
        -clamped_sum(-coefficient, size)
    }
}

// coefficient + size, cut off at 127 bits.
fn clamped_sum(coefficient: i128, size: u128) -> i128
    requires coefficient { coefficient ≢ i128.MIN }
    ensures clamped { IsClamped (coefficient +ℤ pos size) result }
{
    if size <= i128::MAX as u128 {
        return coefficient.saturating_add(size as i128);
    }
    if coefficient < 0 {
        let rest = size - coefficient.unsigned_abs();
        if rest < i128::MAX as u128 {
            return rest as i128;
        }
    }
    i128::MAX
}
