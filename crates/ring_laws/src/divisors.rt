//! The greatest common divisor of two numbers.

ghost use Rattle.std.specs.Int.{IsGcd};

/// The greatest common divisor: it divides both numbers, and every common divisor divides it. Of two zeros it is 0.
pub fn gcd_whole(a: u128, b: u128) -> u128
    ensures greatest { IsGcd a b result }
{
    let mut divisor = a;
    let mut rest = b;
    while rest != 0 {
        let next = divisor % rest;
        divisor = rest;
        rest = next;
    }
    divisor
}
