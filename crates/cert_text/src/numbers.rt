//! Reads numbers. More spellings are read than a document has: whoever reads a document compares it with its one text.

ghost use Rattle.std.specs.Prelude.{◌≡◌, ◌<◌, ◌^◌, ℕ, ℤ, Some, MatchOption};
ghost use Rattle.std.specs.Fmt.{decimal, signed_decimal};
ghost use Rattle.hypergeometric.specs.TermFacts.{IsNumber};
ghost use Rattle.cert_text.specs.Reading.{IsSignOf, signed_number};

use ring_laws::Whole;

// The number that decimal digits spell.
pub(crate) fn read_natural(text: &[u8]) -> Option<u128>
    ensures read { (n : ℕ) → n < 2 ^ 127 → text.now ≡ decimal n → result ≡ Some n }
{
    let Ok(digits) = str::from_utf8(text) else {
        return None;
    };
    digits.parse::<u128>().ok()
}

// Whether a minus stands in front, and what follows the sign, if there is one.
pub(crate) fn read_sign(text: &[u8]) -> (bool, &[u8])
    ensures sign { IsSignOf text.now result.0 result.1.now }
{
    if let Some(rest) = text.strip_prefix(b"-".as_slice()) {
        return (true, rest);
    }
    (false, text.strip_prefix(b"+".as_slice()).unwrap_or(text))
}

// The number that digits spell, with a minus in front of a negative one.
pub(crate) fn read_whole(text: &[u8]) -> Option<Whole>
    ensures read { (z : ℤ) → IsNumber z → text.now ≡ signed_decimal z → MatchOption result ⊥ (λ whole. whole.value ≡ z) }
{
    let (negative, digits) = read_sign(text);
    with_sign(negative, read_natural(digits)?)
}

// The number with this sign and magnitude, `None` for a magnitude of 2^127 or more.
pub(crate) fn with_sign(negative: bool, magnitude: u128) -> Option<Whole>
    ensures signed { magnitude < 2 ^ 127 → MatchOption result ⊥ (λ whole. whole.value ≡ signed_number negative magnitude) }
{
    let value = i128::try_from(magnitude).ok()?;
    Whole::new(if negative { -value } else { value })
}
