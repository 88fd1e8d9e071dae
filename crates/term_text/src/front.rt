//! The token that stands next in a text.
ghost use Rattle.std.specs.Prelude.{◌≡◌, ◌≤◌, ◌<◌, ◌+◌, ◌^◌, length, drop, take_while, if◌then◌else◌, nat_lt, Some, None, IfSome, ℕ};
ghost use Rattle.std.specs.List.{prefix_len};
ghost use Rattle.std.specs.Str.Parse.{AllDigits, digits_value};
ghost use Rattle.grammar.specs.Tokens.{past_spaces, front, name_token, number_token, symbol_token};
ghost use Rattle.term_text.specs.Code.Literals.{whole_of};
ghost use Rattle.term_text.specs.Code.Fronts.{in_class, front_image, below_limit, IfToken};

use crate::state::Token;
use ring_laws::Whole;

/// A fault that a token has by itself.
#[derive(Clone, Copy, Debug, PartialEq, Eq)]
pub enum Flaw {
    Strange,
    NotAscii,
    UnknownName,
    LiteralTooLarge,
}

/// What stands next: nothing, a token of some length, or what is none.
#[derive(Clone, Copy, Debug, PartialEq, Eq)]
pub enum Front {
    End,
    Token(Token, usize),
    Flawed(Flaw),
}

#[derive(Clone, Copy, Debug, PartialEq, Eq)]
enum Class {
    Space,
    Digit,
    Name,
}

impl Class {
    fn has(self, byte: u8) -> bool
        ensures has { result ≡ in_class self byte }
    {
        match self {
            Class::Space => byte == b' ' || byte == b'\t' || byte == b'\r' || byte == b'\n',
            Class::Digit => byte.is_ascii_digit(),
            Class::Name => byte.is_ascii_alphanumeric(),
        }
    }
}

/// Where the bytes of a class end.
fn run_end(text: &[u8], from: usize, class: Class) -> usize
    requires { from ≤ length text.now }
    ensures end { result ≡ from + prefix_len (in_class class) (drop from text.now) }
    ensures within { result ≤ length text.now }
{
    let mut end = from;
    while end < text.len() && class.has(text[end]) {
        end += 1;
    }
    end
}

/// The first place from `from` on where no space stands.
pub fn past_spaces(text: &[u8], from: usize) -> usize
    requires { from ≤ length text.now }
    ensures place { result ≡ past_spaces text.now from }
    ensures within { result ≤ length text.now }
{
    run_end(text, from, Class::Space)
}

/// The greatest literal.
const GREATEST: u128 = (1 << 127) - 1;

/// The number that digits write, unless it is too large.
fn value_of(digits: &[u8]) -> Option<u128>
    requires digits { AllDigits 10 digits.now }
    ensures value { result ≡ below_limit (digits_value 10 digits.now) }
    ensures small { IfSome result (λ value. value < 2 ^ 127) }
{
    let mut value: u128 = 0;
    for digit in digits {
        let digit = u128::from(*digit - b'0');
        if value > (GREATEST - digit) / 10 {
            return None;
        }
        value = value * 10 + digit;
    }
    Some(value)
}

// The number of a literal.
fn whole(value: u128) -> Whole
    requires small { value < 2 ^ 127 }
    ensures whole { result ≡ whole_of value }
{
    Whole {
        value: value as i128,
    }
}

fn symbol(byte: u8) -> Front
    ensures token { result ≡ front_image (symbol_token byte) }
    ensures length { IfToken result (λ len. len ≡ 1) }
{
    match byte {
        b'+' => Front::Token(Token::Plus, 1),
        b'-' => Front::Token(Token::Minus, 1),
        b'*' => Front::Token(Token::Star, 1),
        b'/' => Front::Token(Token::Slash, 1),
        b'^' => Front::Token(Token::Caret, 1),
        b'!' => Front::Token(Token::Bang, 1),
        b'(' => Front::Token(Token::Opening, 1),
        b')' => Front::Token(Token::Closing, 1),
        b',' => Front::Token(Token::Comma, 1),
        b';' => Front::Token(Token::Semicolon, 1),
        _ => {
            if byte < 128 {
                Front::Flawed(Flaw::Strange)
            } else {
                Front::Flawed(Flaw::NotAscii)
            }
        }
    }
}

fn name(text: &[u8]) -> Front
    ensures token { result ≡ front_image (name_token text.now) }
    ensures length { IfToken result (λ len. len ≡ length text.now) }
{
    if text == b"n".as_slice() {
        Front::Token(Token::N, text.len())
    } else if text == b"k".as_slice() {
        Front::Token(Token::K, text.len())
    } else if text == b"binomial".as_slice() {
        Front::Token(Token::Binomial, text.len())
    } else {
        Front::Flawed(Flaw::UnknownName)
    }
}

fn number(digits: &[u8]) -> Front
    requires { AllDigits 10 digits.now }
    ensures token { result ≡ front_image (number_token digits.now) }
    ensures length { IfToken result (λ len. len ≡ length digits.now) }
{
    match value_of(digits) {
        Some(value) => Front::Token(Token::Digits(whole(value)), digits.len()),
        None => Front::Flawed(Flaw::LiteralTooLarge),
    }
}

/// What stands at a place without a space.
pub fn front_at(text: &[u8], at: usize) -> Front
    requires { at ≤ length text.now }
    ensures front { result ≡ front_image (front (drop at text.now)) }
    ensures within { IfToken result (λ len. (0 < len) × (at + len ≤ length text.now)) }
{
    if at == text.len() {
        return Front::End;
    }
    let byte = text[at];
    if byte.is_ascii_digit() {
        number(&text[at..run_end(text, at, Class::Digit)])
    } else if byte.is_ascii_alphabetic() {
        name(&text[at..run_end(text, at, Class::Name)])
    } else {
        symbol(byte)
    }
}
