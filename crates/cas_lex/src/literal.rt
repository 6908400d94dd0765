//! Literals: their values and kinds, and the forms that are left out.

ghost use Rattle.std.specs.Prelude.{◌≡◌, ◌≤◌, ◌<◌, ◌+◌, ◌*◌, ◌^◌, length, nat_lt, if◌then◌else◌, IsTrue};
ghost use Rattle.std.specs.Char.{digit_value, is_ascii_digit, is_ascii_hexdigit};
ghost use Rattle.std.specs.List.{prefix_len};
ghost use Rattle.std.specs.Str.Parse.{digits_value};
ghost use Rattle.cas_lex.specs.Literals as spec;

use crate::code::ReadCode;
use crate::front::Front;
use crate::token::TokenKind;
use cas_base::Kind;

/// What begins a text that begins with a digit.
pub fn literal_at(text: &[u8]) -> Front
    ensures { result ≡ spec.literal_at text.now }
{
    if is_hexadecimal(text) {
        let rest = &text[2..];
        let len = hexadecimal_len(rest);
        literal_before(16, &rest[..len], 2 + len, &rest[len..])
    } else {
        let len = decimal_len(text);
        if is_octal(&text[..len]) {
            return Front::Fault(ReadCode::R7);
        }
        literal_before(10, &text[..len], len, &text[len..])
    }
}

// How many hexadecimal digits begin a text.
fn hexadecimal_len(text: &[u8]) -> usize
    ensures value { result ≡ prefix_len is_ascii_hexdigit text.now }
    ensures within { result ≤ length text.now }
{
    text.iter()
        .take_while(|byte| byte.is_ascii_hexdigit())
        .count()
}

// How many decimal digits begin a text.
fn decimal_len(text: &[u8]) -> usize
    ensures value { result ≡ prefix_len is_ascii_digit text.now }
    ensures within { result ≤ length text.now }
{
    text.iter().take_while(|byte| byte.is_ascii_digit()).count()
}

// A literal with these digits, of `len` bytes before its suffix, and what follows these.
fn literal_before(base: u32, digits: &[u8], len: usize, after: &[u8]) -> Front
    requires base { 0 < base }
    requires room { len + length after.now < 2 ^ 64 }
    ensures { result ≡ spec.literal_before (digits_value base digits.now) len after.now }
{
    let Some(value) = value_of(base, digits) else {
        return Front::Fault(ReadCode::R3);
    };
    if begins_with_u(after) {
        ended_literal(value, true, len + 1, &after[1..])
    } else {
        ended_literal(value, false, len, after)
    }
}

// A literal of `len` bytes in all, and what follows it.
fn ended_literal(value: u32, has_u: bool, len: usize, after: &[u8]) -> Front
    ensures { result ≡ spec.ended_literal value has_u len after.now }
{
    if begins_with_letter(after) {
        Front::Fault(ReadCode::R7)
    } else {
        Front::Token(TokenKind::Literal(value, literal_kind(has_u, value)), len)
    }
}

fn literal_kind(has_u: bool, value: u32) -> Kind
    ensures { result ≡ spec.literal_kind has_u value }
{
    if has_u || value > 2147483647 {
        Kind::U32
    } else {
        Kind::I32
    }
}

fn begins_with_u(text: &[u8]) -> bool
    ensures value { result ≡ spec.begins_with_u text.now }
    ensures some { IsTrue result → 1 ≤ length text.now }
{
    match text {
        [first, ..] => *first == b'u' || *first == b'U',
        [] => false,
    }
}

fn begins_with_letter(text: &[u8]) -> bool
    ensures { result ≡ spec.begins_with_letter text.now }
{
    match text {
        [first, ..] => first.is_ascii_alphabetic() || *first == b'_',
        [] => false,
    }
}

fn is_hexadecimal(text: &[u8]) -> bool
    ensures value { result ≡ spec.is_hexadecimal text.now }
    ensures some { IsTrue result → 2 ≤ length text.now }
{
    match text {
        [zero, mark, digit, ..] => {
            *zero == b'0' && (*mark == b'x' || *mark == b'X') && digit.is_ascii_hexdigit()
        }
        _ => false,
    }
}

fn is_octal(digits: &[u8]) -> bool
    ensures { result ≡ spec.is_octal digits.now }
{
    match digits {
        [zero, _, ..] => *zero == b'0',
        _ => false,
    }
}

// The value of these digits, or none if it is above 4294967295.
fn value_of(base: u32, digits: &[u8]) -> Option<u32>
    requires { 0 < base }
    ensures { result ≡ spec.small (digits_value base digits.now) }
{
    let mut value = 0u32;
    for digit in digits {
        value = grown(base, value, *digit)?;
    }
    Some(value)
}

// A value with one more digit.
fn grown(base: u32, value: u32, digit: u8) -> Option<u32>
    ensures { result ≡ spec.small (value * base + digit_value digit) }
{
    let grown = u64::from(value) * u64::from(base) + u64::from(value_of_digit(digit));
    u32::try_from(grown).ok()
}

fn value_of_digit(digit: u8) -> u32
    ensures value { result ≡ digit_value digit }
    ensures small { result ≤ 36 }
{
    char::from(digit).to_digit(36).unwrap_or(36)
}
