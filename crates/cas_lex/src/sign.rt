//! Signs, by longest match.

ghost use Rattle.std.specs.Prelude.{◌≡◌, ◌∷◌, [], nat_eq, codes, if◌then◌else◌, length};
ghost use Rattle.std.specs.List.{starts_with};
ghost use Rattle.cas_lex.specs.Spellings as spec;

use crate::token::Sign;

/// The longest sign that begins a text.
pub fn sign_at(text: &[u8]) -> Option<Sign>
    ensures { result ≡ spec.sign_at text.now }
{
    match text {
        [] => None,
        [first, rest @ ..] => sign_from(*first, rest),
    }
}

// The longest sign that these bytes begin.
fn sign_from(first: u8, rest: &[u8]) -> Option<Sign>
    ensures { result ≡ spec.sign_at (first ∷ rest.now) }
{
    match first {
        b'+' => doubled_or_equal(rest, b"+", Sign::PlusPlus, Sign::PlusEqual, Sign::Plus),
        b'-' => doubled_or_equal(rest, b"-", Sign::MinusMinus, Sign::MinusEqual, Sign::Minus),
        b'&' => doubled_or_equal(rest, b"&", Sign::AndAnd, Sign::AndEqual, Sign::And),
        b'|' => doubled_or_equal(rest, b"|", Sign::OrOr, Sign::OrEqual, Sign::Or),
        b'<' => less_at(rest),
        b'>' => greater_at(rest),
        b'*' => equal_or_alone(rest, Sign::StarEqual, Sign::Star),
        b'/' => equal_or_alone(rest, Sign::SlashEqual, Sign::Slash),
        b'%' => equal_or_alone(rest, Sign::PercentEqual, Sign::Percent),
        b'^' => equal_or_alone(rest, Sign::CaretEqual, Sign::Caret),
        b'!' => equal_or_alone(rest, Sign::NotEqual, Sign::Not),
        b'=' => equal_or_alone(rest, Sign::EqualEqual, Sign::Equal),
        b'~' => Some(Sign::Tilde),
        b'?' => Some(Sign::Question),
        b':' => Some(Sign::Colon),
        b';' => Some(Sign::Semicolon),
        b',' => Some(Sign::Comma),
        b'(' => Some(Sign::OpenParen),
        b')' => Some(Sign::CloseParen),
        b'[' => Some(Sign::OpenBracket),
        b']' => Some(Sign::CloseBracket),
        b'{' => Some(Sign::OpenBrace),
        b'}' => Some(Sign::CloseBrace),
        _ => None,
    }
}

// A sign that its first byte may double, or `=` may follow.
fn doubled_or_equal(
    rest: &[u8],
    again: &[u8],
    doubled: Sign,
    equal: Sign,
    alone: Sign,
) -> Option<Sign>
    ensures { result
        ≡ (if starts_with nat_eq rest.now again.now then Some doubled
        else (if starts_with nat_eq rest.now (codes "=") then Some equal else Some alone)) }
{
    if rest.starts_with(again) {
        Some(doubled)
    } else {
        equal_or_alone(rest, equal, alone)
    }
}

// A sign that `=` may follow.
fn equal_or_alone(rest: &[u8], equal: Sign, alone: Sign) -> Option<Sign>
    ensures { result ≡ (if starts_with nat_eq rest.now (codes "=") then Some equal else Some alone) }
{
    Some(if rest.starts_with(b"=") { equal } else { alone })
}

// The longest sign that `<` and these bytes begin.
fn less_at(rest: &[u8]) -> Option<Sign>
    ensures { result ≡ spec.sign_at (60 ∷ rest.now) }
{
    if rest.starts_with(b"<=") {
        Some(Sign::ShiftLeftEqual)
    } else {
        doubled_or_equal(rest, b"<", Sign::ShiftLeft, Sign::LessEqual, Sign::Less)
    }
}

// The longest sign that `>` and these bytes begin.
fn greater_at(rest: &[u8]) -> Option<Sign>
    ensures { result ≡ spec.sign_at (62 ∷ rest.now) }
{
    if rest.starts_with(b">=") {
        Some(Sign::ShiftRightEqual)
    } else {
        doubled_or_equal(
            rest,
            b">",
            Sign::ShiftRight,
            Sign::GreaterEqual,
            Sign::Greater,
        )
    }
}
