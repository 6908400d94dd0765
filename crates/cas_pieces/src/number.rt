//! Words that are numbers.

ghost use Rattle.std.specs.Prelude.{◌≡◌};
ghost use Rattle.std.specs.Char.{is_ascii_digit};
ghost use Rattle.std.specs.List.{list_all};
ghost use Rattle.std.specs.Option.{option_map};
ghost use Rattle.cas_pieces.specs.Numbers as spec;

use crate::piece::Word;

impl<'a> Word<'a> {
    /// Whether it is a number in its one spelling: decimal digits that don't begin with a 0 that isn't alone.
    pub fn is_numeral(&self) -> bool
        ensures { result ≡ spec.is_numeral self.now }
    {
        is_numeral(self.as_str().as_bytes())
    }

    /// The number that it is, if its digits are decimal and don't begin with a 0 that isn't alone. A number above the
    /// largest `u64` is given as that.
    pub fn number(&self) -> Option<u64>
        ensures { result ≡ option_map spec.capped (spec.number self.now) }
    {
        let text = self.as_str();
        if !is_numeral(text.as_bytes()) {
            return None;
        }
        match text.parse::<u64>() {
            Ok(value) => Some(value),
            Err(_) => Some(u64::MAX),
        }
    }
}

// Whether these are decimal digits that don't begin with a 0 that isn't alone.
fn is_numeral(digits: &[u8]) -> bool
    ensures { result ≡ spec.is_numeral digits.now }
{
    match digits {
        [] => false,
        [first, rest @ ..] => {
            if *first == b'0' {
                rest.is_empty()
            } else {
                all_digits(digits)
            }
        }
    }
}

fn all_digits(digits: &[u8]) -> bool
    ensures { result ≡ list_all is_ascii_digit digits.now }
{
    digits.iter().all(|byte| byte.is_ascii_digit())
}
