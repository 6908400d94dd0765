//! Places in a text.

ghost use Rattle.std.specs.Prelude.{◌≡◌, ◌≤◌, ◌<◌, ◌+◌, ◌^◌, length};
ghost use Rattle.cas_lex.specs.Places as spec;

use cas_base::Place;

/// The place of a text's first byte.
pub const START: Place = Place { line: 1, col: 1 };

/// The place after a text's last byte.
pub fn end_of(text: &[u8]) -> Place
    requires { length text.now + 1 < 2 ^ 32 }
    ensures { result ≡ spec.behind spec.start text.now }
{
    behind(START, text)
}

/// The place after these bytes, of which the first is at a place.
pub fn behind(place: Place, bytes: &[u8]) -> Place
    requires lines { place.line + length bytes.now < 2 ^ 32 }
    requires columns { place.col + length bytes.now < 2 ^ 32 }
    ensures value { result ≡ spec.behind place bytes.now }
    ensures lines { result.line ≤ place.line + length bytes.now }
    ensures columns { result.col ≤ place.col + length bytes.now }
{
    let mut at = place;
    for byte in bytes {
        at = if *byte == b'\n' {
            Place {
                line: at.line + 1,
                col: 1,
            }
        } else {
            Place {
                line: at.line,
                col: at.col + 1,
            }
        };
    }
    at
}
