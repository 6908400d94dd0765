//! What was read, and is kept while more is read. It is dropped here if reading stops.

ghost use Rattle.std.specs.Prelude.{◌≡◌, ◌≢◌, ◌<◌, length, List, IfOk, IfErr, true};
ghost use Rattle.cas_read_expr.specs.declared.stop.Stop.TheVariants.{Memory};
ghost use Rattle.cas_parse.specs.Frames.{Control, Frame, Expect};
ghost use Rattle.cas_read_expr.specs.Follow.{Follows, kept, verdict};

use crate::front::expect;
use crate::stop::Stop;
use cas_lex::{Sign, Token};

/// A value, with what is read after it.
pub fn beside<T: Drop, U>(value: T, read: Result<U, Stop>) -> Result<(T, U), Stop>
    ensures { result ≡ kept value read }
{
    match read {
        Ok(next) => Ok((value, next)),
        Err(stop) => Err(stop),
    }
}

/// A value after which a sign has to follow, inside a function's body, and the rest after the sign.
pub fn followed<T: Drop>(value: T, tokens: &[Token], sign: Sign) -> Result<(T, &[Token]), Stop>
    ensures follows { (c : Control) (st : List Frame) → Follows result (verdict tokens.now (Expect true sign c) st)
        (λ p. verdict p.1.now c st) }
    ensures same { IfOk result (λ p. p.0 ≡ value) }
    ensures shorter { IfOk result (λ p. length p.1.now < length tokens.now) }
    ensures faults { IfErr result (λ e. e ≢ Memory) }
{
    match expect(tokens, sign) {
        Ok(rest) => Ok((value, rest)),
        Err(stop) => Err(stop),
    }
}
