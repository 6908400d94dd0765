//! The limit of outermost expressions.

ghost use Rattle.std.specs.Prelude.{◌≡◌, ◌≢◌, ◌<◌, List, IfOk, IfErr, Ok, false};
ghost use Rattle.cas_syntax.specs.Reading.{within};
ghost use Rattle.cas_read_expr.specs.declared.stop.Stop.TheVariants.{Memory};
ghost use Rattle.cas_parse.specs.Frames.{Control, Frame};
ghost use Rattle.cas_parse.specs.Machine.{counted};
ghost use Rattle.cas_read_expr.specs.Follow.{Follows, taken, verdict};

use crate::stop::Stop;
use cas_lex::{ReadCode, Token};
use cas_syntax::TOKEN_LIMIT;

/// Counts a token of an outermost expression that has so many tokens before it; these tokens follow it.
pub fn count(used: usize, rest: &[Token]) -> Result<(), Stop>
    ensures follows { (c : Control) (st : List Frame) → Follows result
        (taken rest.now (counted (within 0) false false used (Ok (c, st)))) (λ _. verdict rest.now c st) }
    ensures below { IfOk result (λ _. used < TOKEN_LIMIT) }
    ensures faults { IfErr result (λ e. e ≢ Memory) }
{
    if used < TOKEN_LIMIT {
        Ok(())
    } else {
        Err(Stop::At {
            code: ReadCode::R8,
            left: rest.len() + 1,
        })
    }
}
