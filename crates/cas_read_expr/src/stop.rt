//! Why reading stops.

ghost use Rattle.std.specs.Prelude.{◌≡◌, ◌∷◌, [], length, IfOk, IfErr};
ghost use Rattle.cas_lex.specs.declared.code.ReadCode.TheVariants as code;
ghost use Rattle.cas_parse.specs.Machine as machine;

use cas_base::NoMemory;
use cas_lex::{ReadCode, Token, TokenKind, Word};
use std::alloc::{AllocError, AllocFailed};

/// Why reading stops.
#[derive(Clone, Copy, Debug, PartialEq, Eq)]
pub enum Stop {
    /// It ran out of memory.
    Memory,
    /// A fault.
    At {
        code: ReadCode,
        /// How many tokens are left, the faulty one included.
        left: usize,
    },
}

impl From<AllocError> for Stop {
    ghost use Rattle.std.specs.Prelude.{◌≡◌};
    ghost use Rattle.cas_read_expr.specs.declared.stop.Stop.TheVariants.{Memory};

    ghost from_gives = { λ _ stop. stop ≡ Memory };

    fn from(_error: AllocError) -> Self {
        Stop::Memory
    }
}

impl<T: Drop> From<AllocFailed<T>> for Stop {
    ghost use Rattle.std.specs.Prelude.{◌≡◌};
    ghost use Rattle.cas_read_expr.specs.declared.stop.Stop.TheVariants.{Memory};

    ghost from_gives = { λ _ stop. stop ≡ Memory };

    fn from(_error: AllocFailed<T>) -> Self {
        Stop::Memory
    }
}

impl From<NoMemory> for Stop {
    ghost use Rattle.std.specs.Prelude.{◌≡◌};
    ghost use Rattle.cas_read_expr.specs.declared.stop.Stop.TheVariants.{Memory};

    ghost from_gives = { λ _ stop. stop ≡ Memory };

    fn from(_error: NoMemory) -> Self {
        Stop::Memory
    }
}

/// The first of these tokens, and those after it; if there is none the text ends too early (R6).
pub fn next_token(tokens: &[Token]) -> Result<(&Token, &[Token]), Stop>
    ensures some { IfOk result (λ p. tokens.now ≡ p.0.now ∷ p.1.now) }
    ensures none { IfErr result (λ e. (tokens.now ≡ []) × (e ≡ Stop.At code.R6 0)) }
{
    match tokens.split_first() {
        Some(first) => Ok(first),
        None => Err(fault(ReadCode::R6, tokens)),
    }
}

/// The fault of a token that isn't allowed here, inside a function's body.
pub fn unexpected(kind: &TokenKind, tokens: &[Token]) -> Stop
    ensures { result ≡ Stop.At (machine.wrong kind.now) (length tokens.now) }
{
    fault(unexpected_code(kind), tokens)
}

/// The fault of a token that isn't allowed here, outside functions' bodies (R5).
pub fn unexpected_outside(tokens: &[Token]) -> Stop
    ensures { result ≡ Stop.At code.R5 (length tokens.now) }
{
    fault(ReadCode::R5, tokens)
}

/// The fault of a token that shows a form of C which is left out (R7).
pub fn left_out(tokens: &[Token]) -> Stop
    ensures { result ≡ Stop.At code.R7 (length tokens.now) }
{
    fault(ReadCode::R7, tokens)
}

/// The fault of a token that a limit forbids (R8).
pub fn past_limit(tokens: &[Token]) -> Stop
    ensures { result ≡ Stop.At code.R8 (length tokens.now) }
{
    fault(ReadCode::R8, tokens)
}

/// The fault with a code, at the first of these tokens.
pub fn fault(code: ReadCode, tokens: &[Token]) -> Stop
    ensures { result ≡ Stop.At code (length tokens.now) }
{
    Stop::At {
        code,
        left: tokens.len(),
    }
}

/// The code of a token that isn't allowed here, inside a function's body.
pub fn unexpected_code(kind: &TokenKind) -> ReadCode
    ensures { result ≡ machine.wrong kind.now }
{
    match kind {
        TokenKind::Word(Word::Const) => ReadCode::R7,
        _ => ReadCode::R5,
    }
}
