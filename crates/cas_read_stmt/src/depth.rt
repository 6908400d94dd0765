//! statements inside too many others.

ghost use Rattle.std.specs.Prelude.{◌≡◌, ℕ, List, Err, false};
ghost use Rattle.cas_base.specs.declared.place.Place.{Place};
ghost use Rattle.cas_syntax.specs.Reading.{within};
ghost use Rattle.cas_parse.specs.Frames.{Frame};
ghost use Rattle.cas_parse.specs.Machine as machine;
ghost use Rattle.cas_read_stmt.specs.FollowStmts.{starts_simple};

use cas_lex::{ReadCode, Sign, TokenKind, Word};
use cas_read_expr::stop::unexpected_code;

/// The code of a token where a statement would be inside too many others.
pub fn too_deep(kind: &TokenKind) -> ReadCode
    ensures { (n : ℕ) (st : List Frame) (p : Place)
        → machine.limited false (machine.started (within 0) false false n st p kind.now) ≡ Err result }
{
    match kind {
        TokenKind::Name(_)
        | TokenKind::Sign(
            Sign::Semicolon | Sign::OpenBrace | Sign::Star | Sign::PlusPlus | Sign::MinusMinus,
        )
        | TokenKind::Word(
            Word::If
            | Word::While
            | Word::Do
            | Word::For
            | Word::Break
            | Word::Continue
            | Word::Return
            | Word::Lock
            | Word::Unlock
            | Word::Print,
        ) => ReadCode::R8,
        _ => unexpected_code(kind),
    }
}

/// The code of a token where an assignment or a call would be inside too many statements.
pub fn too_deep_simple(kind: &TokenKind) -> ReadCode
    ensures { (st : List Frame) (p : Place) → machine.limited false
        (machine.simple_started (within 0) false false st p kind.now) ≡ Err result }
{
    match kind {
        TokenKind::Name(_) | TokenKind::Sign(Sign::Star | Sign::PlusPlus | Sign::MinusMinus) =>
            ReadCode::R8,
        _ => unexpected_code(kind),
    }
}

/// Whether a token begins an assignment or a call.
pub fn starts_simple(kind: &TokenKind) -> bool
    ensures { result ≡ starts_simple kind.now }
{
    matches!(
        kind,
        TokenKind::Name(_) | TokenKind::Sign(Sign::Star | Sign::PlusPlus | Sign::MinusMinus)
    )
}
