//! What is at the front of tokens.

ghost use Rattle.std.specs.Prelude.{◌≡◌, ◌≢◌, ◌<◌, ◌∷◌, length, List, IfOk, IfErr, IfSome, IfNone, true, false};
ghost use Rattle.cas_base.specs.declared.place.Place.{Place};
ghost use Rattle.cas_lex.specs.declared.token.Word.TheVariants as w;
ghost use Rattle.cas_syntax.specs.Tokens as spelled;
ghost use Rattle.cas_read_expr.specs.declared.stop.Stop.TheVariants.{Memory};
ghost use Rattle.cas_parse.specs.Frames.{Control, Frame, Expect};
ghost use Rattle.cas_parse.specs.Machine as machine;
ghost use Rattle.cas_read_expr.specs.Follow.{Follows, verdict, next_is, next_is_else, is_closing_brace};

use crate::stop::{Stop, next_token, unexpected, unexpected_outside};
use cas_base::{Name, Place};
use cas_lex::{Sign, Token, TokenKind, Word};
use cas_syntax::Ident;
use std::alloc::Global;

/// Another identifier with this name, at this place.
pub fn ident(alloc: Global, name: &Name, place: Place) -> Result<Ident, Stop>
    ensures value { IfOk result (λ x. x ≡ machine.at name.now place) }
    ensures memory { IfErr result (λ e. e ≡ Memory) }
{
    let name = name.copy(alloc)?;
    Ok(Ident { name, place })
}

/// The rest after a sign, inside a function's body.
pub fn expect(tokens: &[Token], sign: Sign) -> Result<&[Token], Stop>
    ensures follows { (c : Control) (st : List Frame) → Follows result (verdict tokens.now (Expect true sign c) st)
        (λ rest. verdict rest.now c st) }
    ensures shorter { IfOk result (λ rest. length rest.now < length tokens.now) }
    ensures faults { IfErr result (λ e. e ≢ Memory) }
{
    let (token, rest) = next_token(tokens)?;
    if is_expected(sign, &token.kind) {
        Ok(rest)
    } else {
        Err(unexpected(&token.kind, tokens))
    }
}

/// The rest after a sign, outside functions' bodies.
pub fn expect_outside(tokens: &[Token], sign: Sign) -> Result<&[Token], Stop>
    ensures follows { (c : Control) (st : List Frame) → Follows result (verdict tokens.now (Expect false sign c) st)
        (λ rest. verdict rest.now c st) }
    ensures shorter { IfOk result (λ rest. length rest.now < length tokens.now) }
    ensures faults { IfErr result (λ e. e ≢ Memory) }
{
    let (token, rest) = next_token(tokens)?;
    if is_expected(sign, &token.kind) {
        Ok(rest)
    } else {
        Err(unexpected_outside(tokens))
    }
}

/// The rest after a sign, if it comes next.
pub fn behind(tokens: &[Token], sign: Sign) -> Option<&[Token]>
    ensures some { IfSome result (λ rest. (p : Place) × (tokens.now ≡ spelled.sign sign p ∷ rest.now)) }
    ensures none { IfNone result (next_is sign tokens.now ≡ false) }
{
    let (token, rest) = tokens.split_first()?;
    if is_expected(sign, &token.kind) {
        Some(rest)
    } else {
        None
    }
}

/// Whether a token is this sign, which is one of those that are expected somewhere.
pub fn is_expected(sign: Sign, kind: &TokenKind) -> bool
    ensures { result ≡ machine.is sign kind.now }
{
    match (sign, kind) {
        (Sign::Semicolon, TokenKind::Sign(Sign::Semicolon))
        | (Sign::OpenParen, TokenKind::Sign(Sign::OpenParen))
        | (Sign::CloseParen, TokenKind::Sign(Sign::CloseParen))
        | (Sign::CloseBracket, TokenKind::Sign(Sign::CloseBracket))
        | (Sign::OpenBrace, TokenKind::Sign(Sign::OpenBrace))
        | (Sign::Colon, TokenKind::Sign(Sign::Colon)) => true,
        _ => false,
    }
}

/// Whether a token is `}`.
pub fn closes_block(kind: &TokenKind) -> bool
    ensures { result ≡ is_closing_brace kind.now }
{
    matches!(kind, TokenKind::Sign(Sign::CloseBrace))
}

/// The rest after `else`, if it comes next.
pub fn behind_else(tokens: &[Token]) -> Option<&[Token]>
    ensures some { IfSome result (λ rest. (p : Place) × (tokens.now ≡ spelled.word w.Else p ∷ rest.now)) }
    ensures none { IfNone result (next_is_else tokens.now ≡ false) }
{
    let (token, rest) = tokens.split_first()?;
    match token.kind {
        TokenKind::Word(Word::Else) => Some(rest),
        _ => None,
    }
}
