//! The words of kinds. If they are in an outermost expression, they count among its tokens.

ghost use Rattle.std.specs.Prelude.{◌≡◌, ◌≢◌, ◌<◌, ◌≤◌, length, List, IfOk, IfErr, Ok, false};
ghost use Rattle.cas_read_expr.specs.declared.stop.Stop.TheVariants.{Memory};
ghost use Rattle.cas_parse.specs.Frames.{Control, Frame, WantKind, HaveKind, MayEndInt, Signed, Unsigned};
ghost use Rattle.cas_parse.specs.Machine as machine;
ghost use Rattle.cas_syntax.specs.Reading.{within};
ghost use Rattle.cas_read_expr.specs.Follow.{Follows, taken, verdict, next_begins_kind, are_counted};

use crate::limit::count;
use crate::stop::{Stop, next_token, unexpected_outside};
use cas_base::Kind;
use cas_lex::{Token, TokenKind, Word};

/// Whether a token begins the words of a kind.
pub fn begins_kind(kind: &TokenKind) -> bool
    ensures { result ≡ machine.begins_kind kind.now }
{
    matches!(
        kind,
        TokenKind::Word(Word::Char | Word::Short | Word::Int | Word::Unsigned | Word::Signed)
    )
}

/// Whether the first token begins the words of a kind.
pub fn begins_kind_at(tokens: &[Token]) -> bool
    ensures { result ≡ next_begins_kind tokens.now }
{
    match tokens.split_first() {
        Some((token, _)) => begins_kind(&token.kind),
        None => false,
    }
}

/// The kind whose words come next, the tokens that the expression then has, and the rest after the words.
pub fn kind(tokens: &[Token], used: Option<usize>) -> Result<(Kind, Option<usize>, &[Token]), Stop>
    ensures follows { (st : List Frame) → Follows result (verdict tokens.now (WantKind used) st)
        (λ p. verdict p.2.now (HaveKind p.1 p.0) st) }
    ensures counts { IfOk result (λ p. are_counted p.1 ≡ are_counted used) }
    ensures shorter { IfOk result (λ p. length p.2.now < length tokens.now) }
    ensures faults { IfErr result (λ e. e ≢ Memory) }
{
    let (token, rest) = next_token(tokens)?;
    match token.kind {
        TokenKind::Word(Word::Char) => Ok((Kind::I8, count_word(used, rest)?, rest)),
        TokenKind::Word(Word::Short) => may_end_int(rest, count_word(used, rest)?, Kind::I16),
        TokenKind::Word(Word::Int) => Ok((Kind::I32, count_word(used, rest)?, rest)),
        TokenKind::Word(Word::Signed) => signed(rest, count_word(used, rest)?),
        TokenKind::Word(Word::Unsigned) => unsigned(rest, count_word(used, rest)?),
        _ => Err(unexpected_outside(tokens)),
    }
}

// The kind after `signed`.
fn signed(tokens: &[Token], used: Option<usize>) -> Result<(Kind, Option<usize>, &[Token]), Stop>
    ensures follows { (st : List Frame) → Follows result (verdict tokens.now (Signed used) st)
        (λ p. verdict p.2.now (HaveKind p.1 p.0) st) }
    ensures counts { IfOk result (λ p. are_counted p.1 ≡ are_counted used) }
    ensures no_longer { IfOk result (λ p. length p.2.now ≤ length tokens.now) }
    ensures faults { IfErr result (λ e. e ≢ Memory) }
{
    let Some((token, rest)) = tokens.split_first() else {
        return Ok((Kind::I32, used, tokens));
    };
    match token.kind {
        TokenKind::Word(Word::Char) => Ok((Kind::I8, count_word(used, rest)?, rest)),
        TokenKind::Word(Word::Short) => may_end_int(rest, count_word(used, rest)?, Kind::I16),
        TokenKind::Word(Word::Int) => Ok((Kind::I32, count_word(used, rest)?, rest)),
        _ => Ok((Kind::I32, used, tokens)),
    }
}

// The kind after `unsigned`.
fn unsigned(tokens: &[Token], used: Option<usize>) -> Result<(Kind, Option<usize>, &[Token]), Stop>
    ensures follows { (st : List Frame) → Follows result (verdict tokens.now (Unsigned used) st)
        (λ p. verdict p.2.now (HaveKind p.1 p.0) st) }
    ensures counts { IfOk result (λ p. are_counted p.1 ≡ are_counted used) }
    ensures no_longer { IfOk result (λ p. length p.2.now ≤ length tokens.now) }
    ensures faults { IfErr result (λ e. e ≢ Memory) }
{
    let Some((token, rest)) = tokens.split_first() else {
        return Ok((Kind::U32, used, tokens));
    };
    match token.kind {
        TokenKind::Word(Word::Char) => Ok((Kind::U8, count_word(used, rest)?, rest)),
        TokenKind::Word(Word::Short) => may_end_int(rest, count_word(used, rest)?, Kind::U16),
        TokenKind::Word(Word::Int) => Ok((Kind::U32, count_word(used, rest)?, rest)),
        _ => Ok((Kind::U32, used, tokens)),
    }
}

// This kind, after whose words so far `int` may stand.
fn may_end_int(
    tokens: &[Token],
    used: Option<usize>,
    kind: Kind,
) -> Result<(Kind, Option<usize>, &[Token]), Stop>
    ensures follows { (st : List Frame) → Follows result (verdict tokens.now (MayEndInt used kind) st)
        (λ p. verdict p.2.now (HaveKind p.1 p.0) st) }
    ensures counts { IfOk result (λ p. are_counted p.1 ≡ are_counted used) }
    ensures no_longer { IfOk result (λ p. length p.2.now ≤ length tokens.now) }
    ensures faults { IfErr result (λ e. e ≢ Memory) }
{
    let Some((token, rest)) = tokens.split_first() else {
        return Ok((kind, used, tokens));
    };
    match token.kind {
        TokenKind::Word(Word::Int) => Ok((kind, count_word(used, rest)?, rest)),
        _ => Ok((kind, used, tokens)),
    }
}

// Counts a word if words are counted; these tokens follow it.
fn count_word(used: Option<usize>, rest: &[Token]) -> Result<Option<usize>, Stop>
    ensures follows { (c : Control) (st : List Frame) → Follows result
        (taken rest.now (machine.counted_in (within 0) false false used (Ok (c, st)))) (λ _. verdict rest.now c st) }
    ensures value { IfOk result (λ after. after ≡ machine.next used) }
    ensures faults { IfErr result (λ e. e ≢ Memory) }
{
    match used {
        Some(used) => {
            count(used, rest)?;
            Ok(Some(used + 1))
        }
        None => Ok(None),
    }
}
