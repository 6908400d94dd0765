//! Calls, and values that may be calls.

ghost use Rattle.std.specs.Prelude.{◌≡◌, ◌<◌, ◌∷◌, [], length, map, List, IfOk, IfErr, IfSome, IfNone, false};
ghost use Rattle.cas_base.specs.declared.place.Place.{Place};
ghost use Rattle.cas_lex.specs.declared.token.Sign.TheVariants as sg;
ghost use Rattle.cas_syntax.specs.Tokens.{begins_call, ident, sign};
ghost use Rattle.cas_syntax.specs.Tree.{expr_tree};
ghost use Rattle.cas_read_expr.specs.declared.stop.Stop.TheVariants.{Memory};
ghost use Rattle.cas_parse.specs.Frames.{Frame, Caller, Keeps, Receiver, WantOutermost, WantValue, WantArguments};
ghost use Rattle.cas_parse.specs.Frames.{Argument};
ghost use Rattle.cas_parse.specs.Machine.{resulted};
ghost use Rattle.cas_read_expr.specs.Follow.{Follows, verdict, has_value};

use crate::expr::outermost;
use crate::front::ident;
use crate::stop::{Stop, next_token, unexpected};
use cas_base::Seq;
use cas_lex::{Sign, Token, TokenKind};
use cas_syntax::{Expr, Ident};
use std::alloc::Global;

/// What a variable begins with or is given.
#[derive(Debug, Drop)]
pub enum Value {
    Expr(Expr),
    /// What this function returns for these arguments.
    Call(Ident, Seq<Expr>),
}

/// What a variable begins with or is given, after `=`.
#[tactic(auto, using(crate::proofs::Steps::wants_no_call, crate::proofs::Steps::given_value))]
pub fn value_at(alloc: Global, tokens: &[Token]) -> Result<(Value, &[Token]), Stop>
    ensures follows { (r : Receiver) (st : List Frame) → Follows result (verdict tokens.now (WantValue r) st)
        (λ p. has_value p.1.now r p.0 st) }
    ensures shorter { IfOk result (λ p. length p.1.now < length tokens.now) }
{
    match call_at(alloc, tokens)? {
        Some((function, rest)) => {
            let (arguments, rest) = arguments(alloc, rest)?;
            Ok((Value::Call(function, arguments), rest))
        }
        None => {
            let (value, _, rest) = outermost(alloc, tokens)?;
            Ok((Value::Expr(value), rest))
        }
    }
}

// The function's name of a call that comes next, and the rest after its `(`.
fn call_at(alloc: Global, tokens: &[Token]) -> Result<Option<(Ident, &[Token])>, Stop>
    ensures some { IfOk result (λ found. IfSome found
        (λ p. (o : Place) × (tokens.now ≡ ident p.0 ∷ sign sg.OpenParen o ∷ p.1.now))) }
    ensures none { IfOk result (λ found. IfNone found (begins_call tokens.now ≡ false)) }
    ensures memory { IfErr result (λ e. e ≡ Memory) }
{
    let Some((token, rest)) = tokens.split_first() else {
        return Ok(None);
    };
    let Some((next, rest)) = rest.split_first() else {
        return Ok(None);
    };
    match (&token.kind, &next.kind) {
        (TokenKind::Name(name), TokenKind::Sign(Sign::OpenParen)) => {
            Ok(Some((ident(alloc, name, token.place)?, rest)))
        }
        _ => Ok(None),
    }
}

/// The arguments of a call, after `(`, and the rest after `)`.
pub fn arguments(alloc: Global, tokens: &[Token]) -> Result<(Seq<Expr>, &[Token]), Stop>
    ensures follows { (caller : Caller) (st : List Frame)
        → Follows result (verdict tokens.now (WantArguments caller) st)
        (λ p. verdict p.1.now (resulted caller (map expr_tree p.0)) st) }
    ensures shorter { IfOk result (λ p. length p.1.now < length tokens.now) }
{
    match tokens.split_first() {
        Some(
            (
                Token {
                    kind: TokenKind::Sign(Sign::CloseParen),
                    ..
                },
                rest,
            ),
        ) => Ok((Seq::of(Vec::new(alloc)), rest)),
        _ => some_arguments(alloc, tokens),
    }
}

// Arguments of a call, one or more, and the rest after `)`.
#[tactic(auto, using(crate::proofs::Steps::given_argument, crate::proofs::Trees::exprs_push))]
fn some_arguments(alloc: Global, tokens: &[Token]) -> Result<(Seq<Expr>, &[Token]), Stop>
    ensures follows { (caller : Caller) (st : List Frame)
        → Follows result (verdict tokens.now WantOutermost (Argument caller [] ∷ st))
        (λ p. verdict p.1.now (resulted caller (map expr_tree p.0)) st) }
    ensures shorter { IfOk result (λ p. length p.1.now < length tokens.now) }
{
    let mut all = Vec::new(alloc);
    let mut rest = tokens;
    loop {
        let (next, _, after) = outermost(alloc, rest)?;
        all.push(next)?;
        let (token, behind) = next_token(after)?;
        match token.kind {
            TokenKind::Sign(Sign::Comma) => rest = behind,
            TokenKind::Sign(Sign::CloseParen) => {
                all.shrink_to_fit();
                return Ok((Seq::of(all), behind));
            }
            _ => return Err(unexpected(&token.kind, after)),
        }
    }
}
