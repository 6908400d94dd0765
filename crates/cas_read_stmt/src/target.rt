//! What assignments write.

ghost use Rattle.std.specs.Prelude.{◌≡◌, ◌<◌, ◌∷◌, length, List, IfOk};
ghost use Rattle.cas_syntax.specs.Tree.{target_tree};
ghost use Rattle.cas_parse.specs.Frames.{Frame, Use, WantOutermost, AfterStar, TargetIndex};
ghost use Rattle.cas_read_expr.specs.Follow.{Follows, verdict};
ghost use Rattle.cas_read_stmt.specs.FollowStmts.{reaches};

use cas_lex::{Sign, Token, TokenKind};
use cas_read_expr::expr::outermost;
use cas_read_expr::front::ident;
use cas_read_expr::keep::followed;
use cas_read_expr::stop::{Stop, next_token, unexpected};
use cas_syntax::{Expr, Ident, LValue};
use std::alloc::Global;

/// What is pointed to, after `*`.
#[tactic(auto, using(crate::proofs::Steps::given_target_behind))]
pub fn pointed_to(alloc: Global, tokens: &[Token]) -> Result<(LValue, &[Token]), Stop>
    ensures follows { (usage : Use) (st : List Frame) → Follows result (verdict tokens.now (AfterStar usage) st)
        (λ p. reaches p.1.now usage (target_tree p.0) st) }
    ensures shorter { IfOk result (λ p. length p.1.now < length tokens.now) }
{
    let (token, rest) = next_token(tokens)?;
    match &token.kind {
        TokenKind::Name(name) => {
            let name = ident(alloc, name, token.place)?;
            Ok((LValue::Deref(Expr::Name(name)), rest))
        }
        TokenKind::Sign(Sign::OpenParen) => {
            let (pointer, _, rest) = outermost(alloc, rest)?;
            let (pointer, rest) = followed(pointer, rest, Sign::CloseParen)?;
            Ok((LValue::Deref(pointer), rest))
        }
        _ => Err(unexpected(&token.kind, tokens)),
    }
}

/// An element, after `[`.
#[tactic(auto, using(crate::proofs::Steps::given_target_index))]
pub fn element(alloc: Global, name: Ident, tokens: &[Token]) -> Result<(LValue, &[Token]), Stop>
    ensures follows { (usage : Use) (st : List Frame) → Follows result
        (verdict tokens.now WantOutermost (TargetIndex usage name ∷ st))
        (λ p. reaches p.1.now usage (target_tree p.0) st) }
    ensures shorter { IfOk result (λ p. length p.1.now < length tokens.now) }
{
    let (index, _, rest) = outermost(alloc, tokens)?;
    let (index, rest) = followed(index, rest, Sign::CloseBracket)?;
    Ok((LValue::Index(name, index), rest))
}
