//! The parts of a `for` before its body, and what follows the body of a `do`.

ghost use Rattle.std.specs.Prelude.{◌≡◌, ◌<◌, ◌≤◌, ◌+◌, ◌∷◌, ℕ, length, List, IfOk, Option, true};
ghost use Rattle.cas_base.specs.declared.place.Place.{Place};
ghost use Rattle.cas_syntax.specs.Tree.{ExprTree, StmtTree, StmtOption, present, stmt_tree, expr_tree, optional_tree};
ghost use Rattle.cas_syntax.specs.Tree.{do_};
ghost use Rattle.cas_parse.specs.Frames.{Frame, DoBody, HaveStmt, WantStmt, ForFirst, ForSecond, ForThird, ForBody};
ghost use Rattle.cas_parse.specs.Frames.{FirstKind, HaveSimple};
ghost use Rattle.cas_read_expr.specs.Follow.{Follows, verdict, next_begins_kind};
ghost use Rattle.cas_read_stmt.specs.FollowStmts.{boxed_tree, nests_kind, nests_simple};

use crate::depth::too_deep_simple;
use crate::local::local;
use crate::parts::boxed;
use crate::plain::opened;
use crate::simple::simple;
use cas_lex::{Sign, Token, TokenKind, Word};
use cas_read_expr::expr::outermost;
use cas_read_expr::front::behind;
use cas_read_expr::keep::followed;
use cas_read_expr::kind::{begins_kind_at, kind};
use cas_read_expr::stop::{Stop, fault, next_token, past_limit, unexpected};
use cas_syntax::{DEPTH_LIMIT, Expr, Stmt};
use std::alloc::Global;

/// The condition after the body of a `do`, with its `;`.
#[tactic(auto, using(crate::proofs::StmtSteps::given_done))]
pub fn do_end(alloc: Global, tokens: &[Token]) -> Result<(Expr, &[Token]), Stop>
    ensures follows { (q : Place) (a : StmtTree) (st : List Frame)
        → Follows result (verdict tokens.now (HaveStmt a) (DoBody q ∷ st))
        (λ p. verdict p.1.now (HaveStmt (do_ q a (expr_tree p.0))) st) }
    ensures shorter { IfOk result (λ p. length p.1.now < length tokens.now) }
{
    let (token, rest) = next_token(tokens)?;
    let TokenKind::Word(Word::While) = token.kind else {
        return Err(unexpected(&token.kind, tokens));
    };
    let (condition, _, rest) = opened(alloc, rest)?;
    let (condition, rest) = followed(condition, rest, Sign::CloseParen)?;
    followed(condition, rest, Sign::Semicolon)
}

/// What a `for` does first, with its `;`. The `for` is inside so many statements.
#[tactic(auto, using(crate::proofs::StmtSteps::first_local, crate::proofs::StmtSteps::first_simple, crate::proofs::StmtSteps::had_first_simple))]
pub fn first(
    alloc: Global,
    tokens: &[Token],
    around: usize,
) -> Result<(Option<Box<Stmt>>, &[Token]), Stop>
    requires { around < DEPTH_LIMIT }
    ensures follows { (q : Place) (st : List Frame) → Follows result (verdict tokens.now (ForFirst around q) st)
        (λ p. verdict p.1.now (ForSecond around q (boxed_tree p.0)) st) }
    ensures shorter { IfOk result (λ p. length p.1.now < length tokens.now) }
{
    if let Some(rest) = behind(tokens, Sign::Semicolon) {
        return Ok((None, rest));
    }
    if begins_kind_at(tokens) {
        let (local, rest) = first_local(alloc, tokens, around + 1)?;
        return Ok((Some(local), rest));
    }
    let (simple, rest) = simple_in(alloc, tokens, around + 1)?;
    let (simple, rest) = followed(simple, rest, Sign::Semicolon)?;
    Ok((Some(simple), rest))
}

// A local inside so many statements, with its `;`.
#[tactic(auto, using(crate::proofs::StmtSteps::nests_kind_within, crate::proofs::StmtSteps::nests_kind_too_deep, crate::proofs::StmtSteps::had_first_kind, crate::proofs::StmtSteps::had_first_local))]
fn first_local(
    alloc: Global,
    tokens: &[Token],
    around: usize,
) -> Result<(Box<Stmt>, &[Token]), Stop>
    requires { next_begins_kind tokens.now ≡ true }
    ensures follows { (n : ℕ) (q : Place) (st : List Frame)
        → Follows result (nests_kind tokens.now around (FirstKind n q ∷ st))
        (λ p. verdict p.1.now (ForSecond n q (present (stmt_tree p.0.value))) st) }
    ensures shorter { IfOk result (λ p. length p.1.now < length tokens.now) }
{
    if around >= DEPTH_LIMIT {
        return Err(past_limit(tokens));
    }
    let (kind, _, rest) = kind(tokens, None)?;
    let (local, rest) = local(alloc, kind, rest)?;
    followed(boxed(alloc, local)?, rest, Sign::Semicolon)
}

// An assignment or a call inside so many statements.
#[tactic(auto, using(crate::proofs::StmtSteps::nests_simple_within))]
fn simple_in(alloc: Global, tokens: &[Token], around: usize) -> Result<(Box<Stmt>, &[Token]), Stop>
    ensures follows { (st : List Frame) → Follows result (nests_simple tokens.now around st)
        (λ p. verdict p.1.now (HaveSimple (stmt_tree p.0.value)) st) }
    ensures shorter { IfOk result (λ p. length p.1.now < length tokens.now) }
{
    let (token, _) = next_token(tokens)?;
    if around < DEPTH_LIMIT {
        let (simple, rest) = simple(alloc, tokens)?;
        Ok((boxed(alloc, simple)?, rest))
    } else {
        Err(fault(too_deep_simple(&token.kind), tokens))
    }
}

/// The condition of a `for`, with its `;`.
#[tactic(auto, using(crate::proofs::StmtSteps::second_value, crate::proofs::StmtSteps::given_second))]
pub fn second(alloc: Global, tokens: &[Token]) -> Result<(Option<Expr>, &[Token]), Stop>
    ensures follows { (n : ℕ) (q : Place) (i : StmtOption) (st : List Frame)
        → Follows result (verdict tokens.now (ForSecond n q i) st)
        (λ p. verdict p.1.now (ForThird n q i (optional_tree p.0)) st) }
    ensures shorter { IfOk result (λ p. length p.1.now < length tokens.now) }
{
    if let Some(rest) = behind(tokens, Sign::Semicolon) {
        return Ok((None, rest));
    }
    let (condition, _, rest) = outermost(alloc, tokens)?;
    let (condition, rest) = followed(condition, rest, Sign::Semicolon)?;
    Ok((Some(condition), rest))
}

/// What a `for` does after each turn, with its `)`. The `for` is inside so many statements.
#[tactic(auto, using(crate::proofs::StmtSteps::third_simple, crate::proofs::StmtSteps::had_third))]
pub fn third(
    alloc: Global,
    tokens: &[Token],
    around: usize,
) -> Result<(Option<Box<Stmt>>, &[Token]), Stop>
    requires { around < DEPTH_LIMIT }
    ensures follows { (q : Place) (i : StmtOption) (c : Option ExprTree) (st : List Frame)
        → Follows result (verdict tokens.now (ForThird around q i c) st)
        (λ p. verdict p.1.now (WantStmt (around + 1)) (ForBody q i c (boxed_tree p.0) ∷ st)) }
    ensures shorter { IfOk result (λ p. length p.1.now < length tokens.now) }
{
    if let Some(rest) = behind(tokens, Sign::CloseParen) {
        return Ok((None, rest));
    }
    let (simple, rest) = simple_in(alloc, tokens, around + 1)?;
    let (simple, rest) = followed(simple, rest, Sign::CloseParen)?;
    Ok((Some(simple), rest))
}
