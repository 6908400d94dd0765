//! Statements in which there is no other.

ghost use Rattle.std.specs.Prelude.{◌≡◌, ◌≢◌, ◌<◌, ◌∷◌, length, List, IfOk, IfErr, true, false};
ghost use Rattle.cas_base.specs.declared.place.Place.{Place};
ghost use Rattle.cas_lex.specs.declared.token.Sign.TheVariants as sg;
ghost use Rattle.cas_syntax.specs.Reading.{within};
ghost use Rattle.cas_syntax.specs.Tree.{stmt_tree, expr_tree};
ghost use Rattle.cas_syntax.specs.Tree as tree;
ghost use Rattle.cas_read_expr.specs.declared.stop.Stop.TheVariants.{Memory};
ghost use Rattle.cas_parse.specs.Frames.{Frame, SimpleStmt, PrintValue, Given, Expect, WantOutermost, HaveStmt};
ghost use Rattle.cas_parse.specs.Frames.{LockName, UnlockName, AfterReturn};
ghost use Rattle.cas_parse.specs.Machine as machine;
ghost use Rattle.cas_read_expr.specs.Follow.{Follows, verdict};
ghost use Rattle.cas_read_stmt.specs.FollowStmts.{begins_simple};

use crate::simple::simple;
use cas_base::Place;
use cas_lex::{Sign, Token, TokenKind};
use cas_read_expr::expr::outermost;
use cas_read_expr::front::{behind, expect, ident};
use cas_read_expr::keep::followed;
use cas_read_expr::stop::{Stop, next_token, unexpected};
use cas_syntax::{Expr, Ident, Stmt, StmtForm};
use std::alloc::Global;

/// An assignment or a call, with its `;`.
#[tactic(auto, using(crate::proofs::StmtSteps::had_simple_stmt))]
pub fn simple_stmt(alloc: Global, tokens: &[Token]) -> Result<(Stmt, &[Token]), Stop>
    ensures follows { (st : List Frame) → Follows result (begins_simple tokens.now (SimpleStmt ∷ st))
        (λ p. verdict p.1.now (HaveStmt (stmt_tree p.0)) st) }
    ensures shorter { IfOk result (λ p. length p.1.now < length tokens.now) }
{
    let (stmt, rest) = simple(alloc, tokens)?;
    followed(stmt, rest, Sign::Semicolon)
}

/// A `(` and an expression.
pub fn opened(alloc: Global, tokens: &[Token]) -> Result<(Expr, usize, &[Token]), Stop>
    ensures follows { (st : List Frame) → Follows result
        (verdict tokens.now (Expect true sg.OpenParen WantOutermost) st)
        (λ p. verdict p.2.now (Given p.1 (expr_tree p.0)) st) }
    ensures shorter { IfOk result (λ p. length p.2.now < length tokens.now) }
{
    let rest = expect(tokens, Sign::OpenParen)?;
    outermost(alloc, rest)
}

/// A `print`, after its word.
#[tactic(auto, using(crate::proofs::StmtSteps::given_printed))]
pub fn print_stmt(alloc: Global, place: Place, tokens: &[Token]) -> Result<(Stmt, &[Token]), Stop>
    ensures follows { (st : List Frame) → Follows result
        (verdict tokens.now (Expect true sg.OpenParen WantOutermost) (PrintValue place ∷ st))
        (λ p. verdict p.1.now (HaveStmt (stmt_tree p.0)) st) }
    ensures shorter { IfOk result (λ p. length p.1.now < length tokens.now) }
{
    let (value, _, rest) = opened(alloc, tokens)?;
    let (value, rest) = followed(value, rest, Sign::CloseParen)?;
    let (value, rest) = followed(value, rest, Sign::Semicolon)?;
    let form = StmtForm::Print(value);
    Ok((Stmt { place, form }, rest))
}

/// A `return`, after its word.
#[tactic(auto, using(crate::proofs::StmtSteps::returns_value, crate::proofs::StmtSteps::given_returned))]
pub fn return_stmt(alloc: Global, place: Place, tokens: &[Token]) -> Result<(Stmt, &[Token]), Stop>
    ensures follows { (st : List Frame) → Follows result (verdict tokens.now (AfterReturn place) st)
        (λ p. verdict p.1.now (HaveStmt (stmt_tree p.0)) st) }
    ensures shorter { IfOk result (λ p. length p.1.now < length tokens.now) }
{
    if let Some(rest) = behind(tokens, Sign::Semicolon) {
        let form = StmtForm::Return(None);
        return Ok((Stmt { place, form }, rest));
    }
    let (value, _, rest) = outermost(alloc, tokens)?;
    let (value, rest) = followed(value, rest, Sign::Semicolon)?;
    let form = StmtForm::Return(Some(value));
    Ok((Stmt { place, form }, rest))
}

/// A `lock`, after its word.
pub fn lock_stmt(alloc: Global, place: Place, tokens: &[Token]) -> Result<(Stmt, &[Token]), Stop>
    ensures follows { (st : List Frame) → Follows result
        (verdict tokens.now (Expect true sg.OpenParen (LockName place)) st)
        (λ p. verdict p.1.now (HaveStmt (stmt_tree p.0)) st) }
    ensures shorter { IfOk result (λ p. length p.1.now < length tokens.now) }
{
    let rest = expect(tokens, Sign::OpenParen)?;
    let (name, rest) = lock_name(alloc, rest)?;
    let form = StmtForm::Lock(name);
    Ok((Stmt { place, form }, rest))
}

/// An `unlock`, after its word.
pub fn unlock_stmt(alloc: Global, place: Place, tokens: &[Token]) -> Result<(Stmt, &[Token]), Stop>
    ensures follows { (st : List Frame) → Follows result
        (verdict tokens.now (Expect true sg.OpenParen (UnlockName place)) st)
        (λ p. verdict p.1.now (HaveStmt (stmt_tree p.0)) st) }
    ensures shorter { IfOk result (λ p. length p.1.now < length tokens.now) }
{
    let rest = expect(tokens, Sign::OpenParen)?;
    let (name, rest) = lock_name(alloc, rest)?;
    let form = StmtForm::Unlock(name);
    Ok((Stmt { place, form }, rest))
}

// A lock's name, with its `)` and `;`.
fn lock_name(alloc: Global, tokens: &[Token]) -> Result<(Ident, &[Token]), Stop>
    ensures lock { (q : Place) (st : List Frame) → Follows result (verdict tokens.now (LockName q) st)
        (λ p. verdict p.1.now (HaveStmt (tree.lock q p.0)) st) }
    ensures unlock { (q : Place) (st : List Frame) → Follows result (verdict tokens.now (UnlockName q) st)
        (λ p. verdict p.1.now (HaveStmt (tree.unlock q p.0)) st) }
    ensures shorter { IfOk result (λ p. length p.1.now < length tokens.now) }
{
    let (token, rest) = next_token(tokens)?;
    let TokenKind::Name(name) = &token.kind else {
        return Err(unexpected(&token.kind, tokens));
    };
    let name = ident(alloc, name, token.place)?;
    let rest = expect(rest, Sign::CloseParen)?;
    let rest = expect(rest, Sign::Semicolon)?;
    Ok((name, rest))
}

/// A `break`, after its word.
pub fn break_stmt(place: Place, tokens: &[Token]) -> Result<(Stmt, &[Token]), Stop>
    ensures follows { (st : List Frame) → Follows result
        (verdict tokens.now (Expect true sg.Semicolon (HaveStmt (tree.break_ place))) st)
        (λ p. verdict p.1.now (HaveStmt (stmt_tree p.0)) st) }
    ensures shorter { IfOk result (λ p. length p.1.now < length tokens.now) }
    ensures faults { IfErr result (λ e. e ≢ Memory) }
{
    let rest = expect(tokens, Sign::Semicolon)?;
    let form = StmtForm::Break;
    Ok((Stmt { place, form }, rest))
}

/// A `continue`, after its word.
pub fn continue_stmt(place: Place, tokens: &[Token]) -> Result<(Stmt, &[Token]), Stop>
    ensures follows { (st : List Frame) → Follows result
        (verdict tokens.now (Expect true sg.Semicolon (HaveStmt (tree.continue_ place))) st)
        (λ p. verdict p.1.now (HaveStmt (stmt_tree p.0)) st) }
    ensures shorter { IfOk result (λ p. length p.1.now < length tokens.now) }
    ensures faults { IfErr result (λ e. e ≢ Memory) }
{
    let rest = expect(tokens, Sign::Semicolon)?;
    let form = StmtForm::Continue;
    Ok((Stmt { place, form }, rest))
}
