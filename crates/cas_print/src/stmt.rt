//! Statements.

ghost use Rattle.std.specs.Prelude.{◌≡◌, IfOk, List};
ghost use Rattle.cas_syntax.specs.Alike.{nowhere};
ghost use Rattle.cas_syntax.specs.Tree as tree;
ghost use Rattle.cas_syntax.specs.Tree.{expr_tree, optional_tree, stmt_tree, stmt_trees};
ghost use Rattle.cas_print.specs.Page.{followed_by};
ghost use Rattle.cas_print.specs.Pieces.{Piece};
ghost use Rattle.cas_print.specs.Expressions as expressions;
ghost use Rattle.cas_print.specs.Statements as spec;

use crate::expr::expr;
use crate::page::Page;
use crate::part::{in_parentheses, part};
use cas_base::NoMemory;
use cas_lex::{Sign, Word};
use cas_syntax::{Expr, Ident, Stmt, StmtForm};

/// Writes a statement.
#[cycle(stmt)]
pub fn stmt(page: &mut Page, stmt: &Stmt) -> Result<(), NoMemory>
    ensures { (rest : List Piece)
        → IfOk result (λ _. followed_by page.new rest
        ≡ followed_by page.old (spec.printed_stmt (stmt_tree stmt.now) rest)) }
{
    match &stmt.form {
        StmtForm::Skip => page.end_of_line(Sign::Semicolon),
        StmtForm::Declare(_, _, _) => simple(page, stmt),
        StmtForm::Assign(_, _, _) => simple(page, stmt),
        StmtForm::Call(_, _, _) => simple(page, stmt),
        StmtForm::Block(inner) => block(page, inner),
        StmtForm::If(condition, first, second) => {
            word_and(page, Word::If, condition)?;
            self::stmt(page, first)?;
            match second {
                None => Ok(()),
                Some(second) => otherwise(page, second),
            }
        }
        StmtForm::While(condition, body) => while_loop(page, body, condition),
        StmtForm::Do(body, condition) => do_loop(page, body, condition),
        StmtForm::For(first, condition, after, body) => {
            for_head(page, first, condition, after)?;
            self::stmt(page, body)
        }
        StmtForm::Break => word_alone(page, Word::Break),
        StmtForm::Continue => word_alone(page, Word::Continue),
        StmtForm::Return(value) => returned(page, value),
        StmtForm::Lock(x) => of_lock(page, Word::Lock, x),
        StmtForm::Unlock(x) => of_lock(page, Word::Unlock, x),
        StmtForm::Print(value) => print(page, value),
    }
}

/// Writes statements, one after another.
#[cycle(stmt)]
pub fn stmts(page: &mut Page, stmts: &[Stmt]) -> Result<(), NoMemory>
    ensures { (rest : List Piece)
        → IfOk result (λ _. followed_by page.new rest
        ≡ followed_by page.old (spec.printed_stmts (stmt_trees stmts.now) rest)) }
{
    for inner in stmts {
        stmt(page, inner)?;
    }
    Ok(())
}

// Writes a block.
#[cycle(stmt)]
fn block(page: &mut Page, inner: &[Stmt]) -> Result<(), NoMemory>
    ensures { (rest : List Piece)
        → IfOk result (λ _. followed_by page.new rest
        ≡ followed_by page.old (spec.printed_stmt (tree.block nowhere (stmt_trees inner.now)) rest)) }
{
    page.end_of_line(Sign::OpenBrace)?;
    stmts(page, inner)?;
    page.end_of_line(Sign::CloseBrace)
}

// Writes the second branch of an `if`.
#[cycle(stmt)]
fn otherwise(page: &mut Page, branch: &Stmt) -> Result<(), NoMemory>
    ensures { (rest : List Piece)
        → IfOk result (λ _. followed_by page.new rest
        ≡ followed_by page.old (spec.printed_else (tree.present (stmt_tree branch.now)) rest)) }
{
    page.word(Word::Else)?;
    stmt(page, branch)
}

// Writes a `while`.
#[cycle(stmt)]
fn while_loop(page: &mut Page, body: &Stmt, condition: &Expr) -> Result<(), NoMemory>
    ensures { (rest : List Piece)
        → IfOk result (λ _. followed_by page.new rest
        ≡ followed_by page.old
        (spec.printed_stmt (tree.while_ nowhere (expr_tree condition.now) (stmt_tree body.now)) rest)) }
{
    word_and(page, Word::While, condition)?;
    stmt(page, body)
}

// Writes a `do`.
#[cycle(stmt)]
fn do_loop(page: &mut Page, body: &Stmt, condition: &Expr) -> Result<(), NoMemory>
    ensures { (rest : List Piece)
        → IfOk result (λ _. followed_by page.new rest
        ≡ followed_by page.old
        (spec.printed_stmt (tree.do_ nowhere (stmt_tree body.now) (expr_tree condition.now)) rest)) }
{
    page.word(Word::Do)?;
    stmt(page, body)?;
    word_and(page, Word::While, condition)?;
    page.end_of_line(Sign::Semicolon)
}

// Writes a `for` up to its body.
fn for_head(
    page: &mut Page,
    first: &Option<Box<Stmt>>,
    condition: &Option<Expr>,
    after: &Option<Box<Stmt>>,
) -> Result<(), NoMemory>
    ensures { (rest : List Piece)
        → IfOk result (λ _. followed_by page.new rest
        ≡ followed_by page.old
        (spec.for_head (spec.boxed_tree first.now) (optional_tree condition.now) (spec.boxed_tree after.now) rest)) }
{
    page.word(Word::For)?;
    page.sign(Sign::OpenParen)?;
    optional_part(page, first)?;
    page.sign(Sign::Semicolon)?;
    optional(page, condition)?;
    page.sign(Sign::Semicolon)?;
    optional_part(page, after)?;
    page.sign(Sign::CloseParen)
}

// Writes the first or the last part of a `for`, or nothing.
fn optional_part(page: &mut Page, optional: &Option<Box<Stmt>>) -> Result<(), NoMemory>
    ensures { (rest : List Piece)
        → IfOk result (λ _. followed_by page.new rest
        ≡ followed_by page.old (spec.printed_part_option (spec.boxed_tree optional.now) rest)) }
{
    match optional {
        None => Ok(()),
        Some(inner) => part(page, inner),
    }
}

// Writes a `return`.
fn returned(page: &mut Page, value: &Option<Expr>) -> Result<(), NoMemory>
    ensures { (rest : List Piece)
        → IfOk result (λ _. followed_by page.new rest
        ≡ followed_by page.old (spec.printed_stmt (tree.return_ nowhere (optional_tree value.now)) rest)) }
{
    page.word(Word::Return)?;
    optional(page, value)?;
    page.end_of_line(Sign::Semicolon)
}

// Writes a `print`.
fn print(page: &mut Page, value: &Expr) -> Result<(), NoMemory>
    ensures { (rest : List Piece)
        → IfOk result (λ _. followed_by page.new rest
        ≡ followed_by page.old (spec.printed_stmt (tree.print nowhere (expr_tree value.now)) rest)) }
{
    word_and(page, Word::Print, value)?;
    page.end_of_line(Sign::Semicolon)
}

// Writes a local, an assignment or a call.
fn simple(page: &mut Page, simple: &Stmt) -> Result<(), NoMemory>
    ensures { (rest : List Piece)
        → IfOk result (λ _. followed_by page.new rest
        ≡ followed_by page.old (spec.simple (stmt_tree simple.now) rest)) }
{
    part(page, simple)?;
    page.end_of_line(Sign::Semicolon)
}

// Writes a word, and an expression in parentheses.
fn word_and(page: &mut Page, word: Word, inner: &Expr) -> Result<(), NoMemory>
    ensures { (rest : List Piece)
        → IfOk result (λ _. followed_by page.new rest
        ≡ followed_by page.old (spec.word_and word (expr_tree inner.now) rest)) }
{
    page.word(word)?;
    in_parentheses(page, inner)
}

// Writes an expression, or nothing.
fn optional(page: &mut Page, value: &Option<Expr>) -> Result<(), NoMemory>
    ensures { (rest : List Piece)
        → IfOk result (λ _. followed_by page.new rest
        ≡ followed_by page.old (spec.printed_optional (optional_tree value.now) rest)) }
{
    match value {
        None => Ok(()),
        Some(value) => expr(page, value),
    }
}

// Writes a statement that is a word alone.
fn word_alone(page: &mut Page, word: Word) -> Result<(), NoMemory>
    ensures { (rest : List Piece)
        → IfOk result (λ _. followed_by page.new rest ≡ followed_by page.old (spec.word_alone word rest)) }
{
    page.word(word)?;
    page.end_of_line(Sign::Semicolon)
}

// Writes a statement of this word on a lock.
fn of_lock(page: &mut Page, word: Word, lock: &Ident) -> Result<(), NoMemory>
    ensures { (rest : List Piece)
        → IfOk result (λ _. followed_by page.new rest ≡ followed_by page.old (spec.of_lock word lock.now rest)) }
{
    page.word(word)?;
    page.sign(Sign::OpenParen)?;
    page.name(&lock.name)?;
    page.sign(Sign::CloseParen)?;
    page.end_of_line(Sign::Semicolon)
}
