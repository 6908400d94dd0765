//! The parts of statements: targets, calls, locals and assignments.

ghost use Rattle.std.specs.Prelude.{◌≡◌, IfOk, List, Some, map};
ghost use Rattle.cas_syntax.specs.Tree.{expr_tree, init_tree, optional_tree, target_tree, stmt_tree};
ghost use Rattle.cas_print.specs.Page.{followed_by};
ghost use Rattle.cas_print.specs.Pieces.{Piece};
ghost use Rattle.cas_print.specs.Expressions.{listed, printed_expr, enclosed};
ghost use Rattle.cas_print.specs.Statements as spec;

use crate::expr::{expr, in_brackets, kind};
use crate::page::Page;
use cas_base::{NoMemory, Ty};
use cas_lex::{Sign, Word};
use cas_syntax::{BinaryOperator, Expr, Ident, Init, LValue, Stmt, StmtForm};

/// Writes a local, an assignment or a call without its semicolon.
pub fn part(page: &mut Page, part: &Stmt) -> Result<(), NoMemory>
    ensures { (rest : List Piece)
        → IfOk result (λ _. followed_by page.new rest
        ≡ followed_by page.old (spec.printed_part (stmt_tree part.now) rest)) }
{
    match &part.form {
        StmtForm::Declare(ty, x, begin) => {
            before_name(page, *ty)?;
            page.name(&x.name)?;
            behind_name(page, *ty)?;
            init(page, begin)
        }
        StmtForm::Assign(left, operator, right) => {
            target(page, left)?;
            page.sign(assignment_sign(*operator))?;
            expr(page, right)
        }
        StmtForm::Call(kept, f, arguments) => {
            result_of(page, kept)?;
            call(page, f, arguments.as_slice())
        }
        _ => Ok(()),
    }
}

/// Writes what of a type comes before the name that has it.
pub fn before_name(page: &mut Page, ty: Ty) -> Result<(), NoMemory>
    ensures { (rest : List Piece)
        → IfOk result (λ _. followed_by page.new rest ≡ followed_by page.old (spec.before_name ty rest)) }
{
    match ty {
        Ty::Void => page.word(Word::Void),
        Ty::Int(of) => kind(page, of),
        Ty::Ptr(of) => {
            kind(page, of)?;
            page.sign(Sign::Star)
        }
        Ty::Array(of, _) => kind(page, of),
    }
}

/// Writes what of a type comes after the name that has it.
pub fn behind_name(page: &mut Page, ty: Ty) -> Result<(), NoMemory>
    ensures { (rest : List Piece)
        → IfOk result (λ _. followed_by page.new rest ≡ followed_by page.old (spec.behind_name ty rest)) }
{
    match ty {
        Ty::Array(_, len) => {
            page.sign(Sign::OpenBracket)?;
            page.plain_number(len)?;
            page.sign(Sign::CloseBracket)
        }
        _ => Ok(()),
    }
}

// Writes what a local begins with.
fn init(page: &mut Page, init: &Init) -> Result<(), NoMemory>
    ensures { (rest : List Piece)
        → IfOk result (λ _. followed_by page.new rest
        ≡ followed_by page.old (spec.printed_init (init_tree init.now) rest)) }
{
    match init {
        Init::Nothing => Ok(()),
        Init::Value(value) => {
            page.sign(Sign::Equal)?;
            expr(page, value)
        }
        Init::Call(f, arguments) => {
            page.sign(Sign::Equal)?;
            call(page, f, arguments.as_slice())
        }
    }
}

// Writes what an assignment writes.
fn target(page: &mut Page, target: &LValue) -> Result<(), NoMemory>
    ensures { (rest : List Piece)
        → IfOk result (λ _. followed_by page.new rest
        ≡ followed_by page.old (spec.printed_target (target_tree target.now) rest)) }
{
    match target {
        LValue::Name(x) => page.name(&x.name),
        LValue::Index(x, index) => {
            page.name(&x.name)?;
            in_brackets(page, index)
        }
        LValue::Deref(pointer) => {
            page.sign(Sign::Star)?;
            if is_name_alone(pointer) {
                expr(page, pointer)
            } else {
                in_parentheses(page, pointer)
            }
        }
    }
}

/// Writes an expression in parentheses.
pub fn in_parentheses(page: &mut Page, inner: &Expr) -> Result<(), NoMemory>
    ensures { (rest : List Piece)
        → IfOk result (λ _. followed_by page.new rest
        ≡ followed_by page.old (spec.in_parentheses (expr_tree inner.now) rest)) }
{
    page.sign(Sign::OpenParen)?;
    expr(page, inner)?;
    page.sign(Sign::CloseParen)
}

// Whether an expression is a name alone.
fn is_name_alone(expr: &Expr) -> bool
    ensures { result ≡ spec.is_name_alone (expr_tree expr.now) }
{
    matches!(expr, Expr::Name(_))
}

// The sign of an assignment.
fn assignment_sign(operator: Option<BinaryOperator>) -> Sign
    ensures { result ≡ spec.assignment_sign operator }
{
    match operator {
        None => Sign::Equal,
        Some(operator) => assigning_sign(operator),
    }
}

// The sign of an assignment with this operator.
fn assigning_sign(operator: BinaryOperator) -> Sign
    ensures { result ≡ spec.assignment_sign (Some operator) }
{
    match operator {
        BinaryOperator::Add => Sign::PlusEqual,
        BinaryOperator::Sub => Sign::MinusEqual,
        BinaryOperator::Mul => Sign::StarEqual,
        BinaryOperator::Div => Sign::SlashEqual,
        BinaryOperator::Mod => Sign::PercentEqual,
        BinaryOperator::Shl => Sign::ShiftLeftEqual,
        BinaryOperator::Shr => Sign::ShiftRightEqual,
        BinaryOperator::BitAnd => Sign::AndEqual,
        BinaryOperator::BitOr => Sign::OrEqual,
        BinaryOperator::BitXor => Sign::CaretEqual,
        _ => Sign::Equal,
    }
}

// Writes where the result of a call goes.
fn result_of(page: &mut Page, kept: &Option<Ident>) -> Result<(), NoMemory>
    ensures { (rest : List Piece)
        → IfOk result (λ _. followed_by page.new rest ≡ followed_by page.old (spec.printed_result kept.now rest)) }
{
    match kept {
        None => Ok(()),
        Some(x) => {
            page.name(&x.name)?;
            page.sign(Sign::Equal)
        }
    }
}

// Writes a call.
fn call(page: &mut Page, f: &Ident, arguments: &[Expr]) -> Result<(), NoMemory>
    ensures { (rest : List Piece)
        → IfOk result (λ _. followed_by page.new rest
        ≡ followed_by page.old (spec.printed_call f.now (map expr_tree arguments.now) rest)) }
{
    page.name(&f.name)?;
    page.sign(Sign::OpenParen)?;
    exprs(page, arguments)?;
    page.sign(Sign::CloseParen)
}

// Writes expressions with commas between.
fn exprs(page: &mut Page, exprs: &[Expr]) -> Result<(), NoMemory>
    ensures { (rest : List Piece)
        → IfOk result (λ _. followed_by page.new rest
        ≡ followed_by page.old (listed printed_expr (map expr_tree exprs.now) rest)) }
{
    let Some((first, mut others)) = exprs.split_first() else {
        return Ok(());
    };
    expr(page, first)?;
    while let Some((next, behind)) = others.split_first() {
        page.sign(Sign::Comma)?;
        expr(page, next)?;
        others = behind;
    }
    Ok(())
}
