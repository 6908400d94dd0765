//! Expressions.

ghost use Rattle.std.specs.Prelude.{◌≡◌, ◌<◌, ◌∷◌, IfOk, List};
ghost use Rattle.cas_syntax.specs.Tree as tree;
ghost use Rattle.cas_syntax.specs.Tree.{expr_tree};
ghost use Rattle.cas_syntax.specs.Operators as operators;
ghost use Rattle.cas_print.specs.Page.{followed_by};
ghost use Rattle.cas_print.specs.Pieces as pieces;
ghost use Rattle.cas_print.specs.Pieces.{Piece};
ghost use Rattle.cas_print.specs.Expressions as spec;

use crate::page::Page;
use cas_base::{Kind, NoMemory};
use cas_lex::{Sign, Word};
use cas_syntax::{
    AND_LEVEL, BinaryOperator, CONDITIONAL_LEVEL, Expr, Ident, OPERAND_LEVEL, OR_LEVEL,
    UnaryOperator, level,
};

/// Writes the words of a kind.
pub fn kind(page: &mut Page, kind: Kind) -> Result<(), NoMemory>
    ensures { (rest : List Piece)
        → IfOk result (λ _. followed_by page.new rest ≡ followed_by page.old (spec.kind_words kind rest)) }
{
    match kind {
        Kind::I8 => page.word(Word::Char),
        Kind::U8 => {
            page.word(Word::Unsigned)?;
            page.word(Word::Char)
        }
        Kind::I16 => page.word(Word::Short),
        Kind::U16 => {
            page.word(Word::Unsigned)?;
            page.word(Word::Short)
        }
        Kind::I32 => page.word(Word::Int),
        Kind::U32 => page.word(Word::Unsigned),
    }
}

/// Writes an expression.
#[cycle(expr)]
pub fn expr(page: &mut Page, expr: &Expr) -> Result<(), NoMemory>
    ensures { (rest : List Piece)
        → IfOk result (λ _. followed_by page.new rest
        ≡ followed_by page.old (spec.printed_expr (expr_tree expr.now) rest)) }
{
    match expr {
        Expr::Lit(value, kind) => page.number(*value, *kind),
        Expr::Name(x) => page.name(&x.name),
        Expr::Index(x, index) => cell(page, x, index),
        Expr::Deref(pointer) => prefixed(page, Sign::Star, pointer),
        Expr::Addr(x) => {
            page.sign(Sign::And)?;
            page.name(&x.name)
        }
        Expr::AddrIndex(x, index) => {
            page.sign(Sign::And)?;
            cell(page, x, index)
        }
        Expr::Unary(operator, inner) => prefixed(page, unary_sign(*operator), inner),
        Expr::Cast(to, inner) => cast(page, *to, inner),
        Expr::Binary(operator, left, right) => {
            left_operand(page, level(*operator), left, infix_sign(*operator))?;
            operand(page, level(*operator) + 1, right)
        }
        Expr::And(left, right) => {
            left_operand(page, AND_LEVEL, left, Sign::AndAnd)?;
            operand(page, AND_LEVEL + 1, right)
        }
        Expr::Or(left, right) => {
            left_operand(page, OR_LEVEL, left, Sign::OrOr)?;
            operand(page, OR_LEVEL + 1, right)
        }
        Expr::Cond(condition, first, second) => {
            left_operand(page, CONDITIONAL_LEVEL + 1, condition, Sign::Question)?;
            self::expr(page, first)?;
            page.sign(Sign::Colon)?;
            self::expr(page, second)
        }
    }
}

// Writes an element of an array.
#[cycle(expr)]
fn cell(page: &mut Page, x: &Ident, index: &Expr) -> Result<(), NoMemory>
    ensures { (rest : List Piece)
        → IfOk result (λ _. followed_by page.new rest
        ≡ followed_by page.old (spec.printed_expr (tree.index x.now (expr_tree index.now)) rest)) }
{
    page.name(&x.name)?;
    in_brackets(page, index)
}

// Writes an operand at a place that takes operators of this level and tighter ones, and a sign after it.
#[cycle(expr)]
fn left_operand(page: &mut Page, asked: u8, inner: &Expr, sign: Sign) -> Result<(), NoMemory>
    ensures { (rest : List Piece)
        → IfOk result (λ _. followed_by page.new rest
        ≡ followed_by page.old
        (spec.at_level asked (spec.outermost (expr_tree inner.now)) (spec.printed_expr (expr_tree inner.now))
        (pieces.sign sign ∷ rest))) }
{
    operand(page, asked, inner)?;
    page.sign(sign)
}

// Writes an operand after a sign.
#[cycle(expr)]
fn prefixed(page: &mut Page, sign: Sign, inner: &Expr) -> Result<(), NoMemory>
    ensures { (rest : List Piece)
        → IfOk result (λ _. followed_by page.new rest
        ≡ followed_by page.old
        (spec.prefixed sign (spec.outermost (expr_tree inner.now)) (spec.printed_expr (expr_tree inner.now)) rest)) }
{
    page.sign(sign)?;
    operand(page, OPERAND_LEVEL, inner)
}

// Writes an operand after a kind in parentheses.
#[cycle(expr)]
fn cast(page: &mut Page, to: Kind, inner: &Expr) -> Result<(), NoMemory>
    ensures { (rest : List Piece)
        → IfOk result (λ _. followed_by page.new rest
        ≡ followed_by page.old
        (spec.converted to (spec.outermost (expr_tree inner.now)) (spec.printed_expr (expr_tree inner.now)) rest)) }
{
    page.sign(Sign::OpenParen)?;
    kind(page, to)?;
    page.sign(Sign::CloseParen)?;
    operand(page, OPERAND_LEVEL, inner)
}

// Writes an expression at a place that takes operators of this level and tighter ones.
#[cycle(expr)]
fn operand(page: &mut Page, asked: u8, inner: &Expr) -> Result<(), NoMemory>
    ensures { (rest : List Piece)
        → IfOk result (λ _. followed_by page.new rest
        ≡ followed_by page.old
        (spec.at_level asked (spec.outermost (expr_tree inner.now)) (spec.printed_expr (expr_tree inner.now)) rest)) }
{
    if outermost(inner) < asked {
        page.sign(Sign::OpenParen)?;
        expr(page, inner)?;
        page.sign(Sign::CloseParen)
    } else {
        expr(page, inner)
    }
}

/// Writes an expression in brackets.
#[cycle(expr)]
pub fn in_brackets(page: &mut Page, index: &Expr) -> Result<(), NoMemory>
    ensures { (rest : List Piece)
        → IfOk result (λ _. followed_by page.new rest
        ≡ followed_by page.old (spec.in_brackets (spec.printed_expr (expr_tree index.now)) rest)) }
{
    page.sign(Sign::OpenBracket)?;
    expr(page, index)?;
    page.sign(Sign::CloseBracket)
}

// How tightly the outermost operator of an expression binds.
fn outermost(expr: &Expr) -> u8
    ensures { result ≡ spec.outermost (expr_tree expr.now) }
{
    match expr {
        Expr::Binary(operator, _, _) => level(*operator),
        Expr::And(_, _) => AND_LEVEL,
        Expr::Or(_, _) => OR_LEVEL,
        Expr::Cond(_, _, _) => CONDITIONAL_LEVEL,
        _ => OPERAND_LEVEL,
    }
}

fn infix_sign(operator: BinaryOperator) -> Sign
    ensures { result ≡ operators.infix_sign (operators.always_both operator) }
{
    match operator {
        BinaryOperator::Add => Sign::Plus,
        BinaryOperator::Sub => Sign::Minus,
        BinaryOperator::Mul => Sign::Star,
        BinaryOperator::Div => Sign::Slash,
        BinaryOperator::Mod => Sign::Percent,
        BinaryOperator::Shl => Sign::ShiftLeft,
        BinaryOperator::Shr => Sign::ShiftRight,
        BinaryOperator::BitAnd => Sign::And,
        BinaryOperator::BitOr => Sign::Or,
        BinaryOperator::BitXor => Sign::Caret,
        BinaryOperator::Eq => Sign::EqualEqual,
        BinaryOperator::Ne => Sign::NotEqual,
        BinaryOperator::Lt => Sign::Less,
        BinaryOperator::Le => Sign::LessEqual,
        BinaryOperator::Gt => Sign::Greater,
        BinaryOperator::Ge => Sign::GreaterEqual,
    }
}

fn unary_sign(operator: UnaryOperator) -> Sign
    ensures { result ≡ operators.unary_sign operator }
{
    match operator {
        UnaryOperator::Neg => Sign::Minus,
        UnaryOperator::Plus => Sign::Plus,
        UnaryOperator::BitNot => Sign::Tilde,
        UnaryOperator::Not => Sign::Not,
    }
}
