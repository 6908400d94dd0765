//! Expressions. Each function takes the number of tokens that the outermost expression had before, and gives it back.

ghost use Rattle.std.specs.Prelude.{◌≡◌, ◌≢◌, ◌<◌, ◌≤◌, ◌+◌, ◌∷◌, ℕ, length, List, IfOk, IfErr, Ok, Some, false, true};
ghost use Rattle.cas_lex.specs.declared.token.Sign.TheVariants as sg;
ghost use Rattle.cas_syntax.specs.Operators as operators;
ghost use Rattle.cas_syntax.specs.Reading.{within};
ghost use Rattle.cas_syntax.specs.Tree.{expr_tree, ExprTree, conditional};
ghost use Rattle.cas_read_expr.specs.declared.stop.Stop.TheVariants.{Memory};
ghost use Rattle.cas_parse.specs.Frames.{Control, Frame, WantExpr, HaveExpr, Given, WantOutermost, Named, Opened};
ghost use Rattle.cas_parse.specs.Frames.{Taking, WantKind, CastKind, InParens, InBrackets, Before, Right, Then};
ghost use Rattle.cas_parse.specs.Machine.{counted, risen};
ghost use Rattle.cas_read_expr.specs.Follow.{Follows, taken, verdict, closes, infix_shapes, prefix_shape};

use crate::build;
use crate::front::{ident, is_expected};
use crate::keep::beside;
use crate::kind::{begins_kind_at, kind};
use crate::limit::count;
use crate::operator::{Infix, Prefix, operator, prefix_of, right_level};
use crate::stop::{Stop, left_out, next_token, unexpected};
use cas_lex::{Sign, Token, TokenKind};
use cas_syntax::{CONDITIONAL_LEVEL, Expr, Ident, OPERAND_LEVEL, TOKEN_LIMIT};
use std::alloc::Global;

/// An expression that is in no other, with its tokens and the rest.
#[tactic(auto, using(crate::proofs::Steps::wants_outermost))]
pub fn outermost(alloc: Global, tokens: &[Token]) -> Result<(Expr, usize, &[Token]), Stop>
    ensures follows { (st : List Frame) → Follows result (verdict tokens.now WantOutermost st)
        (λ p. verdict p.2.now (Given p.1 (expr_tree p.0)) st) }
    ensures shorter { IfOk result (λ p. length p.2.now < length tokens.now) }
{
    expr(alloc, tokens, 0, CONDITIONAL_LEVEL)
}

/// An expression of operators that bind as tightly as `least`, with the tokens that the outermost expression then has
/// and the rest.
#[cycle(expr)]
pub fn expr(
    alloc: Global,
    tokens: &[Token],
    used: usize,
    least: u8,
) -> Result<(Expr, usize, &[Token]), Stop>
    requires { 0 < least }
    ensures follows { (st : List Frame) → Follows result (verdict tokens.now (WantExpr used least) st)
        (λ p. verdict p.2.now (Given p.1 (expr_tree p.0)) st) }
    ensures shorter { IfOk result (λ p. length p.2.now < length tokens.now) }
{
    let (mut left, mut used, mut rest) = operand(alloc, tokens, used)?;
    while let Some((between, after)) = operator(rest, least) {
        let next = combined(alloc, left, between, after, used)?;
        left = next.0;
        used = next.1;
        rest = next.2;
    }
    Ok((left, used, rest))
}

// An operand, with what precedes it.
#[cycle(expr)]
fn operand(alloc: Global, tokens: &[Token], used: usize) -> Result<(Expr, usize, &[Token]), Stop>
    ensures follows { (l : ℕ) (st : List Frame) → Follows result (verdict tokens.now (WantExpr used l) st)
        (λ p. verdict p.2.now (HaveExpr p.1 l (expr_tree p.0)) st) }
    ensures shorter { IfOk result (λ p. length p.2.now < length tokens.now) }
{
    let (token, rest) = next_token(tokens)?;
    match &token.kind {
        TokenKind::Name(name) => {
            count(used, rest)?;
            let name = ident(alloc, name, token.place)?;
            named(alloc, rest, used + 1, false, name)
        }
        TokenKind::Literal(value, kind) => {
            count(used, rest)?;
            Ok((Expr::Lit(*value, *kind), used + 1, rest))
        }
        TokenKind::Sign(Sign::OpenParen) => {
            count(used, rest)?;
            opened(alloc, rest, used + 1)
        }
        TokenKind::Sign(Sign::And) => {
            count(used, rest)?;
            address(alloc, rest, used + 1)
        }
        kind => match prefix_of(kind) {
            Some(prefix) => prefixed(alloc, rest, used, prefix),
            None => Err(unexpected(kind, tokens)),
        },
    }
}

// The operand after what precedes it, before these tokens.
#[cycle(expr)]
#[tactic(auto, using(crate::proofs::Steps::given_before))]
fn prefixed(
    alloc: Global,
    tokens: &[Token],
    used: usize,
    prefix: Prefix,
) -> Result<(Expr, usize, &[Token]), Stop>
    ensures follows { (l : ℕ) (st : List Frame) → Follows result
        (taken tokens.now (counted (within 0) false false used
        (Ok (WantExpr (used + 1) 12, Before l (prefix_shape prefix) ∷ st))))
        (λ p. verdict p.2.now (HaveExpr p.1 l (expr_tree p.0)) st) }
    ensures shorter { IfOk result (λ p. length p.2.now < length tokens.now) }
{
    count(used, tokens)?;
    let (operand, used, rest) = expr(alloc, tokens, used + 1, OPERAND_LEVEL)?;
    Ok((build::prefixed(alloc, prefix, operand)?, used, rest))
}

/// What begins with a name, or with the address of what it names.
#[cycle(expr)]
pub fn named(
    alloc: Global,
    tokens: &[Token],
    used: usize,
    addressed: bool,
    name: Ident,
) -> Result<(Expr, usize, &[Token]), Stop>
    ensures follows { (l : ℕ) (st : List Frame) → Follows result
        (verdict tokens.now (Named used l addressed name) st)
        (λ p. verdict p.2.now (HaveExpr p.1 l (expr_tree p.0)) st) }
    ensures no_longer { IfOk result (λ p. length p.2.now ≤ length tokens.now) }
{
    let Some((token, rest)) = tokens.split_first() else {
        return Ok((build::name(addressed, name), used, tokens));
    };
    match token.kind {
        TokenKind::Sign(Sign::OpenBracket) => element(alloc, rest, used, addressed, name),
        TokenKind::Sign(Sign::OpenParen) => Err(left_out(tokens)),
        _ => Ok((build::name(addressed, name), used, tokens)),
    }
}

// An element, after `[`.
#[cycle(expr)]
#[tactic(auto, using(crate::proofs::Steps::given_in_brackets))]
fn element(
    alloc: Global,
    tokens: &[Token],
    used: usize,
    addressed: bool,
    name: Ident,
) -> Result<(Expr, usize, &[Token]), Stop>
    ensures follows { (l : ℕ) (st : List Frame) → Follows result
        (taken tokens.now (counted (within 0) false false used
        (Ok (WantExpr (used + 1) 1, InBrackets l addressed name ∷ st))))
        (λ p. verdict p.2.now (HaveExpr p.1 l (expr_tree p.0)) st) }
    ensures shorter { IfOk result (λ p. length p.2.now < length tokens.now) }
{
    count(used, tokens)?;
    let (index, used, rest) = expr(alloc, tokens, used + 1, CONDITIONAL_LEVEL)?;
    let rest = closed(rest, used, Sign::CloseBracket)?;
    Ok((
        build::element(alloc, addressed, name, index)?,
        used + 1,
        rest,
    ))
}

// What follows `(`: a cast, or an expression in parentheses.
#[cycle(expr)]
#[tactic(auto, using(crate::proofs::Steps::opens_cast, crate::proofs::Steps::opens_expr, crate::proofs::Steps::given_in_parens))]
fn opened(alloc: Global, tokens: &[Token], used: usize) -> Result<(Expr, usize, &[Token]), Stop>
    ensures follows { (l : ℕ) (st : List Frame) → Follows result (verdict tokens.now (Opened used l) st)
        (λ p. verdict p.2.now (HaveExpr p.1 l (expr_tree p.0)) st) }
    ensures shorter { IfOk result (λ p. length p.2.now < length tokens.now) }
{
    if begins_kind_at(tokens) {
        return cast(alloc, tokens, used);
    }
    let (inner, used, rest) = expr(alloc, tokens, used, CONDITIONAL_LEVEL)?;
    let rest = closed(rest, used, Sign::CloseParen)?;
    Ok((inner, used + 1, rest))
}

// A cast, after `(`.
#[cycle(expr)]
#[tactic(auto, using(crate::proofs::Steps::cast_of, crate::proofs::Steps::given_before))]
fn cast(alloc: Global, tokens: &[Token], used: usize) -> Result<(Expr, usize, &[Token]), Stop>
    ensures follows { (l : ℕ) (st : List Frame) → Follows result
        (verdict tokens.now (WantKind (Some used)) (CastKind l ∷ st))
        (λ p. verdict p.2.now (HaveExpr p.1 l (expr_tree p.0)) st) }
    ensures shorter { IfOk result (λ p. length p.2.now < length tokens.now) }
{
    let (kind, used, rest) = kind(tokens, Some(used))?;
    let Some(used) = used else { unreachable!() };
    let rest = closed(rest, used, Sign::CloseParen)?;
    let (operand, used, rest) = expr(alloc, rest, used + 1, OPERAND_LEVEL)?;
    Ok((
        build::prefixed(alloc, Prefix::Casts(kind), operand)?,
        used,
        rest,
    ))
}

// What begins with a name, after `&`.
#[cycle(expr)]
fn address(alloc: Global, tokens: &[Token], used: usize) -> Result<(Expr, usize, &[Token]), Stop>
    ensures follows { (l : ℕ) (st : List Frame) → Follows result (verdict tokens.now (Taking used l) st)
        (λ p. verdict p.2.now (HaveExpr p.1 l (expr_tree p.0)) st) }
    ensures shorter { IfOk result (λ p. length p.2.now < length tokens.now) }
{
    let (token, rest) = next_token(tokens)?;
    match &token.kind {
        TokenKind::Name(name) => {
            count(used, rest)?;
            let name = ident(alloc, name, token.place)?;
            named(alloc, rest, used + 1, true, name)
        }
        _ => Err(unexpected(&token.kind, tokens)),
    }
}

// An expression with what follows it and an operator.
#[cycle(expr)]
#[tactic(auto, using(crate::proofs::Steps::given_right))]
fn combined(
    alloc: Global,
    left: Expr,
    between: Option<Infix>,
    tokens: &[Token],
    used: usize,
) -> Result<(Expr, usize, &[Token]), Stop>
    ensures follows { (l : ℕ) (st : List Frame) → Follows result
        (taken tokens.now (counted (within 0) false false used
        (risen (within 0) false false used l (expr_tree left) st (infix_shapes between))))
        (λ p. verdict p.2.now (HaveExpr p.1 l (expr_tree p.0)) st) }
    ensures shorter { IfOk result (λ p. length p.2.now < length tokens.now) }
{
    let Some(operator) = between else {
        return chosen(alloc, left, tokens, used);
    };
    count(used, tokens)?;
    let least = right_level(operator);
    let (left, (right, used, rest)) = beside(left, expr(alloc, tokens, used + 1, least))?;
    Ok((build::joined(alloc, operator, left, right)?, used, rest))
}

// A condition with the expressions between which it chooses, after `?`.
#[cycle(expr)]
fn chosen(
    alloc: Global,
    condition: Expr,
    tokens: &[Token],
    used: usize,
) -> Result<(Expr, usize, &[Token]), Stop>
    ensures follows { (l : ℕ) (st : List Frame) → Follows result
        (taken tokens.now (counted (within 0) false false used
        (Ok (WantExpr (used + 1) 1, Then l (expr_tree condition) ∷ st))))
        (λ p. verdict p.2.now (HaveExpr p.1 l (expr_tree p.0)) st) }
    ensures shorter { IfOk result (λ p. length p.2.now < length tokens.now) }
{
    let (condition, (chosen, other, used, rest)) = beside(
        condition,
        branches(alloc, tokens, used),
    )?;
    let condition = build::boxed(alloc, condition)?;
    Ok((Expr::Cond(condition, chosen, other), used, rest))
}

// The expressions between which a condition chooses, after `?`.
#[cycle(expr)]
#[tactic(auto, using(crate::proofs::Steps::given_then, crate::proofs::Steps::given_otherwise))]
fn branches(
    alloc: Global,
    tokens: &[Token],
    used: usize,
) -> Result<(Box<Expr>, Box<Expr>, usize, &[Token]), Stop>
    ensures follows { (l : ℕ) (c : ExprTree) (st : List Frame)
        → Follows result (taken tokens.now
        (counted (within 0) false false used (Ok (WantExpr (used + 1) 1, Then l c ∷ st))))
        (λ p. verdict p.3.now (HaveExpr p.2 l (conditional c (expr_tree p.0.value) (expr_tree p.1.value))) st) }
    ensures shorter { IfOk result (λ p. length p.3.now < length tokens.now) }
{
    count(used, tokens)?;
    let (chosen, used, rest) = expr(alloc, tokens, used + 1, CONDITIONAL_LEVEL)?;
    let chosen = build::boxed(alloc, chosen)?;
    let rest = closed(rest, used, Sign::Colon)?;
    let (other, used, rest) = expr(alloc, rest, used + 1, CONDITIONAL_LEVEL)?;
    let other = build::boxed(alloc, other)?;
    Ok((chosen, other, used, rest))
}

// The rest after a sign of an outermost expression that has so many tokens before it.
fn closed(tokens: &[Token], used: usize, sign: Sign) -> Result<&[Token], Stop>
    ensures follows { (c : Control) (st : List Frame) → Follows result (closes sign used tokens.now c st)
        (λ rest. verdict rest.now c st) }
    ensures below { IfOk result (λ rest. used < TOKEN_LIMIT) }
    ensures shorter { IfOk result (λ rest. length rest.now < length tokens.now) }
    ensures faults { IfErr result (λ e. e ≢ Memory) }
{
    let (token, rest) = next_token(tokens)?;
    if !is_expected(sign, &token.kind) {
        return Err(unexpected(&token.kind, tokens));
    }
    count(used, rest)?;
    Ok(rest)
}
