//! Assignments and calls.

ghost use Rattle.std.specs.Prelude.{◌≡◌, ◌≢◌, ◌<◌, ◌≤◌, ◌∷◌, length, List, IfOk, IfErr};
ghost use Rattle.cas_base.specs.declared.place.Place.{Place};
ghost use Rattle.cas_syntax.specs.Tree.{stmt_tree, target_tree, TargetTree};
ghost use Rattle.cas_read_expr.specs.declared.stop.Stop.TheVariants.{Memory};
ghost use Rattle.cas_parse.specs.Frames.{Frame, Assigned, WantOutermost, WantValue, AssignedTo, HaveSimple};
ghost use Rattle.cas_parse.specs.Frames.{AfterName, AfterTarget, WantTarget, SteppedName};
ghost use Rattle.cas_parse.specs.Machine as machine;
ghost use Rattle.cas_read_expr.specs.Follow.{Follows, verdict};
ghost use Rattle.cas_read_stmt.specs.FollowStmts.{begins_simple, changes};

use crate::target::{element, pointed_to};
use cas_base::{Kind, Place};
use cas_lex::{Sign, Token, TokenKind};
use cas_read_expr::call::{Value, arguments, value_at};
use cas_read_expr::expr::outermost;
use cas_read_expr::front::ident;
use cas_read_expr::keep::beside;
use cas_read_expr::stop::{Stop, next_token, unexpected};
use cas_syntax::{BinaryOperator, Expr, Ident, LValue, Stmt, StmtForm};
use std::alloc::Global;

/// How a target is changed.
#[derive(Clone, Copy, Debug)]
pub enum Change {
    /// To an expression, or to what an operator gives for both.
    Assigns(Option<BinaryOperator>),
    /// By 1.
    Steps(BinaryOperator),
}

/// An assignment or a call.
pub fn simple(alloc: Global, tokens: &[Token]) -> Result<(Stmt, &[Token]), Stop>
    ensures follows { (st : List Frame) → Follows result (begins_simple tokens.now st)
        (λ p. verdict p.1.now (HaveSimple (stmt_tree p.0)) st) }
    ensures shorter { IfOk result (λ p. length p.1.now < length tokens.now) }
{
    let (token, rest) = next_token(tokens)?;
    match &token.kind {
        TokenKind::Name(name) => {
            let name = ident(alloc, name, token.place)?;
            named(alloc, name, rest)
        }
        TokenKind::Sign(Sign::Star) => {
            let (target, rest) = pointed_to(alloc, rest)?;
            changed(alloc, token.place, target, rest)
        }
        TokenKind::Sign(Sign::PlusPlus) => stepped(alloc, token.place, BinaryOperator::Add, rest),
        TokenKind::Sign(Sign::MinusMinus) => stepped(alloc, token.place, BinaryOperator::Sub, rest),
        _ => Err(unexpected(&token.kind, tokens)),
    }
}

// What begins with a name.
fn named(alloc: Global, name: Ident, tokens: &[Token]) -> Result<(Stmt, &[Token]), Stop>
    ensures follows { (st : List Frame) → Follows result (verdict tokens.now (AfterName name) st)
        (λ p. verdict p.1.now (HaveSimple (stmt_tree p.0)) st) }
    ensures shorter { IfOk result (λ p. length p.1.now < length tokens.now) }
{
    let place = name.place;
    let (token, rest) = next_token(tokens)?;
    match token.kind {
        TokenKind::Sign(Sign::OpenBracket) => {
            let (target, rest) = element(alloc, name, rest)?;
            changed(alloc, place, target, rest)
        }
        TokenKind::Sign(Sign::OpenParen) => {
            let (arguments, rest) = arguments(alloc, rest)?;
            let form = StmtForm::Call(None, name, arguments);
            Ok((Stmt { place, form }, rest))
        }
        TokenKind::Sign(Sign::Equal) => given(alloc, name, rest),
        _ => changed(alloc, place, LValue::Name(name), tokens),
    }
}

// A variable that is given a value, after `=`.
#[tactic(auto, using(crate::proofs::Steps::assigned_value))]
fn given(alloc: Global, name: Ident, tokens: &[Token]) -> Result<(Stmt, &[Token]), Stop>
    ensures follows { (st : List Frame) → Follows result (verdict tokens.now (WantValue (Assigned name)) st)
        (λ p. verdict p.1.now (HaveSimple (stmt_tree p.0)) st) }
    ensures shorter { IfOk result (λ p. length p.1.now < length tokens.now) }
{
    let place = name.place;
    let (value, rest) = value_at(alloc, tokens)?;
    let form = match value {
        Value::Expr(value) => StmtForm::Assign(LValue::Name(name), None, value),
        Value::Call(function, arguments) => StmtForm::Call(Some(name), function, arguments),
    };
    Ok((Stmt { place, form }, rest))
}

// What is assigned to a target, after it; the statement's place is given.
#[tactic(auto, using(crate::proofs::Steps::given_assigned))]
fn changed(
    alloc: Global,
    place: Place,
    target: LValue,
    tokens: &[Token],
) -> Result<(Stmt, &[Token]), Stop>
    ensures follows { (st : List Frame) → Follows result
        (verdict tokens.now (AfterTarget place (target_tree target)) st)
        (λ p. verdict p.1.now (HaveSimple (stmt_tree p.0)) st) }
    ensures shorter { IfOk result (λ p. length p.1.now < length tokens.now) }
{
    let (target, (change, rest)) = beside(target, change_at(tokens))?;
    match change {
        Change::Assigns(operator) => assigned(alloc, place, target, operator, rest),
        Change::Steps(operator) => Ok((step(place, target, operator), rest)),
    }
}

// How the next sign changes what precedes it.
fn change_at(tokens: &[Token]) -> Result<(Change, &[Token]), Stop>
    ensures follows { (q : Place) (target : TargetTree) (st : List Frame)
        → Follows result (verdict tokens.now (AfterTarget q target) st) (λ p. changes p.0 p.1.now q target st) }
    ensures shorter { IfOk result (λ p. length p.1.now < length tokens.now) }
    ensures faults { IfErr result (λ e. e ≢ Memory) }
{
    let (token, rest) = next_token(tokens)?;
    match token.kind {
        TokenKind::Sign(Sign::Equal) => Ok((Change::Assigns(None), rest)),
        TokenKind::Sign(Sign::PlusPlus) => Ok((Change::Steps(BinaryOperator::Add), rest)),
        TokenKind::Sign(Sign::MinusMinus) => Ok((Change::Steps(BinaryOperator::Sub), rest)),
        _ => match assigning(&token.kind) {
            Some(operator) => Ok((Change::Assigns(Some(operator)), rest)),
            None => Err(unexpected(&token.kind, tokens)),
        },
    }
}

// The assignment of an expression, after its sign.
#[tactic(auto, using(crate::proofs::Steps::given_assigned))]
fn assigned(
    alloc: Global,
    place: Place,
    target: LValue,
    operator: Option<BinaryOperator>,
    tokens: &[Token],
) -> Result<(Stmt, &[Token]), Stop>
    ensures follows { (st : List Frame) → Follows result
        (verdict tokens.now WantOutermost (AssignedTo place (target_tree target) operator ∷ st))
        (λ p. verdict p.1.now (HaveSimple (stmt_tree p.0)) st) }
    ensures shorter { IfOk result (λ p. length p.1.now < length tokens.now) }
{
    let (target, (value, _, rest)) = beside(target, outermost(alloc, tokens))?;
    let form = StmtForm::Assign(target, operator, value);
    Ok((Stmt { place, form }, rest))
}

// What `++` or `--` steps that stands before it.
fn stepped(
    alloc: Global,
    place: Place,
    operator: BinaryOperator,
    tokens: &[Token],
) -> Result<(Stmt, &[Token]), Stop>
    ensures follows { (st : List Frame) → Follows result (verdict tokens.now (WantTarget place operator) st)
        (λ p. verdict p.1.now (HaveSimple (stmt_tree p.0)) st) }
    ensures shorter { IfOk result (λ p. length p.1.now < length tokens.now) }
{
    let (token, rest) = next_token(tokens)?;
    match &token.kind {
        TokenKind::Name(name) => {
            let name = ident(alloc, name, token.place)?;
            let (target, rest) = stepped_name(alloc, name, rest)?;
            Ok((step(place, target, operator), rest))
        }
        TokenKind::Sign(Sign::Star) => {
            let (target, rest) = pointed_to(alloc, rest)?;
            Ok((step(place, target, operator), rest))
        }
        _ => Err(unexpected(&token.kind, tokens)),
    }
}

// A variable or an element that `++` or `--` steps.
fn stepped_name(alloc: Global, name: Ident, tokens: &[Token]) -> Result<(LValue, &[Token]), Stop>
    ensures follows { (q : Place) (op : BinaryOperator) (st : List Frame)
        → Follows result (verdict tokens.now (SteppedName q op name) st)
        (λ p. verdict p.1.now (HaveSimple (machine.stepped q (target_tree p.0) op)) st) }
    ensures no_longer { IfOk result (λ p. length p.1.now ≤ length tokens.now) }
{
    match tokens.split_first() {
        Some(
            (
                Token {
                    kind: TokenKind::Sign(Sign::OpenBracket),
                    ..
                },
                rest,
            ),
        ) => element(alloc, name, rest),
        _ => Ok((LValue::Name(name), tokens)),
    }
}

// The statement that adds or subtracts 1.
fn step(place: Place, target: LValue, operator: BinaryOperator) -> Stmt
    ensures { stmt_tree result ≡ machine.stepped place (target_tree target) operator }
{
    Stmt {
        place,
        form: StmtForm::Assign(target, Some(operator), Expr::Lit(1, Kind::I32)),
    }
}

// The operator of an assignment, as that of `+=`.
fn assigning(kind: &TokenKind) -> Option<BinaryOperator>
    ensures { result ≡ machine.assigning kind.now }
{
    let operator = match kind {
        TokenKind::Sign(Sign::PlusEqual) => BinaryOperator::Add,
        TokenKind::Sign(Sign::MinusEqual) => BinaryOperator::Sub,
        TokenKind::Sign(Sign::StarEqual) => BinaryOperator::Mul,
        TokenKind::Sign(Sign::SlashEqual) => BinaryOperator::Div,
        TokenKind::Sign(Sign::PercentEqual) => BinaryOperator::Mod,
        TokenKind::Sign(Sign::ShiftLeftEqual) => BinaryOperator::Shl,
        TokenKind::Sign(Sign::ShiftRightEqual) => BinaryOperator::Shr,
        TokenKind::Sign(Sign::AndEqual) => BinaryOperator::BitAnd,
        TokenKind::Sign(Sign::OrEqual) => BinaryOperator::BitOr,
        TokenKind::Sign(Sign::CaretEqual) => BinaryOperator::BitXor,
        _ => return None,
    };
    Some(operator)
}
