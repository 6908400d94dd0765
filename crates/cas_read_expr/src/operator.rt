//! Operators of expressions.

ghost use Rattle.std.specs.Prelude.{◌≡◌, ◌<◌, ◌+◌, ℕ, false, length, List, IfSome, IfNone};
ghost use Rattle.cas_syntax.specs.Operators as operators;
ghost use Rattle.cas_syntax.specs.Reading.{within};
ghost use Rattle.cas_syntax.specs.Tree.{ExprTree};
ghost use Rattle.cas_parse.specs.Frames.{Frame, HaveExpr, Given};
ghost use Rattle.cas_parse.specs.Machine as machine;
ghost use Rattle.cas_read_expr.specs.Follow.{verdict, taken, infix_shape, infix_shapes, prefix_of, prefix_shapes};

use cas_base::Kind;
use cas_lex::{Sign, Token, TokenKind};
use cas_syntax::{
    AND_LEVEL, BinaryOperator, CONDITIONAL_LEVEL, OPERAND_LEVEL, OR_LEVEL, UnaryOperator, level,
};

/// What precedes an operand.
#[derive(Clone, Copy, Debug)]
pub enum Prefix {
    Operates(UnaryOperator),
    Points,
    Casts(Kind),
}

/// An operator between two operands.
#[derive(Clone, Copy, Debug)]
pub enum Infix {
    /// One that always takes both.
    Both(BinaryOperator),
    And,
    Or,
}

/// What a token is that is alone before an operand, but for `&`, after which a name has to follow.
pub fn prefix_of(kind: &TokenKind) -> Option<Prefix>
    ensures { prefix_shapes result ≡ prefix_of kind.now }
{
    match kind {
        TokenKind::Sign(Sign::Minus) => Some(Prefix::Operates(UnaryOperator::Neg)),
        TokenKind::Sign(Sign::Plus) => Some(Prefix::Operates(UnaryOperator::Plus)),
        TokenKind::Sign(Sign::Tilde) => Some(Prefix::Operates(UnaryOperator::BitNot)),
        TokenKind::Sign(Sign::Not) => Some(Prefix::Operates(UnaryOperator::Not)),
        TokenKind::Sign(Sign::Star) => Some(Prefix::Points),
        _ => None,
    }
}

/// The operator between two operands that a token is.
pub fn infix_of(kind: &TokenKind) -> Option<Infix>
    ensures { infix_shapes result ≡ machine.infix_of kind.now }
{
    let infix = match kind {
        TokenKind::Sign(Sign::OrOr) => Infix::Or,
        TokenKind::Sign(Sign::AndAnd) => Infix::And,
        TokenKind::Sign(Sign::Or) => Infix::Both(BinaryOperator::BitOr),
        TokenKind::Sign(Sign::Caret) => Infix::Both(BinaryOperator::BitXor),
        TokenKind::Sign(Sign::And) => Infix::Both(BinaryOperator::BitAnd),
        TokenKind::Sign(Sign::EqualEqual) => Infix::Both(BinaryOperator::Eq),
        TokenKind::Sign(Sign::NotEqual) => Infix::Both(BinaryOperator::Ne),
        TokenKind::Sign(Sign::Less) => Infix::Both(BinaryOperator::Lt),
        TokenKind::Sign(Sign::LessEqual) => Infix::Both(BinaryOperator::Le),
        TokenKind::Sign(Sign::Greater) => Infix::Both(BinaryOperator::Gt),
        TokenKind::Sign(Sign::GreaterEqual) => Infix::Both(BinaryOperator::Ge),
        TokenKind::Sign(Sign::ShiftLeft) => Infix::Both(BinaryOperator::Shl),
        TokenKind::Sign(Sign::ShiftRight) => Infix::Both(BinaryOperator::Shr),
        TokenKind::Sign(Sign::Plus) => Infix::Both(BinaryOperator::Add),
        TokenKind::Sign(Sign::Minus) => Infix::Both(BinaryOperator::Sub),
        TokenKind::Sign(Sign::Star) => Infix::Both(BinaryOperator::Mul),
        TokenKind::Sign(Sign::Slash) => Infix::Both(BinaryOperator::Div),
        TokenKind::Sign(Sign::Percent) => Infix::Both(BinaryOperator::Mod),
        _ => return None,
    };
    Some(infix)
}

/// How tightly an operator binds.
pub fn infix_level(operator: Infix) -> u8
    ensures value { result ≡ operators.level (infix_shape operator) }
    ensures small { result < OPERAND_LEVEL }
{
    match operator {
        Infix::Or => OR_LEVEL,
        Infix::And => AND_LEVEL,
        Infix::Both(operator) => level(operator),
    }
}

/// How tightly an operator in the right operand of this one binds at least: equal operators go to the left.
pub fn right_level(operator: Infix) -> u8
    ensures { result ≡ operators.level (infix_shape operator) + 1 }
{
    infix_level(operator) + 1
}

/// How tightly a token binds that is this operator between two operands, or none: 0 for no operator at all.
fn binding(between: Option<Infix>, kind: &TokenKind) -> u8
    ensures { result ≡ machine.binding (infix_shapes between) kind.now }
{
    match (between, kind) {
        (Some(infix), _) => infix_level(infix),
        (None, TokenKind::Sign(Sign::Question)) => CONDITIONAL_LEVEL,
        (None, _) => 0,
    }
}

/// The operator that comes next, if it binds as tightly as `least`, and the rest after it: an operator
/// between two operands, or none if it is `?`.
#[tactic(auto, using(crate::proofs::Steps::takes_operator, crate::proofs::Steps::takes_no_operator))]
pub fn operator(tokens: &[Token], least: u8) -> Option<(Option<Infix>, &[Token])>
    requires { 0 < least }
    ensures none { (b : ℕ) (x : ExprTree) (st : List Frame)
        → IfNone result (verdict tokens.now (HaveExpr b least x) st ≡ verdict tokens.now (Given b x) st) }
    ensures some { (b : ℕ) (x : ExprTree) (st : List Frame)
        → IfSome result (λ p. verdict tokens.now (HaveExpr b least x) st
        ≡ taken p.1.now (machine.counted (within 0) false false b
        (machine.risen (within 0) false false b least x st (infix_shapes p.0)))) }
    ensures shorter { IfSome result (λ p. length p.1.now < length tokens.now) }
{
    let (token, rest) = tokens.split_first()?;
    let infix = infix_of(&token.kind);
    if least <= binding(infix, &token.kind) {
        Some((infix, rest))
    } else {
        None
    }
}
