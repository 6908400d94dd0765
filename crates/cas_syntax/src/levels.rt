//! How tightly operators bind: the higher the level, the tighter.

ghost use Rattle.std.specs.Prelude.{◌≡◌, ◌<◌};
ghost use Rattle.cas_syntax.specs.Operators.{always_both, level};

use crate::tree::BinaryOperator;

/// The level of `? :`. No operator binds less tightly.
pub const CONDITIONAL_LEVEL: u8 = 1;

/// The level of `||`.
pub const OR_LEVEL: u8 = 2;

/// The level of `&&`.
pub const AND_LEVEL: u8 = 3;

/// The level of an operand with what precedes it. Each operator between two operands binds less tightly.
pub const OPERAND_LEVEL: u8 = 12;

/// The level of an operator that always takes both operands.
pub fn level(operator: BinaryOperator) -> u8
    ensures value { result ≡ level (always_both operator) }
    ensures within { result < OPERAND_LEVEL }
{
    match operator {
        BinaryOperator::BitOr => 4,
        BinaryOperator::BitXor => 5,
        BinaryOperator::BitAnd => 6,
        BinaryOperator::Eq | BinaryOperator::Ne => 7,
        BinaryOperator::Lt | BinaryOperator::Le | BinaryOperator::Gt | BinaryOperator::Ge => 8,
        BinaryOperator::Shl | BinaryOperator::Shr => 9,
        BinaryOperator::Add | BinaryOperator::Sub => 10,
        BinaryOperator::Mul | BinaryOperator::Div | BinaryOperator::Mod => 11,
    }
}
