//! Operators on words, and numbers as operators read them.

ghost use Rattle.std.specs.Prelude.{◌≡◌, ◌≤◌, ◌^◌, ℤ, pos, negsuc, ◌≤ℤ◌};
ghost use Rattle.cas_step.specs.Operators as o;
ghost use Rattle.cas_eval.specs.Answer.{EvalState, answer};

use crate::values::NoResult;
use cas_base::{
    Why, add, div_signed, div_unsigned, mul, rem_signed, rem_unsigned, sar, shl, shr, sub,
};
use cas_syntax::{BinaryOperator, UnaryOperator};
use cas_typed::Signedness;

/// The number that a word is read as.
pub fn number_of(signedness: Signedness, word: u32) -> i64
    ensures number { result ≡ o.number_of signedness word }
    ensures low { negsuc (2 ^ 32) ≤ℤ result }
    ensures high { result ≤ℤ pos (2 ^ 32) }
{
    match signedness {
        Signedness::Signed => i64::from(word.cast_signed()),
        Signedness::Unsigned => i64::from(word),
    }
}

/// The place with this number, if it is from 0 to below the limit.
pub fn place_below(limit: u64, number: i64) -> Option<u32>
    requires { limit ≤ 2 ^ 32 }
    ensures { result ≡ o.place_below limit number }
{
    if number < 0 {
        return None;
    }
    let place = number.cast_unsigned();
    if place < limit {
        Some(place as u32)
    } else {
        None
    }
}

/// A truth value as a word.
pub fn truth(is: bool) -> u32
    ensures { result ≡ o.truth is }
{
    if is { 1 } else { 0 }
}

fn is_less(signedness: Signedness, a: u32, b: u32) -> bool
    ensures { result ≡ o.is_less signedness a b }
{
    number_of(signedness, a) < number_of(signedness, b)
}

fn is_at_most(signedness: Signedness, a: u32, b: u32) -> bool
    ensures { result ≡ o.is_at_most signedness a b }
{
    number_of(signedness, a) <= number_of(signedness, b)
}

fn quotient(signedness: Signedness, a: u32, b: u32) -> Option<u32>
    ensures { result ≡ o.quotient signedness a b }
{
    match signedness {
        Signedness::Signed => div_signed(a, b),
        Signedness::Unsigned => div_unsigned(a, b),
    }
}

fn remainder(signedness: Signedness, a: u32, b: u32) -> Option<u32>
    ensures { result ≡ o.remainder signedness a b }
{
    match signedness {
        Signedness::Signed => rem_signed(a, b),
        Signedness::Unsigned => rem_unsigned(a, b),
    }
}

fn shifted_right(signedness: Signedness, a: u32, b: u32) -> u32
    ensures { result ≡ o.shifted_right signedness a b }
{
    match signedness {
        Signedness::Signed => sar(a, b),
        Signedness::Unsigned => shr(a, b),
    }
}

// A quotient or remainder by this divisor, if there is one.
#[tactic(auto, unfolding(crate::specs::Answer::answer))]
fn or_undefined(divisor: u32, found: Option<u32>) -> Result<u32, NoResult>
    ensures { (r : EvalState) → result ≡ answer r (o.or_undefined divisor found) }
{
    match found {
        Some(n) => Ok(n),
        None => {
            if divisor == 0 {
                Err(NoResult::Bad(Why::DivZero))
            } else {
                Err(NoResult::Bad(Why::DivRange))
            }
        }
    }
}

/// The result of an operator on two words.
#[tactic(auto, unfolding(crate::specs::Answer::answer))]
pub fn binary(
    operator: BinaryOperator,
    signedness: Signedness,
    a: u32,
    b: u32,
) -> Result<u32, NoResult>
    ensures { (r : EvalState) → result ≡ answer r (o.binary_result operator signedness a b) }
{
    match operator {
        BinaryOperator::Add => Ok(add(a, b)),
        BinaryOperator::Sub => Ok(sub(a, b)),
        BinaryOperator::Mul => Ok(mul(a, b)),
        BinaryOperator::Div => or_undefined(b, quotient(signedness, a, b)),
        BinaryOperator::Mod => or_undefined(b, remainder(signedness, a, b)),
        BinaryOperator::Shl => Ok(shl(a, b)),
        BinaryOperator::Shr => Ok(shifted_right(signedness, a, b)),
        BinaryOperator::BitAnd => Ok(a & b),
        BinaryOperator::BitOr => Ok(a | b),
        BinaryOperator::BitXor => Ok(a ^ b),
        BinaryOperator::Eq => Ok(truth(a == b)),
        BinaryOperator::Ne => Ok(truth(a != b)),
        BinaryOperator::Lt => Ok(truth(is_less(signedness, a, b))),
        BinaryOperator::Le => Ok(truth(is_at_most(signedness, a, b))),
        BinaryOperator::Gt => Ok(truth(is_less(signedness, b, a))),
        BinaryOperator::Ge => Ok(truth(is_at_most(signedness, b, a))),
    }
}

/// The result of an operator on one word.
pub fn unary(operator: UnaryOperator, a: u32) -> u32
    ensures { result ≡ o.unary_result operator a }
{
    match operator {
        UnaryOperator::Neg => sub(0, a),
        UnaryOperator::Plus => a,
        UnaryOperator::BitNot => !a,
        UnaryOperator::Not => truth(a == 0),
    }
}
