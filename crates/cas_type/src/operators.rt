//! What is found of an expression by what is found of its operands.

ghost use Rattle.std.specs.Prelude.{◌≡◌, IfOk};
ghost use Rattle.cas_type.specs.View.{found_of, left_of, right_of};
ghost use Rattle.cas_base.specs.declared.kind.Kind.TheVariants.{I32};
ghost use Rattle.cas_base.specs.declared.kind.Ty.TheVariants.{Int};
ghost use Rattle.cas_typed.specs.Resolved.{compare, typed_expr_tree};
ghost use Rattle.cas_typed.specs.Resolving as r;

use crate::found::{Found, Operands, null, pair, pointer, word};
use crate::kinds::{common_kind, promoted_kind, signedness};
use cas_base::{Kind, NoMemory};
use cas_syntax::BinaryOperator;
use cas_typed::TypedExpr;
use std::alloc::Global;

/// Of an arithmetic operator on two integers.
pub fn arithmetic(
    alloc: Global,
    operator: BinaryOperator,
    operands: Operands,
) -> Result<Found, NoMemory>
    ensures { IfOk result (λ found. found_of found ≡ r.arithmetic operator (left_of operands) (right_of operands)) }
{
    match operands {
        Operands::Words(a, j, b, k) => {
            let kind = common_kind(j, k);
            let expr = TypedExpr::Binary(operator, signedness(kind), a, b);
            word(alloc, expr, kind)
        }
        Operands::PointerAndWord(..) | Operands::WordAndPointer(..) | Operands::Pointers(..) => {
            Ok(Found::Unfit)
        }
    }
}

/// Of `+`: a pointer may stand on one side.
pub fn sum(alloc: Global, operands: Operands) -> Result<Found, NoMemory>
    ensures { IfOk result (λ found. found_of found ≡ r.sum (left_of operands) (right_of operands)) }
{
    match operands {
        Operands::Words(..) => arithmetic(alloc, BinaryOperator::Add, operands),
        Operands::PointerAndWord(p, k, e, j) => {
            let expr = TypedExpr::PointerPlus(signedness(j), p, e);
            pointer(alloc, expr, k)
        }
        Operands::WordAndPointer(e, j, p, k) => {
            let expr = TypedExpr::PlusPointer(signedness(j), e, p);
            pointer(alloc, expr, k)
        }
        Operands::Pointers(..) => Ok(Found::Unfit),
    }
}

/// Of `-`: a number from a pointer, or a pointer from one of its kind.
pub fn difference(alloc: Global, operands: Operands) -> Result<Found, NoMemory>
    ensures { IfOk result (λ found. found_of found ≡ r.difference (left_of operands) (right_of operands)) }
{
    match operands {
        Operands::Words(..) => arithmetic(alloc, BinaryOperator::Sub, operands),
        Operands::PointerAndWord(p, k, e, j) => {
            let expr = TypedExpr::PointerMinus(signedness(j), p, e);
            pointer(alloc, expr, k)
        }
        Operands::WordAndPointer(..) => Ok(Found::Unfit),
        Operands::Pointers(p, j, q, k) => {
            if !j.same(k) {
                return Ok(Found::Unfit);
            }
            word(alloc, TypedExpr::PointerDifference(p, q), Kind::I32)
        }
    }
}

/// Of a shift, whose left operand alone gives the kind.
pub fn shift(alloc: Global, operator: BinaryOperator, operands: Operands) -> Result<Found, NoMemory>
    ensures { IfOk result (λ found. found_of found ≡ r.shift operator (left_of operands) (right_of operands)) }
{
    match operands {
        Operands::Words(a, j, b, _) => {
            let expr = TypedExpr::Binary(operator, signedness(j), a, b);
            word(alloc, expr, promoted_kind(j))
        }
        Operands::PointerAndWord(..) | Operands::WordAndPointer(..) | Operands::Pointers(..) => {
            Ok(Found::Unfit)
        }
    }
}

/// Of an operator that compares two integers, or two pointers of one kind.
pub fn order(alloc: Global, operator: BinaryOperator, operands: Operands) -> Result<Found, NoMemory>
    ensures { IfOk result (λ found. found_of found ≡ r.order operator (left_of operands) (right_of operands)) }
{
    match operands {
        Operands::Words(a, j, b, k) => {
            let signs = signedness(common_kind(j, k));
            let expr = TypedExpr::Binary(operator, signs, a, b);
            word(alloc, expr, Kind::I32)
        }
        Operands::Pointers(p, j, q, k) => {
            if !j.same(k) {
                return Ok(Found::Unfit);
            }
            compared(alloc, operator, p, q)
        }
        Operands::PointerAndWord(..) | Operands::WordAndPointer(..) => Ok(Found::Unfit),
    }
}

// Two pointers, compared.
fn compared(
    alloc: Global,
    operator: BinaryOperator,
    left: Box<TypedExpr>,
    right: Box<TypedExpr>,
) -> Result<Found, NoMemory>
    ensures { IfOk result (λ found. found_of found ≡ r.fits
        (compare operator (typed_expr_tree left.value) (typed_expr_tree right.value)) (Int I32)) }
{
    word(alloc, TypedExpr::Compare(operator, left, right), Kind::I32)
}

/// Of `==` or `!=`: the literal 0 on one side stands for the null pointer where a pointer is on the other.
pub fn equality(
    alloc: Global,
    operator: BinaryOperator,
    left_null: bool,
    right_null: bool,
    operands: Operands,
) -> Result<Found, NoMemory>
    ensures { IfOk result (λ found. found_of found ≡ r.equality operator left_null right_null (left_of operands)
        (right_of operands)) }
{
    match operands {
        Operands::PointerAndWord(p, _, _, _) => {
            if !right_null {
                return Ok(Found::Unfit);
            }
            compared(alloc, operator, p, null(alloc)?)
        }
        Operands::WordAndPointer(_, _, q, _) => {
            if !left_null {
                return Ok(Found::Unfit);
            }
            compared(alloc, operator, null(alloc)?, q)
        }
        Operands::Words(..) | Operands::Pointers(..) => order(alloc, operator, operands),
    }
}

/// Of an operator with two operands; whether they are the literal 0 is told.
pub fn binary(
    alloc: Global,
    operator: BinaryOperator,
    left_null: bool,
    right_null: bool,
    left: Found,
    right: Found,
) -> Result<Found, NoMemory>
    ensures { IfOk result (λ found. found_of found ≡ r.binary_found operator left_null right_null (found_of left)
        (found_of right)) }
{
    match pair(left, right) {
        Some(operands) => operate(alloc, operator, left_null, right_null, operands),
        None => Ok(Found::Unfit),
    }
}

// Of an operator with two operands that fit.
fn operate(
    alloc: Global,
    operator: BinaryOperator,
    left_null: bool,
    right_null: bool,
    operands: Operands,
) -> Result<Found, NoMemory>
    ensures { IfOk result (λ found. found_of found ≡ r.binary_found operator left_null right_null (left_of operands)
        (right_of operands)) }
{
    match operator {
        BinaryOperator::Add => sum(alloc, operands),
        BinaryOperator::Sub => difference(alloc, operands),
        BinaryOperator::Mul
        | BinaryOperator::Div
        | BinaryOperator::Mod
        | BinaryOperator::BitAnd
        | BinaryOperator::BitOr
        | BinaryOperator::BitXor => arithmetic(alloc, operator, operands),
        BinaryOperator::Shl | BinaryOperator::Shr => shift(alloc, operator, operands),
        BinaryOperator::Eq | BinaryOperator::Ne => {
            equality(alloc, operator, left_null, right_null, operands)
        }
        BinaryOperator::Lt | BinaryOperator::Le | BinaryOperator::Gt | BinaryOperator::Ge => {
            order(alloc, operator, operands)
        }
    }
}
