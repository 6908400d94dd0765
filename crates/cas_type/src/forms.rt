//! What is found of an expression that isn't a binary operator's, by what is found of its parts.

ghost use Rattle.std.specs.Prelude.{◌≡◌, IfOk, Some};
ghost use Rattle.cas_type.specs.View.{boxed_tree, found_of, left_of, right_of};
ghost use Rattle.cas_typed.specs.Resolved.{typed_expr_tree};
ghost use Rattle.cas_typed.specs.Resolving as r;

use crate::found::{Found, Operands, both_ok, null, pair, pointer, word};
use crate::kinds::{common_kind, promoted_kind, signedness};
use cas_base::{Kind, NoMemory, Ty};
use cas_syntax::{BinaryOperator, UnaryOperator};
use cas_typed::TypedExpr;
use std::alloc::Global;

/// As a condition: an integer is true where it isn't 0, a pointer where it isn't null.
pub fn tested(alloc: Global, found: Found) -> Result<Option<Box<TypedExpr>>, NoMemory>
    ensures { IfOk result (λ test. boxed_tree test ≡ r.tested (found_of found)) }
{
    match found {
        Found::Unfit => Ok(None),
        Found::Word(e, _) => Ok(Some(e)),
        Found::Pointer(p, _) => {
            let null = null(alloc)?;
            let expr = TypedExpr::Compare(BinaryOperator::Ne, p, null);
            Ok(Some(Box::new(alloc, expr)?))
        }
    }
}

/// Of `-a`, `+a` and `~a`.
pub fn signed(alloc: Global, operator: UnaryOperator, found: Found) -> Result<Found, NoMemory>
    ensures { IfOk result (λ whole. found_of whole ≡ r.signed operator (found_of found)) }
{
    match found {
        Found::Word(a, k) => word(alloc, TypedExpr::Unary(operator, a), promoted_kind(k)),
        Found::Unfit | Found::Pointer(..) => Ok(Found::Unfit),
    }
}

/// Of `!a`.
pub fn negated(alloc: Global, test: Option<Box<TypedExpr>>) -> Result<Found, NoMemory>
    ensures { IfOk result (λ whole. found_of whole ≡ r.negated (boxed_tree test)) }
{
    match test {
        Some(test) => word(alloc, TypedExpr::Unary(UnaryOperator::Not, test), Kind::I32),
        None => Ok(Found::Unfit),
    }
}

/// Of an operator with one operand.
pub fn unary(alloc: Global, operator: UnaryOperator, found: Found) -> Result<Found, NoMemory>
    ensures { IfOk result (λ whole. found_of whole ≡ r.unary_found operator (found_of found)) }
{
    match operator {
        UnaryOperator::Not => {
            let test = tested(alloc, found)?;
            negated(alloc, test)
        }
        UnaryOperator::Neg | UnaryOperator::Plus | UnaryOperator::BitNot => {
            signed(alloc, operator, found)
        }
    }
}

/// Of `(kind) a`.
pub fn converted(alloc: Global, kind: Kind, found: Found) -> Result<Found, NoMemory>
    ensures { IfOk result (λ whole. found_of whole ≡ r.converted kind (found_of found)) }
{
    match found {
        Found::Word(a, _) => word(alloc, TypedExpr::Narrow(kind, a), kind),
        Found::Unfit | Found::Pointer(..) => Ok(Found::Unfit),
    }
}

/// Of `*p`.
pub fn cell_behind(alloc: Global, found: Found) -> Result<Found, NoMemory>
    ensures { IfOk result (λ whole. found_of whole ≡ r.cell_behind (found_of found)) }
{
    match found {
        Found::Pointer(p, k) => word(alloc, TypedExpr::Behind(k, p), k),
        Found::Unfit | Found::Word(..) => Ok(Found::Unfit),
    }
}

/// Of `&x[e]`, by `x` and `e`.
pub fn pointer_to_element(alloc: Global, array: Found, index: Found) -> Result<Found, NoMemory>
    ensures { IfOk result (λ whole. found_of whole ≡ r.pointer_to_element (found_of array) (found_of index)) }
{
    match pair(array, index) {
        Some(Operands::PointerAndWord(p, k, e, j)) => {
            let expr = TypedExpr::PointerPlus(signedness(j), p, e);
            pointer(alloc, expr, k)
        }
        Some(Operands::Words(..))
        | Some(Operands::WordAndPointer(..))
        | Some(Operands::Pointers(..)) => Ok(Found::Unfit),
        None => Ok(Found::Unfit),
    }
}

/// Of `x[e]` where `x` is a local, by `x` and `e`.
#[tactic(auto, using(crate::proofs::By_parts::element_behind_is))]
pub fn element_behind(alloc: Global, array: Found, index: Found) -> Result<Found, NoMemory>
    ensures { IfOk result (λ whole. found_of whole ≡ r.element_behind (found_of array) (found_of index)) }
{
    let pointer = pointer_to_element(alloc, array, index)?;
    cell_behind(alloc, pointer)
}

/// Of `a && b`.
pub fn both(
    alloc: Global,
    left: Option<Box<TypedExpr>>,
    right: Option<Box<TypedExpr>>,
) -> Result<Found, NoMemory>
    ensures { IfOk result (λ whole. found_of whole ≡ r.both (boxed_tree left) (boxed_tree right)) }
{
    match left {
        Some(a) => match right {
            Some(b) => word(alloc, TypedExpr::And(a, b), Kind::I32),
            None => Ok(Found::Unfit),
        },
        None => Ok(Found::Unfit),
    }
}

/// Of `a || b`.
pub fn either(
    alloc: Global,
    left: Option<Box<TypedExpr>>,
    right: Option<Box<TypedExpr>>,
) -> Result<Found, NoMemory>
    ensures { IfOk result (λ whole. found_of whole ≡ r.either (boxed_tree left) (boxed_tree right)) }
{
    match left {
        Some(a) => match right {
            Some(b) => word(alloc, TypedExpr::Or(a, b), Kind::I32),
            None => Ok(Found::Unfit),
        },
        None => Ok(Found::Unfit),
    }
}

/// Of `a && b`, by what is found of both.
pub fn both_tested(alloc: Global, left: Found, right: Found) -> Result<Found, NoMemory>
    ensures { IfOk result (λ whole. found_of whole ≡ r.both (r.tested (found_of left)) (r.tested (found_of right))) }
{
    let (left, right) = both_ok(tested(alloc, left), tested(alloc, right))?;
    both(alloc, left, right)
}

/// Of `a || b`, by what is found of both.
pub fn either_tested(alloc: Global, left: Found, right: Found) -> Result<Found, NoMemory>
    ensures { IfOk result (λ whole. found_of whole ≡ r.either (r.tested (found_of left)) (r.tested (found_of right))) }
{
    let (left, right) = both_ok(tested(alloc, left), tested(alloc, right))?;
    either(alloc, left, right)
}

/// Where a value of a type is wanted; whether it is the literal 0 is told.
pub fn given(
    alloc: Global,
    ty: Ty,
    is_zero: bool,
    found: Found,
) -> Result<Option<Box<TypedExpr>>, NoMemory>
    ensures { IfOk result (λ value. boxed_tree value ≡ r.given ty is_zero (found_of found)) }
{
    match ty {
        Ty::Int(k) => match found {
            Found::Word(e, _) => Ok(Some(Box::new(alloc, TypedExpr::Narrow(k, e))?)),
            Found::Unfit | Found::Pointer(..) => Ok(None),
        },
        Ty::Ptr(k) => match found {
            Found::Pointer(p, j) => Ok(if j.same(k) { Some(p) } else { None }),
            Found::Word(..) => {
                if is_zero {
                    Ok(Some(null(alloc)?))
                } else {
                    Ok(None)
                }
            }
            Found::Unfit => Ok(None),
        },
        Ty::Void | Ty::Array(..) => Ok(None),
    }
}

/// Of `c ? a : b`; whether `a` and `b` are the literal 0 is told.
pub fn choice(
    alloc: Global,
    test: Option<Box<TypedExpr>>,
    left_null: bool,
    right_null: bool,
    left: Found,
    right: Found,
) -> Result<Found, NoMemory>
    ensures { IfOk result (λ whole. found_of whole ≡ r.choice (boxed_tree test) left_null right_null (found_of left)
        (found_of right)) }
{
    match pair(left, right) {
        Some(operands) => match test {
            Some(test) => chosen(alloc, test, left_null, right_null, operands),
            None => {
                drop(operands);
                Ok(Found::Unfit)
            }
        },
        None => {
            drop(test);
            Ok(Found::Unfit)
        }
    }
}

// Of a choice between operands that fit.
fn chosen(
    alloc: Global,
    test: Box<TypedExpr>,
    left_null: bool,
    right_null: bool,
    operands: Operands,
) -> Result<Found, NoMemory>
    ensures { IfOk result (λ whole. found_of whole ≡ r.choice (Some (typed_expr_tree test.value)) left_null right_null
        (left_of operands) (right_of operands)) }
{
    match operands {
        Operands::Words(a, j, b, k) => {
            word(alloc, TypedExpr::Choose(test, a, b), common_kind(j, k))
        }
        Operands::Pointers(p, j, q, k) => {
            if !j.same(k) {
                return Ok(Found::Unfit);
            }
            pointer(alloc, TypedExpr::Choose(test, p, q), j)
        }
        Operands::PointerAndWord(p, k, _, _) => {
            if !right_null {
                return Ok(Found::Unfit);
            }
            let null = null(alloc)?;
            pointer(alloc, TypedExpr::Choose(test, p, null), k)
        }
        Operands::WordAndPointer(_, _, q, k) => {
            if !left_null {
                return Ok(Found::Unfit);
            }
            let null = null(alloc)?;
            pointer(alloc, TypedExpr::Choose(test, null, q), k)
        }
    }
}
