//! What is found of an expression, and of two operands. Expressions stand behind pointers: few values then stand
//! where a function may stop early, and what the prover has to follow stays small.

ghost use Rattle.std.specs.Prelude.{◌≡◌, ◌⊎◌, IfOk, MatchOption, Ok};
ghost use Rattle.cas_base.specs.declared.kind.Ty.TheVariants.{Int, Ptr};
ghost use Rattle.cas_type.specs.View.{found_of, left_of, right_of};
ghost use Rattle.cas_typed.specs.Resolved as t;
ghost use Rattle.cas_typed.specs.Resolved.{typed_expr_tree};
ghost use Rattle.cas_typed.specs.Resolving as r;

use cas_base::{Kind, NoMemory};
use cas_typed::TypedExpr;
use std::alloc::Global;

/// What is found of an expression: that its types don't fit, or what it is resolved to, with its type.
#[derive(Drop)]
pub enum Found {
    /// Its types don't fit.
    Unfit,
    /// An integer of this kind.
    Word(Box<TypedExpr>, Kind),
    /// A pointer to a cell of this kind.
    Pointer(Box<TypedExpr>, Kind),
}

/// Two operands that fit, with their kinds.
#[derive(Drop)]
pub enum Operands {
    Words(Box<TypedExpr>, Kind, Box<TypedExpr>, Kind),
    PointerAndWord(Box<TypedExpr>, Kind, Box<TypedExpr>, Kind),
    WordAndPointer(Box<TypedExpr>, Kind, Box<TypedExpr>, Kind),
    Pointers(Box<TypedExpr>, Kind, Box<TypedExpr>, Kind),
}

/// The integer of this kind that an expression is.
pub fn word(alloc: Global, expr: TypedExpr, kind: Kind) -> Result<Found, NoMemory>
    ensures { IfOk result (λ found. found_of found ≡ r.fits (typed_expr_tree expr) (Int kind)) }
{
    let expr = Box::new(alloc, expr)?;
    Ok(Found::Word(expr, kind))
}

/// The pointer to a cell of this kind that an expression is.
pub fn pointer(alloc: Global, expr: TypedExpr, kind: Kind) -> Result<Found, NoMemory>
    ensures { IfOk result (λ found. found_of found ≡ r.fits (typed_expr_tree expr) (Ptr kind)) }
{
    let expr = Box::new(alloc, expr)?;
    Ok(Found::Pointer(expr, kind))
}

/// The null pointer.
pub fn null(alloc: Global) -> Result<Box<TypedExpr>, NoMemory>
    ensures { IfOk result (λ expr. typed_expr_tree expr.value ≡ t.null) }
{
    let expr = Box::new(alloc, TypedExpr::Null)?;
    Ok(expr)
}

/// Both values, unless one of them ran out of memory. Neither is held while the other is computed.
pub fn both_ok<T: Drop>(
    left: Result<T, NoMemory>,
    right: Result<T, NoMemory>,
) -> Result<(T, T), NoMemory>
    ensures { IfOk result (λ both. (left ≡ Ok both.0) × (right ≡ Ok both.1)) }
{
    match left {
        Ok(left) => match right {
            Ok(right) => Ok((left, right)),
            Err(error) => {
                drop(left);
                Err(error)
            }
        },
        Err(error) => {
            drop(right);
            Err(error)
        }
    }
}

/// Both operands, where both fit.
pub fn pair(left: Found, right: Found) -> Option<Operands>
    ensures { MatchOption result ((found_of left ≡ r.unfit) ⊎ (found_of right ≡ r.unfit))
        (λ o. (left_of o ≡ found_of left) × (right_of o ≡ found_of right)) }
{
    match left {
        Found::Unfit => None,
        Found::Word(a, j) => match right {
            Found::Unfit => None,
            Found::Word(b, k) => Some(Operands::Words(a, j, b, k)),
            Found::Pointer(b, k) => Some(Operands::WordAndPointer(a, j, b, k)),
        },
        Found::Pointer(a, j) => match right {
            Found::Unfit => None,
            Found::Word(b, k) => Some(Operands::PointerAndWord(a, j, b, k)),
            Found::Pointer(b, k) => Some(Operands::Pointers(a, j, b, k)),
        },
    }
}
