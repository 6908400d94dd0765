//! What expressions are resolved to.

ghost use Rattle.std.specs.Prelude.{◌≡◌, IfOk};
ghost use Rattle.cas_syntax.specs.Tree.{expr_tree};
ghost use Rattle.cas_type.specs.View.{boxed_tree, found_of, meaning_of};
ghost use Rattle.cas_typed.specs.Types.{is_null};
ghost use Rattle.cas_typed.specs.Resolving as r;

use crate::forms::{
    both_tested, cell_behind, choice, converted, either_tested, element_behind, given,
    pointer_to_element, tested, unary,
};
use crate::found::{Found, both_ok, pointer, word};
use crate::kinds::signedness;
use crate::operators::binary;
use crate::scope::{Meaning, Scopes, variable_ty};
use cas_base::{Kind, NoMemory, Ty};
use cas_syntax::{Expr, Ident};
use cas_typed::TypedExpr;
use std::alloc::Global;

/// Whether this is the literal 0, which also stands for the null pointer.
pub fn is_zero(expr: &Expr) -> bool
    ensures { result ≡ is_null (expr_tree expr.now) }
{
    match expr {
        Expr::Lit(value, kind) => match *kind {
            Kind::I32 => *value == 0,
            Kind::I8 | Kind::U8 | Kind::I16 | Kind::U16 | Kind::U32 => false,
        },
        Expr::Name(_)
        | Expr::Index(..)
        | Expr::Deref(_)
        | Expr::Addr(_)
        | Expr::AddrIndex(..)
        | Expr::Unary(..)
        | Expr::Cast(..)
        | Expr::Binary(..)
        | Expr::And(..)
        | Expr::Or(..)
        | Expr::Cond(..) => false,
    }
}

/// Of a name alone.
pub fn named(alloc: Global, ident: &Ident, meaning: Meaning<'_>) -> Result<Found, NoMemory>
    ensures { IfOk result (λ found. found_of found ≡ r.named ident.now (meaning_of meaning.entry)) }
{
    match meaning {
        Meaning::Undeclared => Ok(Found::Unfit),
        Meaning::Variable(n, ty) => match ty {
            Ty::Int(k) => word(alloc, TypedExpr::Local(n), k),
            Ty::Ptr(k) => pointer(alloc, TypedExpr::Local(n), k),
            Ty::Array(k, _) => pointer(alloc, TypedExpr::PlaceOf(n), k),
            Ty::Void => Ok(Found::Unfit),
        },
        Meaning::Item(g, form) => match variable_ty(form) {
            Some(Ty::Int(k)) => word(alloc, TypedExpr::Global(g, ident.place), k),
            Some(Ty::Void) | Some(Ty::Ptr(_)) | Some(Ty::Array(..)) | None => Ok(Found::Unfit),
        },
    }
}

/// Of `x[e]`, by what is found of `e`.
pub fn indexed(
    alloc: Global,
    ident: &Ident,
    meaning: Meaning<'_>,
    index: Found,
) -> Result<Found, NoMemory>
    ensures { IfOk result (λ found. found_of found ≡ r.indexed ident.now (meaning_of meaning.entry) (found_of index)) }
{
    match meaning {
        Meaning::Item(g, form) => match variable_ty(form) {
            Some(Ty::Array(k, _)) => match index {
                Found::Word(e, j) => {
                    let expr = TypedExpr::Element(g, ident.place, signedness(j), e);
                    word(alloc, expr, k)
                }
                Found::Unfit | Found::Pointer(..) => Ok(Found::Unfit),
            },
            Some(Ty::Void) | Some(Ty::Int(_)) | Some(Ty::Ptr(_)) | None => Ok(Found::Unfit),
        },
        Meaning::Undeclared | Meaning::Variable(..) => {
            element_behind(alloc, named(alloc, ident, meaning)?, index)
        }
    }
}

/// Of `&x`.
pub fn pointer_to(alloc: Global, meaning: Meaning<'_>) -> Result<Found, NoMemory>
    ensures { IfOk result (λ found. found_of found ≡ r.pointer_to (meaning_of meaning.entry)) }
{
    match meaning {
        Meaning::Variable(n, ty) => match ty {
            Ty::Int(k) => pointer(alloc, TypedExpr::PlaceOf(n), k),
            Ty::Void | Ty::Ptr(_) | Ty::Array(..) => Ok(Found::Unfit),
        },
        Meaning::Undeclared | Meaning::Item(..) => Ok(Found::Unfit),
    }
}

/// Of an expression.
pub fn resolve(alloc: Global, scopes: &Scopes<'_>, expr: &Expr) -> Result<Found, NoMemory>
    ensures { IfOk result (λ found. found_of found ≡ r.resolved scopes.now (expr_tree expr.now)) }
{
    match expr {
        Expr::Lit(value, kind) => word(alloc, TypedExpr::Literal(*value), *kind),
        Expr::Name(ident) => named(alloc, ident, scopes.meaning(ident)),
        Expr::Index(ident, index) => {
            let index = resolve(alloc, scopes, index)?;
            indexed(alloc, ident, scopes.meaning(ident), index)
        }
        Expr::Deref(pointer) => cell_behind(alloc, resolve(alloc, scopes, pointer)?),
        Expr::Addr(ident) => pointer_to(alloc, scopes.meaning(ident)),
        Expr::AddrIndex(ident, index) => {
            let index = resolve(alloc, scopes, index)?;
            let array = named(alloc, ident, scopes.meaning(ident))?;
            pointer_to_element(alloc, array, index)
        }
        Expr::Unary(operator, a) => unary(alloc, *operator, resolve(alloc, scopes, a)?),
        Expr::Cast(kind, a) => converted(alloc, *kind, resolve(alloc, scopes, a)?),
        Expr::Binary(operator, a, b) => {
            let (left, right) = both_ok(resolve(alloc, scopes, a), resolve(alloc, scopes, b))?;
            binary(alloc, *operator, is_zero(a), is_zero(b), left, right)
        }
        Expr::And(a, b) => {
            let (left, right) = both_ok(resolve(alloc, scopes, a), resolve(alloc, scopes, b))?;
            both_tested(alloc, left, right)
        }
        Expr::Or(a, b) => {
            let (left, right) = both_ok(resolve(alloc, scopes, a), resolve(alloc, scopes, b))?;
            either_tested(alloc, left, right)
        }
        Expr::Cond(c, a, b) => {
            let test = tested(alloc, resolve(alloc, scopes, c)?)?;
            let (left, right) = both_ok(resolve(alloc, scopes, a), resolve(alloc, scopes, b))?;
            choice(alloc, test, is_zero(a), is_zero(b), left, right)
        }
    }
}

/// Of an expression where a value of a type is wanted.
pub fn value_of(
    alloc: Global,
    scopes: &Scopes<'_>,
    expr: &Expr,
    ty: Ty,
) -> Result<Option<Box<TypedExpr>>, NoMemory>
    ensures { IfOk result (λ value. boxed_tree value ≡ r.value_of scopes.now (expr_tree expr.now) ty) }
{
    given(alloc, ty, is_zero(expr), resolve(alloc, scopes, expr)?)
}
