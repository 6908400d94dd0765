//! The faults of names in expressions, in order of text: names that aren't declared, and names of globals and pointers
//! where these may not stand.

ghost use Rattle.cas_syntax.specs.Tree.{expr_tree};
ghost use Rattle.cas_type.specs.Answer.{Passes};
ghost use Rattle.cas_type.specs.View.{meaning_of};
ghost use Rattle.cas_typed.specs.Walk as w;

use crate::fault::{TypeFault, refuse};
use crate::scope::{Meaning, Scopes};
use cas_base::{Form, Ty};
use cas_syntax::{Expr, Ident};
use cas_typed::TypeCode;
use std::alloc::Global;

/// Of a name that must be declared.
pub fn check_declared(alloc: Global, ident: &Ident, meaning: Meaning<'_>) -> Result<(), TypeFault>
    ensures { Passes result (w.fault_of_name ident.now (meaning_of meaning.entry)) }
{
    match meaning {
        Meaning::Undeclared => refuse(alloc, TypeCode::T1, ident),
        Meaning::Variable(..) | Meaning::Item(..) => Ok(()),
    }
}

/// Of a name alone, which may mean no global array.
pub fn check_alone(alloc: Global, ident: &Ident, meaning: Meaning<'_>) -> Result<(), TypeFault>
    ensures { Passes result (w.fault_alone ident.now (meaning_of meaning.entry)) }
{
    match meaning {
        Meaning::Undeclared => refuse(alloc, TypeCode::T1, ident),
        Meaning::Variable(..) => Ok(()),
        Meaning::Item(_, form) => match form {
            Form::Shared { ty, .. } | Form::Table { ty } => match *ty {
                Ty::Array(..) => refuse(alloc, TypeCode::T6, ident),
                Ty::Void | Ty::Int(_) | Ty::Ptr(_) => Ok(()),
            },
            Form::Lock | Form::Function { .. } => Ok(()),
        },
    }
}

/// Of `&x`, where `x` may be no global and no pointer variable.
pub fn check_address(alloc: Global, ident: &Ident, meaning: Meaning<'_>) -> Result<(), TypeFault>
    ensures { Passes result (w.fault_of_address ident.now (meaning_of meaning.entry)) }
{
    match meaning {
        Meaning::Undeclared => refuse(alloc, TypeCode::T1, ident),
        Meaning::Variable(_, ty) => match ty {
            Ty::Ptr(_) => refuse(alloc, TypeCode::T6, ident),
            Ty::Void | Ty::Int(_) | Ty::Array(..) => Ok(()),
        },
        Meaning::Item(_, form) => match form {
            Form::Shared { .. } | Form::Table { .. } => refuse(alloc, TypeCode::T6, ident),
            Form::Lock | Form::Function { .. } => Ok(()),
        },
    }
}

/// Of `&x[e]`, where `x` may be no global.
pub fn check_element(alloc: Global, ident: &Ident, meaning: Meaning<'_>) -> Result<(), TypeFault>
    ensures { Passes result (w.fault_of_element ident.now (meaning_of meaning.entry)) }
{
    match meaning {
        Meaning::Undeclared => refuse(alloc, TypeCode::T1, ident),
        Meaning::Variable(..) => Ok(()),
        Meaning::Item(_, form) => match form {
            Form::Shared { .. } | Form::Table { .. } => refuse(alloc, TypeCode::T6, ident),
            Form::Lock | Form::Function { .. } => Ok(()),
        },
    }
}

/// Of an expression: the first in order of text.
#[tactic(auto, using(crate::proofs::By_parts::refuses_sooner))]
pub fn check_names(alloc: Global, scopes: &Scopes<'_>, expr: &Expr) -> Result<(), TypeFault>
    ensures { Passes result (w.names_fault scopes.now (expr_tree expr.now)) }
{
    match expr {
        Expr::Lit(..) => Ok(()),
        Expr::Name(ident) => check_alone(alloc, ident, scopes.meaning(ident)),
        Expr::Index(ident, index) => {
            check_declared(alloc, ident, scopes.meaning(ident))?;
            check_names(alloc, scopes, index)
        }
        Expr::Deref(a) | Expr::Unary(_, a) | Expr::Cast(_, a) => check_names(alloc, scopes, a),
        Expr::Addr(ident) => check_address(alloc, ident, scopes.meaning(ident)),
        Expr::AddrIndex(ident, index) => {
            check_element(alloc, ident, scopes.meaning(ident))?;
            check_names(alloc, scopes, index)
        }
        Expr::Binary(_, a, b) | Expr::And(a, b) | Expr::Or(a, b) => {
            check_names(alloc, scopes, a)?;
            check_names(alloc, scopes, b)
        }
        Expr::Cond(c, a, b) => {
            check_names(alloc, scopes, c)?;
            check_names(alloc, scopes, a)?;
            check_names(alloc, scopes, b)
        }
    }
}
