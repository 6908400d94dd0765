//! Calls: where results are kept, and arguments.

ghost use Rattle.std.specs.Prelude.{◌≡◌, IfOk, map};
ghost use Rattle.std.specs.Option.{option_copied};
ghost use Rattle.cas_syntax.specs.Tree.{expr_tree};
ghost use Rattle.cas_type.specs.Answer.{Answers, Passes};
ghost use Rattle.cas_type.specs.View.{called_tree, extended, meaning_of, values_if, values_tree};
ghost use Rattle.cas_typed.specs.Resolved.{typed_expr_tree};
ghost use Rattle.cas_typed.specs.Resolving as r;
ghost use Rattle.cas_typed.specs.Walk as w;

use crate::fault::{TypeFault, misfit, refusal};
use crate::names::{check_alone, check_declared, check_names};
use crate::resolve::value_of;
use crate::scope::{Meaning, Scopes};
use cas_base::{Form, NoMemory, Place, Seq, Ty};
use cas_syntax::{Expr, Ident};
use cas_typed::{Destination, TypeCode, TypedExpr};
use std::alloc::Global;

/// A call: where its result is kept, the number of the function's item, and the arguments' values.
#[derive(Drop)]
pub struct Called {
    pub kept: Option<Destination>,
    pub item: u32,
    pub args: Seq<TypedExpr>,
}

/// The local integer or pointer that may keep a result.
pub fn kept_in(meaning: Meaning<'_>) -> Option<Destination>
    ensures { result ≡ w.kept_in (meaning_of meaning.entry) }
{
    match meaning {
        Meaning::Variable(local, ty) => match ty {
            Ty::Int(_) | Ty::Ptr(_) => Some(Destination { local, ty }),
            Ty::Void | Ty::Array(..) => None,
        },
        Meaning::Undeclared | Meaning::Item(..) => None,
    }
}

/// Whether a result of this type is taken.
pub fn takes(kept: Option<Destination>, ret: Ty) -> bool
    ensures { result ≡ w.takes kept ret }
{
    match kept {
        None => true,
        Some(destination) => match destination.ty {
            Ty::Int(_) => match ret {
                Ty::Int(_) => true,
                Ty::Void | Ty::Ptr(_) | Ty::Array(..) => false,
            },
            Ty::Ptr(k) => match ret {
                Ty::Ptr(j) => j.same(k),
                Ty::Void | Ty::Int(_) | Ty::Array(..) => false,
            },
            Ty::Void | Ty::Array(..) => false,
        },
    }
}

/// The fault of the name that keeps a result.
pub fn check_keeper(
    alloc: Global,
    scopes: &Scopes<'_>,
    keeper: Option<&Ident>,
) -> Result<(), TypeFault>
    ensures { Passes result (w.result_fault scopes.now (option_copied keeper.entry)) }
{
    match keeper {
        None => Ok(()),
        Some(ident) => check_alone(alloc, ident, scopes.meaning(ident)),
    }
}

/// Where the result of a call is kept.
#[tactic(auto, using(crate::proofs::By_parts::fails_here))]
pub fn keep(
    scopes: &Scopes<'_>,
    place: Place,
    keeper: Option<&Ident>,
) -> Result<Option<Destination>, TypeFault>
    ensures { Answers (λ kept. kept) result (w.walk_result scopes.now place (option_copied keeper.entry)) }
{
    match keeper {
        None => Ok(None),
        Some(ident) => match kept_in(scopes.meaning(ident)) {
            Some(destination) => Ok(Some(destination)),
            None => Err(misfit(TypeCode::T5, place)),
        },
    }
}

/// The faults of names in arguments, in order of text.
#[tactic(auto, using(crate::proofs::By_parts::refuses_sooner))]
pub fn check_arguments(alloc: Global, scopes: &Scopes<'_>, args: &[Expr]) -> Result<(), TypeFault>
    ensures { Passes result (w.arguments_fault scopes.now (map expr_tree args.now)) }
{
    let mut rest = args;
    'each: while let Some((arg, others)) = rest.split_first() {
        check_names(alloc, scopes, arg)?;
        rest = others;
    }
    Ok(())
}

// Adds the values of arguments after others, for parameters of these types; whether each argument has one.
fn add_arguments(
    alloc: Global,
    scopes: &Scopes<'_>,
    values: &mut Vec<TypedExpr>,
    args: &[Expr],
    tys: &[Ty],
) -> Result<bool, NoMemory>
    ensures { IfOk result (λ all. values_if all values.new.items ≡ extended (map typed_expr_tree values.old.items)
        (r.values_of scopes.now (map expr_tree args.now) tys.now)) }
{
    let mut rest = args;
    let mut types = tys;
    'each: while let Some((arg, others)) = rest.split_first() {
        match types.split_first() {
            Some((ty, others_types)) => match value_of(alloc, scopes, arg, *ty)? {
                Some(value) => {
                    values.push(Box::into_inner(value))?;
                    types = others_types;
                }
                None => return Ok(false),
            },
            None => return Ok(false),
        }
        rest = others;
    }
    Ok(types.is_empty())
}

/// The values of arguments, for parameters of these types.
pub fn arguments(
    alloc: Global,
    scopes: &Scopes<'_>,
    args: &[Expr],
    tys: &[Ty],
) -> Result<Option<Seq<TypedExpr>>, NoMemory>
    ensures { IfOk result (λ values. values_tree values ≡ r.values_of scopes.now (map expr_tree args.now) tys.now) }
{
    let mut values = Vec::new(alloc);
    if add_arguments(alloc, scopes, &mut values, args, tys)? {
        Ok(Some(Seq::of(values)))
    } else {
        Ok(None)
    }
}

/// A call of what a name means.
#[tactic(auto, using(crate::proofs::By_parts::fails_here, crate::proofs::By_parts::fails_unless))]
fn callee(
    alloc: Global,
    scopes: &Scopes<'_>,
    place: Place,
    kept: Option<Destination>,
    ident: &Ident,
    args: &[Expr],
    meaning: Meaning<'_>,
) -> Result<Called, TypeFault>
    ensures { Answers (called_tree place ident.now.place) result
        (w.walk_callee scopes.now place kept ident.now (map expr_tree args.now) (meaning_of meaning.entry)) }
{
    match meaning {
        Meaning::Item(item, form) => match form {
            Form::Function { ret, params, .. } => {
                let types = params.as_slice();
                if args.len() != types.len() {
                    return Err(refusal(alloc, TypeCode::T4, ident));
                }
                if !takes(kept, *ret) {
                    return Err(misfit(TypeCode::T3, place));
                }
                match arguments(alloc, scopes, args, types)? {
                    Some(args) => Ok(Called { kept, item, args }),
                    None => Err(misfit(TypeCode::T3, place)),
                }
            }
            Form::Lock | Form::Shared { .. } | Form::Table { .. } => {
                Err(misfit(TypeCode::T3, place))
            }
        },
        Meaning::Undeclared | Meaning::Variable(..) => Err(misfit(TypeCode::T3, place)),
    }
}

/// A call, of the statement at a place.
#[tactic(auto, using(crate::proofs::By_parts::refuses_sooner, crate::proofs::By_parts::fails_unless, crate::proofs::By_parts::fails_then))]
pub fn call(
    alloc: Global,
    scopes: &Scopes<'_>,
    place: Place,
    keeper: Option<&Ident>,
    ident: &Ident,
    args: &[Expr],
) -> Result<Called, TypeFault>
    ensures { Answers (called_tree place ident.now.place) result
        (w.walk_call scopes.now place (option_copied keeper.entry) ident.now (map expr_tree args.now)) }
{
    check_keeper(alloc, scopes, keeper)?;
    check_declared(alloc, ident, scopes.meaning(ident))?;
    check_arguments(alloc, scopes, args)?;
    let kept = keep(scopes, place, keeper)?;
    callee(
        alloc,
        scopes,
        place,
        kept,
        ident,
        args,
        scopes.meaning(ident),
    )
}
