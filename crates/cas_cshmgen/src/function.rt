//! What is made of a function.

ghost use Rattle.std.specs.Prelude.{◌≡◌, ◌≤◌, ◌<◌, ℕ, IfOk, OnOk, length, map, All};
ghost use Rattle.cas_base.specs.Ty.{words_of_ty};
ghost use Rattle.cas_check.specs.View.{IsTable};
ghost use Rattle.cas_clight.specs.Units.{function_of};
ghost use Rattle.cas_mid.specs.Code.{csharp_list, csharp_routine, csharp_statement, parameter_count};
ghost use Rattle.cas_mid.specs.Trees as x;
ghost use Rattle.cas_syntax.specs.Tree.{fun_tree};
ghost use Rattle.cas_typed.specs.Counts.{parameter_types};
ghost use Rattle.cas_typed.specs.Numbered.{AreRows, IsFunctionOf};
ghost use Rattle.cas_typed.specs.Resolved.{TypedFunTree, TypedStmtList};
ghost use Rattle.cas_cshmgen.specs.Makes.{Csharps, closing, made_body, made_routine, made_stmts, stored_arguments};

use crate::parts::seq;
use crate::stmt::{Body, make_all};
use cas_base::{Decl, Form, NoMemory, Seq, Ty};
use cas_mid::{Address, AddressOf, CsharpFun, CsharpStmt, Expr, Stmt};
use cas_syntax::Fun;
use cas_typed::{Local, TypedFun, return_type};
use std::alloc::Global;

// So many locals get the arguments, which come in the temporaries with their numbers.
#[tactic(auto, using(crate::proofs::Functions::one_stored, crate::proofs::Functions::none_stored))]
fn store_arguments(alloc: Global, count: u32) -> Result<Vec<CsharpStmt>, NoMemory>
    ensures { IfOk result (λ made. (rest : Csharps) → csharp_list made.items rest ≡ stored_arguments 0 count rest) }
{
    let mut all = Vec::new(alloc);
    for k in 0..count {
        all.push(Stmt::Store(Address::Pointer(Expr::Own(AddressOf(k))), Expr::Temp(k)))?;
    }
    Ok(all)
}

// What a function returns that falls off its end.
#[tactic(auto, using(crate::proofs::Statements::list_after))]
fn close(all: &mut Vec<CsharpStmt>, ret: Ty) -> Result<(), NoMemory>
    ensures { OnOk result (csharp_list all.new.items x.no_more ≡ csharp_list all.old.items (closing ret)) }
{
    match ret {
        Ty::Int(_) | Ty::Ptr(_) => Ok(all.push(Stmt::Return(Some(Expr::Word(0))))?),
        Ty::Void | Ty::Array(_, _) => Ok(()),
    }
}

// A body with these statements, in a function with so many parameters.
fn make_body(alloc: Global, body: Body<'_>, ret: Ty, parts: &[u32]) -> Result<CsharpStmt, NoMemory>
    requires table { IsTable body.rows.now }
    requires within { All (λ i. (0 ≤ i) × (i < length body.rows.now)) parts.now }
    ensures { (bs : TypedStmtList) → AreRows body.entry.rows.now 0 bs parts.now
        → IfOk result (λ made. csharp_statement made ≡ x.seq (stored_arguments 0 body.entry.result
        (made_stmts body.entry.decls.now body.entry.result bs (closing ret)))) }
{
    let mut all = store_arguments(alloc, body.result)?;
    let mut stmts = make_all(alloc, body, 0, parts)?;
    all.append(&mut stmts)?;
    close(&mut all, ret)?;
    Ok(seq(all))
}

// The words of locals.
fn sizes(alloc: Global, locals: &[Local]) -> Result<Seq<u32>, NoMemory>
    ensures { IfOk result (λ made. made ≡ map words_of_ty (map (λ v. v.ty) locals.now)) }
{
    let mut sizes = Vec::new(alloc);
    for local in locals {
        sizes.push(local.ty.words())?;
    }
    Ok(Seq::of(sizes))
}

// How many parameters a function of this form has.
fn parameters(form: &Form) -> u32
    requires { length (parameter_types form.now) ≤ 16 }
    ensures types { result ≡ length (parameter_types form.now) }
    ensures count { result ≡ parameter_count form.now }
{
    match form {
        Form::Function { params, .. } => params.as_slice().len() as u32,
        Form::Lock | Form::Shared { .. } | Form::Table { .. } => 0,
    }
}

/// What is made of a function of a module with these declarations.
pub fn make_fun(
    alloc: Global,
    decls: &[Decl],
    fun: &Fun,
    typed: &TypedFun,
) -> Result<CsharpFun, NoMemory>
    requires parameters { length (parameter_types fun.now.decl.form) ≤ 16 }
    requires table { IsTable typed.now.rows }
    requires within { All (λ i. (0 ≤ i) × (i < length typed.now.rows)) typed.now.body }
    ensures decl { IfOk result (λ made. made.decl ≡ fun.now.decl) }
    ensures routine { (r : TypedFunTree) → IsFunctionOf r typed.now
        → IfOk result (λ made. csharp_routine made ≡ made_routine (function_of decls.now (fun_tree fun.now) r)) }
{
    let count = parameters(&fun.decl.form);
    let body = Body {
        decls,
        rows: typed.rows.as_slice(),
        result: count,
    };
    let made = make_body(
        alloc,
        body,
        return_type(&fun.decl.form),
        typed.body.as_slice(),
    )?;
    Ok(CsharpFun {
        decl: fun.decl.copy(alloc)?,
        vars: sizes(alloc, typed.locals.as_slice())?,
        temps: count + 1,
        body: made,
    })
}
