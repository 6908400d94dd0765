//! Statements from their parts.

ghost use Rattle.std.specs.Prelude.{◌≡◌, IfOk, Some, map};
ghost use Rattle.cas_mid.specs.Code.{csharp_expression, csharp_list, csharp_statement, csharp_target};
ghost use Rattle.cas_mid.specs.Trees as x;
ghost use Rattle.cas_typed.specs.Numbered.{optional_expr_tree};
ghost use Rattle.cas_typed.specs.Resolved.{typed_expr_tree, typed_target_tree};
ghost use Rattle.cas_cshmgen.specs.Makes.{keeps, made_call, made_condition, made_expr, made_return, made_target, tests};

use crate::expr::{condition, make_expr, make_exprs, name_at};
use cas_base::{Decl, NoMemory, Ty};
use cas_mid::{Address, AddressOf, CsharpAddress, CsharpExpr, CsharpStmt, Expr, Stmt, Unop};
use cas_typed::{Destination, TypedExpr, TypedTarget};
use std::alloc::Global;

/// Statements one after another.
#[tactic(auto, using(crate::proofs::Statements::seq_is))]
pub fn seq(all: Vec<CsharpStmt>) -> CsharpStmt
    ensures { csharp_statement result ≡ x.seq (csharp_list all.items x.no_more) }
{
    Stmt::Seq(all)
}

/// A Block.
pub fn block(alloc: Global, a: CsharpStmt) -> Result<CsharpStmt, NoMemory>
    ensures { IfOk result (λ made. csharp_statement made ≡ x.block (csharp_statement a)) }
{
    Ok(Stmt::Block(Box::new(alloc, a)?))
}

/// A Block with a Loop of these statements.
pub fn loop_of(alloc: Global, all: Vec<CsharpStmt>) -> Result<CsharpStmt, NoMemory>
    ensures { IfOk result (λ made. csharp_statement made ≡ x.block (x.loop (x.seq (csharp_list all.items x.no_more)))) }
{
    let turn = Box::new(alloc, seq(all))?;
    block(alloc, Stmt::Loop(turn))
}

/// An IfElse.
pub fn if_else(
    alloc: Global,
    c: CsharpExpr,
    a: CsharpStmt,
    b: CsharpStmt,
) -> Result<CsharpStmt, NoMemory>
    ensures { IfOk result (λ made. csharp_statement made ≡ x.if_else (csharp_expression c) (csharp_statement a)
        (csharp_statement b)) }
{
    let a = Box::new(alloc, a)?;
    let b = Box::new(alloc, b)?;
    Ok(Stmt::IfElse(c, a, b))
}

/// A condition.
pub fn make_condition(alloc: Global, decls: &[Decl], c: &TypedExpr) -> Result<CsharpExpr, NoMemory>
    ensures { IfOk result (λ made. csharp_expression made ≡ made_condition decls.now (typed_expr_tree c.now)) }
{
    Ok(condition(make_expr(alloc, decls, c)?))
}

/// A condition that leaves the loop where it is false.
pub fn test(alloc: Global, decls: &[Decl], c: &TypedExpr) -> Result<CsharpStmt, NoMemory>
    ensures { IfOk result (λ made. csharp_statement made ≡ tests decls.now (Some (typed_expr_tree c.now))) }
{
    let c = make_condition(alloc, decls, c)?;
    if_else(alloc, c, Stmt::Skip, Stmt::Exit(0))
}

/// The same, where a missing condition is true.
pub fn optional_test(
    alloc: Global,
    decls: &[Decl],
    c: &Option<TypedExpr>,
) -> Result<CsharpStmt, NoMemory>
    ensures { IfOk result (λ made. csharp_statement made ≡ tests decls.now (optional_expr_tree c.now)) }
{
    match c {
        Some(c) => test(alloc, decls, c),
        None => Ok(Stmt::Skip),
    }
}

// The target of an assignment.
fn make_target(
    alloc: Global,
    decls: &[Decl],
    target: &TypedTarget,
) -> Result<CsharpAddress, NoMemory>
    ensures { IfOk result (λ made. csharp_target made ≡ made_target decls.now (typed_target_tree target.now)) }
{
    match target {
        TypedTarget::Local(n) => Ok(Address::Pointer(Expr::Own(AddressOf(*n)))),
        TypedTarget::Global(g, _) => Ok(Address::Global(name_at(alloc, decls, *g)?)),
        TypedTarget::Element(g, _, sign, index) => {
            let index = make_expr(alloc, decls, index)?;
            Ok(Address::Element(name_at(alloc, decls, *g)?, *sign, index))
        }
        TypedTarget::Behind(_, p) => Ok(Address::Pointer(make_expr(alloc, decls, p)?)),
    }
}

/// An assignment.
pub fn assign(
    alloc: Global,
    decls: &[Decl],
    target: &TypedTarget,
    value: &TypedExpr,
) -> Result<CsharpStmt, NoMemory>
    ensures { IfOk result (λ made. csharp_statement made ≡ x.store (made_target decls.now
        (typed_target_tree target.now)) (made_expr decls.now (typed_expr_tree value.now))) }
{
    let target = make_target(alloc, decls, target)?;
    let value = make_expr(alloc, decls, value)?;
    Ok(Stmt::Store(target, value))
}

// The local gets a result from a temporary.
fn keep(alloc: Global, kept: Destination, from: u32) -> Result<CsharpStmt, NoMemory>
    ensures { IfOk result (λ made. csharp_statement made ≡ keeps kept from) }
{
    let value = match kept.ty {
        Ty::Int(kind) => Expr::Unop(Unop::Narrow(kind), Box::new(alloc, Expr::Temp(from))?),
        Ty::Void | Ty::Ptr(_) | Ty::Array(_, _) => Expr::Temp(from),
    };
    Ok(Stmt::Store(Address::Pointer(Expr::Own(AddressOf(kept.local))), value))
}

/// A call, whose result comes in this temporary.
pub fn call(
    alloc: Global,
    decls: &[Decl],
    from: u32,
    kept: Option<Destination>,
    item: u32,
    args: &[TypedExpr],
) -> Result<CsharpStmt, NoMemory>
    ensures { IfOk result (λ made. csharp_statement made ≡ made_call decls.now from kept item
        (map typed_expr_tree args.now)) }
{
    let args = make_exprs(alloc, decls, args)?;
    let name = name_at(alloc, decls, item)?;
    match kept {
        None => Ok(Stmt::Call(None, name, args)),
        Some(kept) => {
            let keeps = keep(alloc, kept, from)?;
            Ok(seq(vec![in alloc; Stmt::Call(Some(from), name, args), keeps]?))
        }
    }
}

/// A return.
pub fn return_stmt(
    alloc: Global,
    decls: &[Decl],
    value: &Option<TypedExpr>,
) -> Result<CsharpStmt, NoMemory>
    ensures { IfOk result (λ made. csharp_statement made ≡ made_return decls.now (optional_expr_tree value.now)) }
{
    match value {
        Some(value) => Ok(Stmt::Return(Some(make_expr(alloc, decls, value)?))),
        None => Ok(Stmt::Return(None)),
    }
}

/// A print.
pub fn print(alloc: Global, decls: &[Decl], value: &TypedExpr) -> Result<CsharpStmt, NoMemory>
    ensures { IfOk result (λ made. csharp_statement made ≡ x.print (made_expr decls.now (typed_expr_tree value.now))) }
{
    Ok(Stmt::Print(make_expr(alloc, decls, value)?))
}
