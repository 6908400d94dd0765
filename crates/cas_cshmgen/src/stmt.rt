//! What is made of statements, by their rows.

ghost use Rattle.std.specs.Prelude.{◌≡◌, ◌<◌, ◌≤◌, ◌+◌, ℕ, IfOk, length, All};
ghost use Rattle.cas_check.specs.View.{IsPartWithin, IsTable, PartsAreWithin};
ghost use Rattle.cas_mid.specs.Code.{csharp_list, csharp_statement};
ghost use Rattle.cas_mid.specs.Trees as x;
ghost use Rattle.cas_typed.specs.Numbered.{At, AreRows, IsPartRow, IsRow, optional_expr_tree};
ghost use Rattle.cas_typed.specs.Resolved.{TypedStmtTree, TypedStmtList, TypedStmtOption, typed_expr_tree};
ghost use Rattle.cas_cshmgen.specs.Makes.{Csharps, do_loop, for_loop, made_condition, made_part, made_stmt, made_stmts, one, while_loop};

use crate::expr::name_at;
use crate::parts::{
    assign, block, call, if_else, loop_of, make_condition, optional_test, print, return_stmt, seq,
    test,
};
use cas_base::{Decl, NoMemory};
use cas_mid::{CsharpStmt, Stmt};
use cas_typed::{StmtRow, StmtRowForm, TypedExpr};
use std::alloc::Global;

/// A function's body in its module: the module's declarations, the rows of the function's statements, and the temporary
/// in which results come.
#[derive(Clone, Copy)]
pub struct Body<'a> {
    pub decls: &'a [Decl],
    pub rows: &'a [StmtRow],
    pub result: u32,
}

// The row with this number.
#[tactic(auto, using(crate::proofs::Rows::row_at, crate::proofs::Rows::row_is))]
fn row_at(rows: &[StmtRow], n: u32) -> &StmtRow
    requires table { IsTable rows.now }
    requires within { n < length rows.now }
    ensures parts { PartsAreWithin n (length rows.now) result.now.form }
    ensures stands { (a : TypedStmtTree) → At rows.now n (IsRow rows.now n a)
        → IsRow rows.now n a result.now.place result.now.form }
{
    &rows[n as usize]
}

/// What is made of the statement with this number.
#[cycle(make)]
pub fn make_stmt(alloc: Global, body: Body<'_>, n: u32) -> Result<CsharpStmt, NoMemory>
    requires table { IsTable body.rows.now }
    requires within { n < length body.rows.now }
    ensures { (a : TypedStmtTree) → At body.entry.rows.now n (IsRow body.entry.rows.now n a)
        → IfOk result (λ made. csharp_statement made ≡ made_stmt body.entry.decls.now body.entry.result a) }
{
    make_row(alloc, body, n, row_at(body.rows, n))
}

// The same, with the statement's row.
#[cycle(make)]
fn make_row(alloc: Global, body: Body<'_>, n: u32, row: &StmtRow) -> Result<CsharpStmt, NoMemory>
    requires table { IsTable body.rows.now }
    requires within { n < length body.rows.now }
    requires parts { PartsAreWithin n (length body.rows.now) row.now.form }
    ensures { (a : TypedStmtTree) → IsRow body.entry.rows.now n a row.now.place row.now.form
        → IfOk result (λ made. csharp_statement made ≡ made_stmt body.entry.decls.now body.entry.result a) }
{
    match &row.form {
        StmtRowForm::Skip => Ok(Stmt::Skip),
        StmtRowForm::Assign(target, value) => assign(alloc, body.decls, target, value),
        StmtRowForm::Call(kept, item, _, args) => {
            call(
                alloc,
                body.decls,
                body.result,
                *kept,
                *item,
                args.as_slice(),
            )
        }
        StmtRowForm::Block(parts) => Ok(seq(make_all(
            alloc,
            body,
            n as usize + 1,
            parts.as_slice(),
        )?)),
        StmtRowForm::If(condition, first, second) => branch(
            alloc, body, n, condition, *first, *second,
        ),
        StmtRowForm::While(condition, inner) => make_while(alloc, body, n, condition, *inner),
        StmtRowForm::Do(inner, condition) => make_do(alloc, body, n, *inner, condition),
        StmtRowForm::For(first, condition, after, inner) => {
            make_for(alloc, body, n, *first, condition, *after, *inner)
        }
        StmtRowForm::Break => Ok(Stmt::Exit(1)),
        StmtRowForm::Continue => Ok(Stmt::Exit(0)),
        StmtRowForm::Return(value) => return_stmt(alloc, body.decls, value),
        StmtRowForm::Lock(lock) => Ok(Stmt::Lock(name_at(alloc, body.decls, *lock)?)),
        StmtRowForm::Unlock(lock) => Ok(Stmt::Unlock(name_at(alloc, body.decls, *lock)?)),
        StmtRowForm::Print(value) => print(alloc, body.decls, value),
    }
}

// A part of the statement n that may be missing.
#[cycle(make)]
fn make_part(
    alloc: Global,
    body: Body<'_>,
    n: u32,
    part: Option<u32>,
) -> Result<CsharpStmt, NoMemory>
    requires table { IsTable body.rows.now }
    requires within { IsPartWithin n (length body.rows.now) part }
    ensures { (m : ℕ) (o : TypedStmtOption) → IsPartRow body.entry.rows.now m o part
        → IfOk result (λ made. csharp_statement made ≡ made_part body.entry.decls.now body.entry.result o) }
{
    match part {
        Some(part) => make_stmt(alloc, body, part),
        None => Ok(Stmt::Skip),
    }
}

/// What is made of statements one after another, whose numbers are at least this.
#[cycle(make)]
pub fn make_all(
    alloc: Global,
    body: Body<'_>,
    least: usize,
    parts: &[u32],
) -> Result<Vec<CsharpStmt>, NoMemory>
    requires table { IsTable body.rows.now }
    requires within { All (λ i. (least ≤ i) × (i < length body.rows.now)) parts.now }
    ensures { (m : ℕ) (bs : TypedStmtList) → AreRows body.entry.rows.now m bs parts.now
        → IfOk result (λ made. (after : Csharps) → csharp_list made.items after
        ≡ made_stmts body.entry.decls.now body.entry.result bs after) }
{
    let mut all = Vec::new(alloc);
    for part in parts {
        let made = make_stmt(alloc, body, *part)?;
        all.push(made)?;
    }
    Ok(all)
}

#[cycle(make)]
fn branch(
    alloc: Global,
    body: Body<'_>,
    n: u32,
    condition: &TypedExpr,
    first: u32,
    second: Option<u32>,
) -> Result<CsharpStmt, NoMemory>
    requires table { IsTable body.rows.now }
    requires first { (n < first) × (first < length body.rows.now) }
    requires second { IsPartWithin n (length body.rows.now) second }
    ensures { (a : TypedStmtTree) (m : ℕ) (o : TypedStmtOption)
        → At body.entry.rows.now first (IsRow body.entry.rows.now first a)
        → IsPartRow body.entry.rows.now m o second
        → IfOk result (λ made. csharp_statement made ≡ x.if_else (made_condition body.entry.decls.now
        (typed_expr_tree condition.now)) (made_stmt body.entry.decls.now body.entry.result a)
        (made_part body.entry.decls.now body.entry.result o)) }
{
    let condition = make_condition(alloc, body.decls, condition)?;
    let yes = make_stmt(alloc, body, first)?;
    let no = make_part(alloc, body, n, second)?;
    if_else(alloc, condition, yes, no)
}

// A turn of a loop.
#[cycle(make)]
fn turn(alloc: Global, body: Body<'_>, n: u32, inner: u32) -> Result<CsharpStmt, NoMemory>
    requires table { IsTable body.rows.now }
    requires inner { (n < inner) × (inner < length body.rows.now) }
    ensures { (a : TypedStmtTree) → At body.entry.rows.now inner (IsRow body.entry.rows.now inner a)
        → IfOk result (λ made. csharp_statement made ≡ x.block (made_stmt body.entry.decls.now body.entry.result a)) }
{
    let inner = make_stmt(alloc, body, inner)?;
    block(alloc, inner)
}

#[cycle(make)]
fn make_while(
    alloc: Global,
    body: Body<'_>,
    n: u32,
    condition: &TypedExpr,
    inner: u32,
) -> Result<CsharpStmt, NoMemory>
    requires table { IsTable body.rows.now }
    requires inner { (n < inner) × (inner < length body.rows.now) }
    ensures { (a : TypedStmtTree) → At body.entry.rows.now inner (IsRow body.entry.rows.now inner a)
        → IfOk result (λ made. csharp_statement made ≡ x.block (while_loop body.entry.decls.now
        (typed_expr_tree condition.now) (made_stmt body.entry.decls.now body.entry.result a))) }
{
    let test = test(alloc, body.decls, condition)?;
    let turn = turn(alloc, body, n, inner)?;
    loop_of(alloc, vec![in alloc; test, turn]?)
}

#[cycle(make)]
fn make_do(
    alloc: Global,
    body: Body<'_>,
    n: u32,
    inner: u32,
    condition: &TypedExpr,
) -> Result<CsharpStmt, NoMemory>
    requires table { IsTable body.rows.now }
    requires inner { (n < inner) × (inner < length body.rows.now) }
    ensures { (a : TypedStmtTree) → At body.entry.rows.now inner (IsRow body.entry.rows.now inner a)
        → IfOk result (λ made. csharp_statement made ≡ x.block (do_loop body.entry.decls.now
        (typed_expr_tree condition.now) (made_stmt body.entry.decls.now body.entry.result a))) }
{
    let turn = turn(alloc, body, n, inner)?;
    let test = test(alloc, body.decls, condition)?;
    loop_of(alloc, vec![in alloc; turn, test]?)
}

#[cycle(make)]
fn make_for(
    alloc: Global,
    body: Body<'_>,
    n: u32,
    first: Option<u32>,
    condition: &Option<TypedExpr>,
    after: Option<u32>,
    inner: u32,
) -> Result<CsharpStmt, NoMemory>
    requires table { IsTable body.rows.now }
    requires first { IsPartWithin n (length body.rows.now) first }
    requires after { IsPartWithin n (length body.rows.now) after }
    requires inner { (n < inner) × (inner < length body.rows.now) }
    ensures { (k m : ℕ) (i u : TypedStmtOption) (a : TypedStmtTree) → IsPartRow body.entry.rows.now k i first
        → IsPartRow body.entry.rows.now m u after → At body.entry.rows.now inner (IsRow body.entry.rows.now inner a)
        → IfOk result (λ made. csharp_statement made ≡ x.seq (x.one_more
        (made_part body.entry.decls.now body.entry.result i) (one (x.block (for_loop body.entry.decls.now
        (optional_expr_tree condition.now) (made_part body.entry.decls.now body.entry.result u)
        (made_stmt body.entry.decls.now body.entry.result a)))))) }
{
    let first = make_part(alloc, body, n, first)?;
    let test = optional_test(alloc, body.decls, condition)?;
    let turn = turn(alloc, body, n, inner)?;
    let after = make_part(alloc, body, n, after)?;
    let turns = loop_of(alloc, vec![in alloc; test, turn, after]?)?;
    Ok(seq(vec![in alloc; first, turns]?))
}
