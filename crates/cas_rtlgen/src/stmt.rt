//! The nodes of statements.

ghost use Rattle.std.specs.Prelude.{◌≡◌, ◌+◌, ◌++◌, IfOk, OnOk, map};
ghost use Rattle.cas_rtl.specs.Code.{node_of};
ghost use Rattle.cas_mid.specs.Code.{optional};
ghost use Rattle.cas_mid.specs.Trees as tree;
ghost use Rattle.cas_sel.specs.Code.{address_of, expression_of, list_of};
ghost use Rattle.cas_sel.specs.Rooms.{all_inner_values, all_statement_values, inner_values, own_value, own_values, returned_values, statement_values};
ghost use Rattle.cas_sel.specs.Trees.{listed};
ghost use Rattle.cas_rtlgen.specs.Drafts.{called_at, node_of_value, printed_at, returned_at, sel_list, sel_statement, sequence_at, statement_at, stored_at};

use crate::draft::{Draft, Way};
use crate::exits::Exits;
use crate::expr::{Taken, all, decide, on_operands, place, place_all, value};
use cas_base::{Name, NoMemory};
use cas_mid::Stmt;
use cas_rtl::RtlNode;
use cas_sel::{SelAddress, SelExpr, SelStmt};

// Adds a node that uses a value, and those of the value, in the pseudo-register `first`.
#[tactic(auto, using(crate::proofs::Drafts::node_then))]
fn on_value(draft: &mut Draft, node: RtlNode, expr: &SelExpr, first: u32) -> Result<u32, NoMemory>
    ensures nodes { OnOk result (draft.new.nodes ≡ draft.old.nodes
        ++ (node_of_value draft.old (expression_of expr.now) first (node_of node)).nodes) }
    ensures entry { IfOk result (λ n. n
        ≡ (node_of_value draft.old (expression_of expr.now) first (node_of node)).entry) }
    ensures taken { OnOk result (draft.new.taken ≡ draft.old.taken + inner_values (expression_of expr.now)) }
{
    let here = draft.nodes.add(node)?;
    value(draft, expr, here, first, Way::IsFound)
}

// A Return.
fn returned(draft: &mut Draft, expr: &Option<SelExpr>) -> Result<u32, NoMemory>
    ensures nodes { OnOk result (draft.new.nodes ≡ draft.old.nodes
        ++ (returned_at draft.old (optional expression_of expr.now)).nodes) }
    ensures entry { IfOk result (λ n. n ≡ (returned_at draft.old (optional expression_of expr.now)).entry) }
    ensures taken { OnOk result (draft.new.taken
        ≡ draft.old.taken + returned_values (optional expression_of expr.now)) }
{
    match expr {
        None => draft.nodes.add(RtlNode::Return(None)),
        Some(expr) => {
            let first = draft.taken;
            let register = place(draft, expr)?;
            on_value(draft, RtlNode::Return(Some(register)), expr, first)
        }
    }
}

// A Print.
fn printed(draft: &mut Draft, expr: &SelExpr, next: u32) -> Result<u32, NoMemory>
    ensures nodes { OnOk result (draft.new.nodes ≡ draft.old.nodes
        ++ (printed_at draft.old (expression_of expr.now) next).nodes) }
    ensures entry { IfOk result (λ n. n ≡ (printed_at draft.old (expression_of expr.now) next).entry) }
    ensures taken { OnOk result (draft.new.taken
        ≡ draft.old.taken + (own_value (expression_of expr.now) + inner_values (expression_of expr.now))) }
{
    let first = draft.taken;
    let register = place(draft, expr)?;
    on_value(draft, RtlNode::Out(register, next), expr, first)
}

// A Store: its operands' pseudo-registers come before that of the stored value, whose nodes come after theirs.
fn stored(
    draft: &mut Draft,
    address: &SelAddress,
    expr: &SelExpr,
    next: u32,
) -> Result<u32, NoMemory>
    ensures nodes { OnOk result (draft.new.nodes ≡ draft.old.nodes
        ++ (stored_at draft.old (address_of address.now) (expression_of expr.now) next).nodes) }
    ensures entry { IfOk result (λ n. n
        ≡ (stored_at draft.old (address_of address.now) (expression_of expr.now) next).entry) }
    ensures taken { OnOk result (draft.new.taken ≡ draft.old.taken
        + statement_values (tree.store (address_of address.now) (expression_of expr.now))) }
{
    let mode = address.mode.copy(draft.alloc)?;
    let first = draft.taken;
    let args = place_all(draft, &address.operands)?;
    let end = draft.taken;
    let register = place(draft, expr)?;
    let entry = on_value(draft, RtlNode::Store(mode, args, register, next), expr, end)?;
    all(draft, &address.operands, entry, Taken { first, end })
}

// A Call.
fn called(
    draft: &mut Draft,
    temp: Option<u32>,
    name: &Name,
    args: &[SelExpr],
    next: u32,
) -> Result<u32, NoMemory>
    ensures nodes { OnOk result (draft.new.nodes ≡ draft.old.nodes
        ++ (called_at draft.old temp name.now (list_of args.now) next).nodes) }
    ensures entry { IfOk result (λ n. n ≡ (called_at draft.old temp name.now (list_of args.now) next).entry) }
    ensures taken { OnOk result (draft.new.taken
        ≡ draft.old.taken + (own_values (list_of args.now) + all_inner_values (list_of args.now))) }
{
    let name = name.copy(draft.alloc)?;
    let first = draft.taken;
    let operands = place_all(draft, args)?;
    let end = draft.taken;
    let node = RtlNode::Call(name, operands, temp, next);
    on_operands(draft, node, args, Taken { first, end })
}

/// Adds the nodes of a statement, which leads to `next`, and says where they begin.
///
/// # Errors
///
/// `NoMemory` for want of memory.
#[cycle(statement)]
#[tactic(auto, using(crate::proofs::Drafts::sequence_of, crate::proofs::Drafts::listed_same))]
pub fn statement(
    draft: &mut Draft,
    exits: &mut Exits,
    stmt: &SelStmt,
    next: u32,
) -> Result<u32, NoMemory>
    ensures nodes { OnOk result (draft.new.nodes ≡ draft.old.nodes
        ++ (statement_at draft.old (sel_statement stmt.now) exits.old next).nodes) }
    ensures entry { IfOk result (λ n. n ≡ (statement_at draft.old (sel_statement stmt.now) exits.old next).entry) }
    ensures taken { OnOk result (draft.new.taken ≡ draft.old.taken + statement_values (sel_statement stmt.now)) }
    ensures exits { OnOk result (exits.new ≡ exits.old) }
{
    match stmt {
        Stmt::Skip => Ok(next),
        Stmt::Set(t, expr) => value(draft, expr, next, *t, Way::ComesInto),
        Stmt::Store(address, expr) => stored(draft, address, expr, next),
        Stmt::Call(temp, name, args) => called(draft, *temp, name, args.as_slice(), next),
        Stmt::Seq(all) => sequence(draft, exits, all, next),
        Stmt::IfElse(condition, first, second) => {
            let left = statement(draft, exits, first, next)?;
            let right = statement(draft, exits, second, next)?;
            decide(draft, condition, left, right)
        }
        Stmt::Loop(body) => looped(draft, exits, body),
        Stmt::Block(body) => {
            exits.enter(next)?;
            let entry = statement(draft, exits, body, next)?;
            exits.leave();
            Ok(entry)
        }
        Stmt::Exit(blocks) => Ok(exits.lead(*blocks, next)),
        Stmt::Return(expr) => returned(draft, expr),
        Stmt::Lock(name) => {
            let name = name.copy(draft.alloc)?;
            draft.nodes.add(RtlNode::Lock(name, next))
        }
        Stmt::Unlock(name) => {
            let name = name.copy(draft.alloc)?;
            draft.nodes.add(RtlNode::Unlock(name, next))
        }
        Stmt::Print(expr) => printed(draft, expr, next),
    }
}

// A loop: its Nop stands first, and gets its successor once the body's entry is known.
#[cycle(statement)]
#[tactic(auto, using(crate::proofs::Lists::patched))]
fn looped(draft: &mut Draft, exits: &mut Exits, body: &SelStmt) -> Result<u32, NoMemory>
    ensures nodes { OnOk result (draft.new.nodes ≡ draft.old.nodes
        ++ (statement_at draft.old (tree.loop (sel_statement body.now)) exits.old 0).nodes) }
    ensures entry { IfOk result (λ n. n
        ≡ (statement_at draft.old (tree.loop (sel_statement body.now)) exits.old 0).entry) }
    ensures taken { OnOk result (draft.new.taken ≡ draft.old.taken + statement_values (sel_statement body.now)) }
    ensures exits { OnOk result (exits.new ≡ exits.old) }
{
    let here = draft.nodes.add(RtlNode::Nop(0))?;
    let entry = statement(draft, exits, body, here)?;
    draft.nodes.set(here, RtlNode::Nop(entry));
    Ok(here)
}

// Statements one after another, of which the last is made first.
#[cycle(statement)]
fn sequence(
    draft: &mut Draft,
    exits: &mut Exits,
    stmts: &[SelStmt],
    next: u32,
) -> Result<u32, NoMemory>
    ensures nodes { OnOk result (draft.new.nodes ≡ draft.old.nodes
        ++ (sequence_at draft.old (sel_list stmts.now) exits.old next).nodes) }
    ensures entry { IfOk result (λ n. n ≡ (sequence_at draft.old (sel_list stmts.now) exits.old next).entry) }
    ensures taken { OnOk result (draft.new.taken ≡ draft.old.taken + all_statement_values (sel_list stmts.now)) }
    ensures exits { OnOk result (exits.new ≡ exits.old) }
{
    let mut entry = next;
    let mut left = stmts.len();
    'each: while left > 0 {
        left -= 1;
        entry = statement(draft, exits, &stmts[left], entry)?;
    }
    Ok(entry)
}
