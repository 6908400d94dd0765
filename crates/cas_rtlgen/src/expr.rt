//! The nodes of expressions and conditions. Nodes are made from the last to the first.

ghost use Rattle.std.specs.Prelude.{◌≡◌, ◌+◌, ◌++◌, IfOk, OnOk, length};
ghost use Rattle.cas_rtl.specs.Code.{node_of};
ghost use Rattle.cas_sel.specs.Code.{expression_of, list_of, test_of};
ghost use Rattle.cas_sel.specs.Rooms.{all_inner_values, inner_values, own_value, own_values, test_values};
ghost use Rattle.cas_rtlgen.specs.Drafts.{all_at, node_on, test_at, value_at};
ghost use Rattle.cas_rtlgen.specs.Making.{of_temporary, register, registers};

use crate::draft::{Draft, Way};
use cas_base::NoMemory;
use cas_rtl::{Operands, RtlNode};
use cas_sel::{Op, SelExpr, SelTest};

/// The pseudo-registers that operands have taken: those from the first on and below the end.
#[derive(Clone, Copy, Debug, PartialEq, Eq)]
pub struct Taken {
    pub first: u32,
    pub end: u32,
}

/// The pseudo-register in which an operand will be: that of its temporary, or the next one, which is taken.
///
/// # Errors
///
/// `NoMemory` for want of memory.
pub fn place(draft: &mut Draft, expr: &SelExpr) -> Result<u32, NoMemory>
    ensures register { IfOk result (λ r. r ≡ register (expression_of expr.now) draft.old.taken) }
    ensures taken { OnOk result (draft.new.taken ≡ draft.old.taken + own_value (expression_of expr.now)) }
    ensures nodes { OnOk result (draft.new.nodes ≡ draft.old.nodes) }
{
    match expr {
        SelExpr::Temp(t) => Ok(*t),
        SelExpr::Operation(_, _) | SelExpr::Load(_, _) | SelExpr::If(_, _, _) => draft.take(),
    }
}

/// Those of all operands.
///
/// # Errors
///
/// `NoMemory` for want of memory.
pub fn place_all(draft: &mut Draft, exprs: &[SelExpr]) -> Result<Operands, NoMemory>
    ensures registers { IfOk result (λ args. args ≡ registers (list_of exprs.now) draft.old.taken) }
    ensures taken { OnOk result (draft.new.taken ≡ draft.old.taken + own_values (list_of exprs.now)) }
    ensures nodes { OnOk result (draft.new.nodes ≡ draft.old.nodes) }
{
    let mut args = Operands::new(draft.alloc);
    for expr in exprs {
        let register = place(draft, expr)?;
        args.push(register)?;
    }
    Ok(args)
}

// How many pseudo-registers an operand takes.
fn own(expr: &SelExpr) -> u32
    ensures { result ≡ own_value (expression_of expr.now) }
{
    match expr {
        SelExpr::Temp(_) => 0,
        SelExpr::Operation(_, _) | SelExpr::Load(_, _) | SelExpr::If(_, _, _) => 1,
    }
}

// The value of a temporary.
fn temporary(draft: &mut Draft, t: u32, next: u32, r: u32, way: Way) -> Result<u32, NoMemory>
    ensures nodes { OnOk result (draft.new.nodes ≡ draft.old.nodes
        ++ (of_temporary t (length draft.old.nodes) next r way).nodes) }
    ensures entry { IfOk result (λ n. n ≡ (of_temporary t (length draft.old.nodes) next r way).entry) }
    ensures taken { OnOk result (draft.new.taken ≡ draft.old.taken) }
{
    match way {
        Way::IsFound => Ok(next),
        Way::ComesInto => {
            let mut args = Operands::new(draft.alloc);
            args.push(t)?;
            draft.nodes.add(RtlNode::Op(Op::Move, args, r, next))
        }
    }
}

/// Adds the nodes by which the value of an expression comes into a pseudo-register, or is found there, and says where
/// they begin.
///
/// # Errors
///
/// `NoMemory` for want of memory.
#[cycle(value)]
#[tactic(auto, using(cas_sel::proofs::Lists::operation_of, cas_sel::proofs::Lists::load_of))]
pub fn value(
    draft: &mut Draft,
    expr: &SelExpr,
    next: u32,
    r: u32,
    way: Way,
) -> Result<u32, NoMemory>
    ensures nodes { OnOk result (draft.new.nodes ≡ draft.old.nodes
        ++ (value_at draft.old (expression_of expr.now) next r way).nodes) }
    ensures entry { IfOk result (λ n. n ≡ (value_at draft.old (expression_of expr.now) next r way).entry) }
    ensures taken { OnOk result (draft.new.taken ≡ draft.old.taken + inner_values (expression_of expr.now)) }
{
    match expr {
        SelExpr::Temp(t) => temporary(draft, *t, next, r, way),
        SelExpr::Operation(op, operands) => {
            let first = draft.taken;
            let args = place_all(draft, operands)?;
            let end = draft.taken;
            let node = RtlNode::Op(*op, args, r, next);
            on_operands(draft, node, operands, Taken { first, end })
        }
        SelExpr::Load(mode, operands) => {
            let mode = mode.copy(draft.alloc)?;
            let first = draft.taken;
            let args = place_all(draft, operands)?;
            let end = draft.taken;
            let node = RtlNode::Load(mode, args, r, next);
            on_operands(draft, node, operands, Taken { first, end })
        }
        SelExpr::If(condition, first, second) => {
            let left = value(draft, first, next, r, Way::ComesInto)?;
            let right = value(draft, second, next, r, Way::ComesInto)?;
            decide(draft, condition, left, right)
        }
    }
}

/// Adds a node, and those of its operands in the pseudo-registers that were taken for them.
///
/// # Errors
///
/// `NoMemory` for want of memory.
#[cycle(value)]
#[tactic(auto, using(crate::proofs::Drafts::node_then))]
pub fn on_operands(
    draft: &mut Draft,
    node: RtlNode,
    exprs: &[SelExpr],
    taken: Taken,
) -> Result<u32, NoMemory>
    requires taken { taken.end ≡ taken.first + own_values (list_of exprs.now) }
    ensures nodes { OnOk result (draft.new.nodes ≡ draft.old.nodes
        ++ (node_on draft.old (list_of exprs.now) taken.first (node_of node)).nodes) }
    ensures entry { IfOk result (λ n. n ≡ (node_on draft.old (list_of exprs.now) taken.first (node_of node)).entry) }
    ensures taken { OnOk result (draft.new.taken ≡ draft.old.taken + all_inner_values (list_of exprs.now)) }
{
    let here = draft.nodes.add(node)?;
    all(draft, exprs, here, taken)
}

/// Adds the nodes of operands, in the pseudo-registers that were taken for them.
///
/// # Errors
///
/// `NoMemory` for want of memory.
#[cycle(value)]
pub fn all(draft: &mut Draft, exprs: &[SelExpr], next: u32, taken: Taken) -> Result<u32, NoMemory>
    requires taken { taken.end ≡ taken.first + own_values (list_of exprs.now) }
    ensures nodes { OnOk result (draft.new.nodes ≡ draft.old.nodes
        ++ (all_at draft.old (list_of exprs.now) next taken.first).nodes) }
    ensures entry { IfOk result (λ n. n ≡ (all_at draft.old (list_of exprs.now) next taken.first).entry) }
    ensures taken { OnOk result (draft.new.taken ≡ draft.old.taken + all_inner_values (list_of exprs.now)) }
{
    let mut entry = next;
    let mut register = taken.end;
    let mut left = exprs.len();
    'each: while left > 0 {
        left -= 1;
        let expr = &exprs[left];
        register -= own(expr);
        entry = value(draft, expr, entry, register, Way::IsFound)?;
    }
    Ok(entry)
}

/// Adds the nodes by which a condition leads to one node or to the other.
///
/// # Errors
///
/// `NoMemory` for want of memory.
#[cycle(value)]
#[tactic(auto, using(cas_sel::proofs::Lists::holds_of))]
pub fn decide(draft: &mut Draft, test: &SelTest, left: u32, right: u32) -> Result<u32, NoMemory>
    ensures nodes { OnOk result (draft.new.nodes ≡ draft.old.nodes
        ++ (test_at draft.old (test_of test.now) left right).nodes) }
    ensures entry { IfOk result (λ n. n ≡ (test_at draft.old (test_of test.now) left right).entry) }
    ensures taken { OnOk result (draft.new.taken ≡ draft.old.taken + test_values (test_of test.now)) }
{
    match test {
        SelTest::Holds(condition, operands) => {
            let first = draft.taken;
            let args = place_all(draft, operands)?;
            let end = draft.taken;
            let node = RtlNode::Test(*condition, args, left, right);
            on_operands(draft, node, operands, Taken { first, end })
        }
        SelTest::Always(is) => {
            let next = if *is { left } else { right };
            draft.nodes.add(RtlNode::Nop(next))
        }
        SelTest::If(condition, first, second) => {
            let yes = decide(draft, first, left, right)?;
            let no = decide(draft, second, left, right)?;
            decide(draft, condition, yes, no)
        }
    }
}
