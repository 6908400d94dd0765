//! Tailcall of a function.

ghost use Rattle.std.specs.Prelude.{◌≡◌, List, IfOk, length, map, true};
ghost use Rattle.cas_base.specs.declared.decl.Decl.{Decl};
ghost use Rattle.cas_rtl.specs.Code.{node_of, rtl, rtl_graph};
ghost use Rattle.cas_runs.specs.Calls.{language};
ghost use Rattle.cas_runs.specs.Unit.{FunctionRefines, defines};
ghost use Rattle.cas_tailcall.specs.Made.{IsMadeOf, IsNoLarger};
ghost use Rattle.cas_tailcall.specs.Tailcall as made;
ghost use Rattle.cas_tailcall.specs.Tailcall.{HasTailCalls};

use cas_base::{NoMemory, Seq};
use cas_rtl::{Operands, RtlFun, RtlNode};
use std::alloc::Global;

// Where a Nop leads.
fn nop_next(node: &RtlNode) -> Option<u32>
    ensures { result ≡ made.nop_next (node_of node.now) }
{
    match node {
        RtlNode::Nop(next) => Some(*next),
        RtlNode::Op(_, _, _, _)
        | RtlNode::Load(_, _, _, _)
        | RtlNode::Store(_, _, _, _)
        | RtlNode::Call(_, _, _, _)
        | RtlNode::Tail(_, _)
        | RtlNode::Test(_, _, _, _)
        | RtlNode::Return(_)
        | RtlNode::Lock(_, _)
        | RtlNode::Unlock(_, _)
        | RtlNode::Out(_, _) => None,
    }
}

// The node that Nops lead to. In a cycle of Nops it is one of them.
#[tactic(auto, using(crate::proofs::Making::map_get))]
fn landing(nodes: &[RtlNode], next: u32) -> u32
    ensures { result ≡ made.landing (map node_of nodes.now) (length nodes.now) next }
{
    let mut at = next;
    let mut steps = nodes.len();
    while steps > 0 {
        steps -= 1;
        match nodes.get(at as usize) {
            None => return at,
            Some(node) => match nop_next(node) {
                None => return at,
                Some(next) => at = next,
            },
        }
    }
    at
}

// Whether a node returns what is in the pseudo-register, if there is one, or nothing.
fn returns_only(register: Option<u32>, node: &RtlNode) -> bool
    ensures { result ≡ made.returns_only register (node_of node.now) }
{
    match node {
        RtlNode::Return(None) => true,
        RtlNode::Return(Some(returned)) => match register {
            Some(register) => register == *returned,
            None => false,
        },
        RtlNode::Nop(_)
        | RtlNode::Op(_, _, _, _)
        | RtlNode::Load(_, _, _, _)
        | RtlNode::Store(_, _, _, _)
        | RtlNode::Call(_, _, _, _)
        | RtlNode::Tail(_, _)
        | RtlNode::Test(_, _, _, _)
        | RtlNode::Lock(_, _)
        | RtlNode::Unlock(_, _)
        | RtlNode::Out(_, _) => false,
    }
}

// Whether the result of a call is only returned.
#[tactic(auto, using(crate::proofs::Making::map_get))]
fn is_returned(nodes: &[RtlNode], register: Option<u32>, next: u32) -> bool
    ensures { result ≡ made.is_returned (map node_of nodes.now) register next }
{
    match nodes.get(landing(nodes, next) as usize) {
        None => false,
        Some(node) => returns_only(register, node),
    }
}

// Whether a call with these arguments and this result may be a tail call.
fn may_be_tail(fun: &RtlFun, args: &Operands, register: Option<u32>, next: u32) -> bool
    ensures { result ≡ made.may_be_tail (rtl_graph fun.now) args.now register next }
{
    fun.block == 0
        && args.as_slice().len() <= 3
        && is_returned(fun.nodes.as_slice(), register, next)
}

// What is made of a node.
fn tail_node(alloc: Global, fun: &RtlFun, node: &RtlNode) -> Result<RtlNode, NoMemory>
    ensures { IfOk result (λ tail. node_of tail ≡ made.tail_node (rtl_graph fun.now) (node_of node.now)) }
{
    match node {
        RtlNode::Call(name, args, register, next) => {
            if may_be_tail(fun, args, *register, *next) {
                Ok(RtlNode::Tail(name.copy(alloc)?, args.copy(alloc)?))
            } else {
                node.copy(alloc)
            }
        }
        RtlNode::Nop(_)
        | RtlNode::Op(_, _, _, _)
        | RtlNode::Load(_, _, _, _)
        | RtlNode::Store(_, _, _, _)
        | RtlNode::Tail(_, _)
        | RtlNode::Test(_, _, _, _)
        | RtlNode::Return(_)
        | RtlNode::Lock(_, _)
        | RtlNode::Unlock(_, _)
        | RtlNode::Out(_, _) => node.copy(alloc),
    }
}

// What is made of the nodes.
fn tail_nodes(alloc: Global, fun: &RtlFun) -> Result<Seq<RtlNode>, NoMemory>
    ensures { IfOk result (λ nodes. map node_of nodes
        ≡ map (made.tail_node (rtl_graph fun.now)) (map node_of fun.now.nodes)) }
{
    let mut nodes = Vec::new(alloc);
    for node in fun.nodes.as_slice() {
        let tail = tail_node(alloc, fun, node)?;
        nodes.push(tail)?;
    }
    Ok(Seq::of(nodes))
}

// What is made of a function.
fn make_fun(alloc: Global, fun: &RtlFun) -> Result<RtlFun, NoMemory>
    ensures { IfOk result (λ tails. IsMadeOf tails fun.now) }
{
    Ok(RtlFun {
        decl: fun.decl.copy(alloc)?,
        block: fun.block,
        regs: fun.regs,
        params: fun.params.copy(alloc)?,
        entry: fun.entry,
        nodes: tail_nodes(alloc, fun)?,
    })
}

/// The function with tail calls. It refines the other, no call is left that may be a tail call, and it weighs no more
/// and has no greater room.
///
/// # Errors
///
/// `NoMemory` for want of memory.
pub fn tailcall(alloc: Global, fun: &RtlFun) -> Result<RtlFun, NoMemory>
    ensures made { IfOk result (λ tails. IsMadeOf tails fun.now) }
    ensures refines { IfOk result (λ tails. (decls : List Decl) → defines decls fun.now.decl.name ≡ true
        → FunctionRefines (language rtl) (language rtl) decls fun.now.decl.name tails fun.now) }
    ensures calls { IfOk result (λ tails. HasTailCalls (rtl_graph tails)) }
    ensures bounds { IfOk result (λ tails. IsNoLarger tails fun.now) }
{
    make_fun(alloc, fun)
}
