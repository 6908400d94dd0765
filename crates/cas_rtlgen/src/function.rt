//! The graph of a function.

ghost use Rattle.std.specs.Prelude.{◌≡◌, ◌-◌, ◌++◌, ℕ, IfOk, OnOk, length};
ghost use Rattle.cas_mid.specs.Code.{parameter_count};
ghost use Rattle.cas_rtl.specs.Code.{rtl_graph};
ghost use Rattle.cas_sel.specs.Code.{sel_routine};
ghost use Rattle.cas_rtlgen.specs.Drafts.{zeros_at};
ghost use Rattle.cas_rtlgen.specs.Makes.{first_registers};
ghost use Rattle.cas_rtlgen.specs.Making.{made_graph};

use crate::draft::{Draft, Nodes};
use crate::exits::Exits;
use crate::stmt::statement;
use cas_base::{Form, NoMemory, Seq};
use cas_rtl::{Operands, RtlFun, RtlNode};
use cas_sel::{Op, SelFun};
use std::alloc::Global;

// How many parameters what is declared has. That they are more than numbers is want of memory.
fn parameters(form: &Form) -> Result<u32, NoMemory>
    ensures { IfOk result (λ count. count ≡ parameter_count form.now) }
{
    match form {
        Form::Function { params, .. } => {
            u32::try_from(params.as_slice().len()).map_err(|_| NoMemory)
        }
        Form::Lock | Form::Shared { .. } | Form::Table { .. } => Ok(0),
    }
}

// The first pseudo-registers, so many.
#[tactic(auto, using(crate::proofs::Drafts::node_then, crate::proofs::Drafts::first_more))]
fn first_places(alloc: Global, count: u32) -> Result<Seq<u32>, NoMemory>
    ensures { IfOk result (λ places. places ≡ first_registers 0 count) }
{
    let mut places = Vec::new(alloc);
    for place in 0..count {
        places.push(place)?;
    }
    Ok(Seq::of(places))
}

// The temporaries from `first` on and below `end` become 0.
fn zeros(draft: &mut Draft, first: u32, end: u32, next: u32) -> Result<u32, NoMemory>
    ensures nodes { OnOk result (draft.new.nodes ≡ draft.old.nodes
        ++ (zeros_at draft.old first (end - first) next).nodes) }
    ensures entry { IfOk result (λ n. n ≡ (zeros_at draft.old first (end - first) next).entry) }
    ensures taken { OnOk result (draft.new.taken ≡ draft.old.taken) }
{
    let mut entry = next;
    let mut temp = end;
    'each: while temp > first {
        temp -= 1;
        let none = Operands::new(draft.alloc);
        entry = draft
            .nodes
            .add(RtlNode::Op(Op::Constant(0), none, temp, entry))?;
    }
    Ok(entry)
}

/// The graph of a function: first the Return at its end, then its statements, the temporaries that are no parameters,
/// and the Nop at which it begins.
///
/// # Errors
///
/// `NoMemory` for want of memory.
pub fn make_fun(alloc: Global, fun: &SelFun) -> Result<RtlFun, NoMemory>
    ensures decl { IfOk result (λ made. made.decl ≡ fun.now.decl) }
    ensures graph { IfOk result (λ made. rtl_graph made ≡ made_graph (sel_routine fun.now)) }
{
    let count = parameters(&fun.decl.form)?;
    let mut draft = Draft {
        alloc,
        nodes: Nodes::new(alloc),
        taken: fun.temps,
    };
    let end = draft.nodes.add(RtlNode::Return(None))?;
    let start = statement(&mut draft, &mut Exits::new(alloc), &fun.body, end)?;
    let first = zeros(&mut draft, count, fun.temps, start)?;
    let entry = draft.nodes.add(RtlNode::Nop(first))?;
    let Draft { nodes, taken, .. } = draft;
    Ok(RtlFun {
        decl: fun.decl.copy(alloc)?,
        block: fun.block,
        regs: taken,
        params: first_places(alloc, count)?,
        entry,
        nodes: nodes.into_seq(),
    })
}
