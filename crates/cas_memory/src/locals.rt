//! What the locals of an activation have in their cells.

ghost use Rattle.std.specs.Prelude.{◌≡◌, ◌++◌, ◌∷◌, [], IfOk, Some, drop, length, map, option_map, replicate, slice_get};
ghost use Rattle.cas_step.specs.Answered.{size_of, value_at};
ghost use Rattle.cas_step.specs.Step.{local_at, locals_of, with_local, zero_of};
ghost use Rattle.cas_memory.specs.Blocks.{block_of, cells_at_first};
ghost use Rattle.cas_memory.specs.Spans.{place_in};
ghost use Rattle.cas_memory.specs.Values.{value_of};

use crate::block::{Block, Span};
use crate::value::Value;
use cas_base::{NoMemory, Ty};
use cas_typed::Local;
use std::alloc::Global;

impl Block {
    // Where the cells of a local stand.
    #[tactic(auto, using(crate::proofs::Getting::get_there, crate::proofs::Getting::get_past))]
    fn span(&self, local: u32) -> Option<Span>
        ensures { result ≡ slice_get self.now.spans.items local }
    {
        match self.spans.get(local as usize) {
            Some(span) => Some(*span),
            None => None,
        }
    }

    // One of the cells of all locals.
    #[tactic(auto, using(crate::proofs::Getting::get_there, crate::proofs::Getting::get_past))]
    fn cell(&self, at: usize) -> Option<Value>
        ensures { result ≡ slice_get self.now.cells.items at }
    {
        match self.cells.get(at) {
            Some(value) => Some(*value),
            None => None,
        }
    }

    // Which of the cells of all locals is at a place of a local.
    fn place(&self, local: u32, place: u32) -> Option<usize>
        ensures { result ≡ place_in (slice_get self.now.spans.items local) place }
    {
        match self.span(local) {
            None => None,
            Some(span) => {
                if place < span.length {
                    Some(span.first + place as usize)
                } else {
                    None
                }
            }
        }
    }

    /// The value at a place of a local, if it exists.
    #[tactic(auto, using(crate::proofs::Block_lemmas::loaded_there, crate::proofs::Block_lemmas::loaded_nowhere))]
    pub fn load(&self, local: u32, place: u32) -> Option<Value>
        ensures { option_map value_of result ≡ value_at (local_at (Some (block_of self.now).locals) local) place }
    {
        match self.place(local, place) {
            None => None,
            Some(at) => self.cell(at),
        }
    }

    /// How many cells a local has, if it exists.
    #[tactic(auto, using(crate::proofs::Block_lemmas::local_absent, crate::proofs::Block_lemmas::size_there))]
    pub fn size(&self, local: u32) -> Option<u32>
        ensures { result ≡ size_of (local_at (Some (block_of self.now).locals) local) }
    {
        match self.span(local) {
            None => None,
            Some(span) => Some(span.length),
        }
    }

    /// Keeps a value at a place of a local. If there is no such place, nothing changes.
    #[tactic(auto, using(crate::proofs::Block_lemmas::stored_there, crate::proofs::Block_lemmas::stored_nowhere, crate::proofs::Block_lemmas::place_within))]
    pub fn store(&mut self, local: u32, place: u32, value: Value)
        ensures serial { self.new.serial ≡ self.old.serial }
        ensures locals { (block_of self.new).locals ≡ with_local (block_of self.old).locals local place
            (value_of value) }
    {
        if let Some(at) = self.place(local, place) {
            self.cells[at] = value;
        }
    }

    /// The locals of a new activation, those with an argument first, each other at 0 or null.
    #[tactic(auto, using(crate::proofs::Block_lemmas::whole_added, crate::proofs::Block_lemmas::goes_on))]
    pub fn new(
        alloc: Global,
        serial: u64,
        locals: &[Local],
        arguments: &[Value],
    ) -> Result<Block, NoMemory>
        ensures serial { IfOk result (λ b. b.serial ≡ serial) }
        ensures locals { IfOk result (λ b. (block_of b).locals ≡ locals_of (map (λ v. v.ty) locals.now)
            (map value_of arguments.now)) }
    {
        let mut spans = Vec::with_capacity(alloc, locals.len())?;
        let mut cells = Vec::new(alloc);
        let mut rest = locals;
        let mut values = arguments;
        'each: while let Some((local, others)) = rest.split_first() {
            let (count, value) = first_value(local.ty, values);
            add(&mut spans, &mut cells, count, value)?;
            values = behind_first(values);
            rest = others;
        }
        Ok(Block {
            serial,
            spans,
            cells,
        })
    }
}

// What a local's cells begin with.
fn zero(ty: Ty) -> Value
    ensures { value_of result ≡ zero_of ty }
{
    match ty {
        Ty::Ptr(_) => Value::Null,
        Ty::Void | Ty::Int(_) | Ty::Array(_, _) => Value::Word(0),
    }
}

// How many cells a local begins with, and what is in each: the first of these arguments, or 0 or null.
fn first_value(ty: Ty, arguments: &[Value]) -> (u32, Value)
    ensures { replicate result.0 (value_of result.1) ≡ cells_at_first ty (map value_of arguments.now) }
{
    match arguments.split_first() {
        Some((value, _)) => (1, *value),
        None => (ty.words(), zero(ty)),
    }
}

// The values after the first.
fn behind_first(values: &[Value]) -> &[Value]
    ensures { result.now ≡ drop 1 values.now }
{
    match values.split_first() {
        Some((_, others)) => others,
        None => values,
    }
}

// One local more, with so many cells that hold this value.
fn add(
    spans: &mut Vec<Span>,
    cells: &mut Vec<Value>,
    count: u32,
    value: Value,
) -> Result<(), NoMemory>
    ensures spans { IfOk result (λ _. spans.new.items ≡ spans.old.items ++
        record { first = length cells.old.items; length = count } ∷ []) }
    ensures cells { IfOk result (λ _. cells.new.items ≡ cells.old.items ++ replicate count value) }
{
    let first = cells.len();
    cells.resize(first + count as usize, value)?;
    spans.push(Span {
        first,
        length: count,
    })?;
    Ok(())
}
