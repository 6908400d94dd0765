//! The memory of a thread: the cells of its activations' locals. The blocks stand as they were pushed, the newest
//! last, so that their serial numbers ascend and a block is found by halving. A pointer could carry the depth of its
//! activation in place of that, but then each pointer in each cell would have to be known to carry the right one.

ghost use Rattle.std.specs.Prelude.{◌≡◌, ◌∷◌, ℕ, [], option_map, length, map, None, Some};
ghost use Rattle.std.specs.Prelude.{IfErr, IfNone, IfOk, IfSome, OnErr};
ghost use Rattle.cas_step.specs.Answered.{size_of, value_at};
ghost use Rattle.cas_step.specs.Step.{cells_at, locals_at, locals_of, memory_with, memory_without};
ghost use Rattle.cas_memory.specs.Blocks.{AreBefore, AscendBySerial, HasNone, IsAtSerial, block_of, blocks_before};
ghost use Rattle.cas_memory.specs.Values.{object_of, value_of};

use crate::block::Block;
use crate::value::{Object, Value};
use cas_base::NoMemory;
use cas_typed::Local;
use std::alloc::Global;
use std::marker::Model;

/// The locals of a thread's activations. Contracts see them as the definitions' blocks, the newest first.
#[derive(Debug, Drop)]
pub struct Memory {
    blocks: Vec<Block>,
}

impl Model for Memory {
    ghost use Rattle.std.specs.Prelude.{List, []};
    ghost use Rattle.cas_step.specs.Step as step;
    ghost use Rattle.cas_memory.specs.Blocks.{AscendBySerial, blocks_before};

    ghost Value = { List step.Block };

    ghost view = { λ m. blocks_before m.blocks.items [] };

    ghost invariant = { λ m. AscendBySerial m.blocks.items };
}

impl Memory {
    /// The memory of a thread without activations.
    pub fn new(alloc: Global) -> Memory
        ensures { result ≡ [] }
    {
        Memory {
            blocks: Vec::new(alloc),
        }
    }

    /// How many cells an object has. None if it is dead.
    pub fn size(&self, object: Object) -> Option<u32>
        ensures { result ≡ size_of (cells_at self.now (object_of object)) }
    {
        match block_at(&self.blocks, object.serial) {
            None => None,
            Some(block) => block.size(object.local),
        }
    }

    /// The value at a place of an object, if it exists.
    pub fn load(&self, object: Object, place: u32) -> Option<Value>
        ensures { option_map value_of result ≡ value_at (cells_at self.now (object_of object)) place }
    {
        match block_at(&self.blocks, object.serial) {
            None => None,
            Some(block) => block.load(object.local, place),
        }
    }

    /// Keeps a value at a place of an object. If there is no such place, nothing changes.
    #[tactic(auto, using(crate::proofs::Change_lemmas::with_nowhere, crate::proofs::Change_lemmas::with_at, crate::proofs::Change_lemmas::ascend_set))]
    pub fn store(&mut self, object: Object, place: u32, value: Value)
        ensures { self.new ≡ memory_with self.old (object_of object) place (value_of value) }
    {
        if let Ok(at) = search(&self.blocks, object.serial) {
            self.blocks[at].store(object.local, place, value);
        }
    }

    /// Begins the locals of an activation, those with an argument first, each other at 0 or null. If memory runs out
    /// nothing changes.
    #[tactic(auto, using(crate::proofs::Change_lemmas::pushed, crate::proofs::Change_lemmas::ascend_push))]
    pub fn push(
        &mut self,
        serial: u64,
        locals: &[Local],
        arguments: &[Value],
    ) -> Result<(), NoMemory>
        requires { AreBefore serial self.old }
        ensures pushed { IfOk result (λ _. self.new ≡ record {
          serial = serial;
          locals = locals_of
              (map (λ v. v.ty) locals.now) (map value_of arguments.now);
        } ∷ self.old) }
        ensures kept { OnErr result (self.new ≡ self.old) }
    {
        let block = Block::new(*self.blocks.allocator(), serial, locals, arguments)?;
        self.blocks.push(block)?;
        Ok(())
    }

    /// Ends the locals of an activation. If it has none, nothing changes. Constant time, but for the search, where
    /// the activation is the newest.
    #[tactic(auto, using(crate::proofs::Change_lemmas::without_nowhere, crate::proofs::Change_lemmas::without_at, crate::proofs::Change_lemmas::ascend_remove))]
    pub fn remove(&mut self, serial: u64)
        ensures { self.new ≡ memory_without self.old serial }
    {
        if let Ok(at) = search(&self.blocks, serial) {
            self.blocks.remove(at);
        }
    }
}

// The block of the activation with this serial number.
#[tactic(auto, using(crate::proofs::Search_lemmas::found_nowhere, crate::proofs::Search_lemmas::found_here))]
fn block_at(blocks: &[Block], serial: u64) -> Option<&Block>
    requires { AscendBySerial blocks.now }
    ensures none { IfNone result (locals_at (blocks_before blocks.now []) serial ≡ None) }
    ensures some { IfSome result (λ b. locals_at (blocks_before blocks.now []) serial ≡ Some (block_of b.now).locals) }
{
    match search(blocks, serial) {
        Ok(at) => Some(&blocks[at]),
        Err(_) => None,
    }
}

// Which block is of the activation with this serial number.
fn search(blocks: &[Block], serial: u64) -> Result<usize, usize>
    requires { AscendBySerial blocks.now }
    ensures found { IfOk result (IsAtSerial blocks.now serial) }
    ensures absent { IfErr result (λ i. HasNone blocks.now serial) }
{
    blocks.binary_search_by_key(&serial, |block| block.serial)
}
