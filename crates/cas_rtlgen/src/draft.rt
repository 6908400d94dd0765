//! Graphs in the making.

ghost use Rattle.std.specs.Prelude.{◌≡◌, ◌+◌, ◌<◌, ◌∷◌, ◌++◌, [], IfOk, OnOk, length, map, slice_set};
ghost use Rattle.cas_rtl.specs.Code.{node_of};

use cas_base::{NoMemory, Seq};
use cas_rtl::RtlNode;
use std::alloc::Global;
use std::marker::Model;

/// What is done with the value of an expression.
#[derive(Clone, Copy, Debug, PartialEq, Eq)]
pub enum Way {
    /// It comes into a pseudo-register.
    ComesInto,
    /// It is found there, or in the pseudo-register of its temporary.
    IsFound,
}

/// The nodes that have been made. Contracts see them as a list.
#[derive(Debug, Drop)]
pub struct Nodes {
    nodes: Vec<RtlNode>,
}

impl Model for Nodes {
    ghost use Rattle.std.specs.Prelude.{List, ℕ, map};
    ghost use Rattle.cas_rtl.specs.Code.{node_of};
    ghost use Rattle.cas_rtl.specs.Graph.{Node};

    ghost Value = { List (Node ℕ) };

    ghost view = { λ n. map node_of n.nodes.items };
}

impl Nodes {
    /// No node.
    pub fn new(alloc: Global) -> Nodes
        ensures { result ≡ [] }
    {
        Nodes {
            nodes: Vec::new(alloc),
        }
    }

    /// Adds a node, and says its number. That there are more nodes than numbers is want of memory.
    ///
    /// # Errors
    ///
    /// `NoMemory` for want of memory.
    #[tactic(auto, using(crate::proofs::Lists::map_more, crate::proofs::Lists::map_length))]
    pub fn add(&mut self, node: RtlNode) -> Result<u32, NoMemory>
        ensures nodes { OnOk result (self.new ≡ self.old ++ node_of node ∷ []) }
        ensures number { IfOk result (λ n. n ≡ length self.old) }
    {
        let here = u32::try_from(self.nodes.len()).map_err(|_| NoMemory)?;
        self.nodes.push(node)?;
        Ok(here)
    }

    /// Puts a node in the place of another.
    #[tactic(auto, using(crate::proofs::Lists::map_set, crate::proofs::Lists::map_length))]
    pub fn set(&mut self, at: u32, node: RtlNode)
        requires { at < length self.old }
        ensures { self.new ≡ slice_set self.old at (node_of node) }
    {
        self.nodes[at as usize] = node;
    }

    /// The nodes, by their numbers.
    pub fn into_seq(self) -> Seq<RtlNode>
        ensures { map node_of result ≡ self }
    {
        let Nodes { nodes } = self;
        Seq::of(nodes)
    }
}

/// A graph in the making.
#[derive(Debug, Drop)]
pub struct Draft {
    pub alloc: Global,
    pub nodes: Nodes,
    /// How many pseudo-registers are taken, the first ones.
    pub taken: u32,
}

impl Draft {
    /// Takes the next pseudo-register. That there are more than numbers is want of memory: each has a node.
    ///
    /// # Errors
    ///
    /// `NoMemory` for want of memory.
    pub fn take(&mut self) -> Result<u32, NoMemory>
        ensures register { IfOk result (λ r. r ≡ self.old.taken) }
        ensures taken { OnOk result (self.new.taken ≡ self.old.taken + 1) }
        ensures nodes { self.new.nodes ≡ self.old.nodes }
    {
        let register = self.taken;
        self.taken = register.checked_add(1).ok_or(NoMemory)?;
        Ok(register)
    }
}
