//! Where leaving Blocks leads.

ghost use Rattle.std.specs.Prelude.{◌≡◌, ◌∷◌, [], OnOk, drop, slice_get};
ghost use Rattle.cas_rtlgen.specs.Making.{exit_to};

use cas_base::NoMemory;
use std::alloc::Global;
use std::marker::Model;

/// The nodes that leaving one Block, two Blocks and so on leads to. Contracts see them as a list, that of the innermost
/// Block first.
#[derive(Debug, Drop)]
pub struct Exits {
    nodes: Vec<u32>,
}

impl Model for Exits {
    ghost use Rattle.std.specs.Prelude.{List, ℕ, reverse};

    ghost Value = { List ℕ };

    ghost view = { λ e. reverse e.nodes.items };
}

impl Exits {
    /// Outside of all Blocks.
    pub fn new(alloc: Global) -> Exits
        ensures { result ≡ [] }
    {
        Exits {
            nodes: Vec::new(alloc),
        }
    }

    /// Within one Block more, whose end is the node `next`.
    ///
    /// # Errors
    ///
    /// `NoMemory` for want of memory.
    #[tactic(auto, using(crate::proofs::Lists::reverse_more))]
    pub fn enter(&mut self, next: u32) -> Result<(), NoMemory>
        ensures { OnOk result (self.new ≡ next ∷ self.old) }
    {
        Ok(self.nodes.push(next)?)
    }

    /// Outside of the innermost Block.
    #[tactic(auto, using(crate::proofs::Lists::reverse_more))]
    pub fn leave(&mut self)
        ensures { self.new ≡ drop 1 self.old }
    {
        self.nodes.pop();
    }

    /// The node that leaving so many Blocks and one more leads to, or `next`, where there aren't as many.
    #[tactic(auto, using(crate::proofs::Lists::from_last, crate::proofs::Lists::past_last))]
    pub fn lead(&self, blocks: u32, next: u32) -> u32
        ensures { result ≡ exit_to (slice_get self.now blocks) next }
    {
        let count = self.nodes.len();
        let blocks = blocks as usize;
        if blocks < count {
            self.nodes[count - 1 - blocks]
        } else {
            next
        }
    }
}
