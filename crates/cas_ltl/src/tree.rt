//! The functions of LTL.

ghost use Rattle.std.specs.Prelude.{◌≡◌, ◌∷◌, ◌++◌, [], OnOk};
ghost use Rattle.cas_ltl.specs.declared.tree.Loc.TheVariants as loc;

use cas_base::{Decl, Name, NoMemory, Reg, Seq};
use cas_sel::{Cond, Mode, Op};
use smallvec::SmallVec;
use std::alloc::Global;
use std::marker::Model;

/// A place that holds a value.
#[derive(Clone, Copy, Debug, PartialEq, Eq)]
pub enum Loc {
    Reg(Reg),
    /// A slot of the function's frame, by its number.
    Slot(u32),
}

impl Default for Loc {
    /// The first slot, as small vectors need a value to begin with.
    fn default() -> Loc
        ensures { result ≡ loc.Slot 0 }
    {
        Loc::Slot(0)
    }
}

/// The places that a node reads, in order. Contracts see them as a list.
#[derive(Debug, Drop)]
pub struct Locs {
    places: SmallVec<Loc, 2>,
}

impl Model for Locs {
    ghost use Rattle.std.specs.Prelude.{List};
    ghost use Rattle.cas_ltl.specs.declared.tree.Loc as place;

    ghost Value = { List place.Loc };

    ghost view = { λ o. o.places.items };
}

impl Locs {
    /// No place.
    pub fn new(alloc: Global) -> Locs
        ensures { result ≡ [] }
    {
        Locs {
            places: SmallVec::new(alloc),
        }
    }

    /// One place more.
    ///
    /// # Errors
    ///
    /// `NoMemory` for want of memory.
    pub fn push(&mut self, place: Loc) -> Result<(), NoMemory>
        ensures { OnOk result (self.new ≡ self.old ++ place ∷ []) }
    {
        Ok(self.places.push(place)?)
    }

    /// The places, in order.
    pub fn as_slice(&self) -> &[Loc]
        ensures { result.now ≡ self.now }
    {
        self.places.as_slice()
    }
}

/// A node, with the numbers of the nodes that may follow.
#[derive(Debug, Drop)]
pub enum LtlNode {
    /// It only goes on.
    Nop(u32),
    /// A place gets what the operator gives on the operands.
    Op(Op, Locs, Loc, u32),
    /// A place gets the word that the mode names on the operands.
    Load(Mode, Locs, Loc, u32),
    /// The word that the mode names gets the value of a place.
    Store(Mode, Locs, Loc, u32),
    /// A call of the function with this name.
    Call(Name, Locs, Option<Loc>, u32),
    /// A call in place of the function's return.
    Tail(Name, Locs),
    /// The first of the nodes where the condition holds, else the second.
    Test(Cond, Locs, u32, u32),
    Return(Option<Loc>),
    Lock(Name, u32),
    Unlock(Name, u32),
    /// Puts out the word in a place.
    Out(Loc, u32),
}

/// A function of LTL, which has one block of memory.
#[derive(Debug, Drop)]
pub struct LtlFun {
    pub decl: Decl,
    /// The size of its block, in words.
    pub block: u32,
    /// How many slots it has.
    pub slots: u32,
    /// The places that get the arguments.
    pub params: Seq<Loc>,
    /// The node at which it begins.
    pub entry: u32,
    /// Its nodes, by their numbers.
    pub nodes: Seq<LtlNode>,
}
