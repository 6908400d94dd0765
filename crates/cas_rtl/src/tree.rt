//! The functions of RTL.

ghost use Rattle.std.specs.Prelude.{◌≡◌, ◌∷◌, ◌++◌, [], IfOk, OnOk};

use cas_base::{Decl, Name, NoMemory, Seq};
use cas_sel::{Cond, Mode, Op};
use smallvec::SmallVec;
use std::alloc::Global;
use std::marker::Model;

/// The pseudo-registers that a node reads, in order. Contracts see them as a list.
#[derive(Debug, Drop)]
pub struct Operands {
    registers: SmallVec<u32, 2>,
}

impl Model for Operands {
    ghost use Rattle.std.specs.Prelude.{List, ℕ};

    ghost Value = { List ℕ };

    ghost view = { λ o. o.registers.items };
}

impl Operands {
    /// No operand.
    pub fn new(alloc: Global) -> Operands
        ensures { result ≡ [] }
    {
        Operands {
            registers: SmallVec::new(alloc),
        }
    }

    /// One operand more.
    ///
    /// # Errors
    ///
    /// `NoMemory` for want of memory.
    pub fn push(&mut self, register: u32) -> Result<(), NoMemory>
        ensures { OnOk result (self.new ≡ self.old ++ register ∷ []) }
    {
        Ok(self.registers.push(register)?)
    }

    /// The operands, in order.
    pub fn as_slice(&self) -> &[u32]
        ensures { result.now ≡ self.now }
    {
        self.registers.as_slice()
    }

    /// The same operands once more.
    ///
    /// # Errors
    ///
    /// `NoMemory` for want of memory.
    pub fn copy(&self, alloc: Global) -> Result<Operands, NoMemory>
        ensures { IfOk result (λ copied. copied ≡ self.now) }
    {
        let registers = SmallVec::from_slice(alloc, self.as_slice())?;
        Ok(Operands { registers })
    }
}

/// A node, with the numbers of the nodes that may follow.
#[derive(Debug, Drop)]
pub enum RtlNode {
    /// It only goes on.
    Nop(u32),
    /// A pseudo-register gets what the operator gives on the operands.
    Op(Op, Operands, u32, u32),
    /// A pseudo-register gets the word that the mode names on the operands.
    Load(Mode, Operands, u32, u32),
    /// The word that the mode names gets the value of a pseudo-register.
    Store(Mode, Operands, u32, u32),
    /// A call of the function with this name; its result goes to a pseudo-register.
    Call(Name, Operands, Option<u32>, u32),
    /// A call in place of the function's return.
    Tail(Name, Operands),
    /// The first of the nodes where the condition holds, else the second.
    Test(Cond, Operands, u32, u32),
    Return(Option<u32>),
    Lock(Name, u32),
    Unlock(Name, u32),
    /// Puts out the word in a pseudo-register.
    Out(u32, u32),
}

impl RtlNode {
    /// The same node once more.
    ///
    /// # Errors
    ///
    /// `NoMemory` for want of memory.
    pub fn copy(&self, alloc: Global) -> Result<RtlNode, NoMemory>
        ensures { IfOk result (λ copied. copied ≡ self.now) }
    {
        Ok(match self {
            RtlNode::Nop(n) => RtlNode::Nop(*n),
            RtlNode::Op(op, args, r, n) => RtlNode::Op(*op, args.copy(alloc)?, *r, *n),
            RtlNode::Load(mode, args, r, n) => {
                RtlNode::Load(mode.copy(alloc)?, args.copy(alloc)?, *r, *n)
            }
            RtlNode::Store(mode, args, r, n) => {
                RtlNode::Store(mode.copy(alloc)?, args.copy(alloc)?, *r, *n)
            }
            RtlNode::Call(name, args, r, n) => {
                RtlNode::Call(name.copy(alloc)?, args.copy(alloc)?, *r, *n)
            }
            RtlNode::Tail(name, args) => RtlNode::Tail(name.copy(alloc)?, args.copy(alloc)?),
            RtlNode::Test(cond, args, n, m) => RtlNode::Test(*cond, args.copy(alloc)?, *n, *m),
            RtlNode::Return(r) => RtlNode::Return(*r),
            RtlNode::Lock(name, n) => RtlNode::Lock(name.copy(alloc)?, *n),
            RtlNode::Unlock(name, n) => RtlNode::Unlock(name.copy(alloc)?, *n),
            RtlNode::Out(r, n) => RtlNode::Out(*r, *n),
        })
    }
}

/// A function of RTL, which has one block of memory.
#[derive(Debug, Drop)]
pub struct RtlFun {
    pub decl: Decl,
    /// The size of its block, in words.
    pub block: u32,
    /// How many pseudo-registers it has.
    pub regs: u32,
    /// Those that get the arguments.
    pub params: Seq<u32>,
    /// The node at which it begins.
    pub entry: u32,
    /// Its nodes, by their numbers.
    pub nodes: Seq<RtlNode>,
}
