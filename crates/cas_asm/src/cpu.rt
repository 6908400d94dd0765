//! One processor.

ghost use Rattle.std.specs.Prelude.{◌≡◌, ◌<◌, ◌≤◌, length, IfOk};
ghost use Rattle.cas_asm.specs.Start.{start_of};

use crate::flags::Flags;
use crate::image::Image;
use crate::regs::{Core, Regs};
use cas_base::NoMemory;
use std::alloc::Global;
use std::marker::Model;

/// The address of the first stack's first word; thread i's stack begins at i stacks after it.
pub const STACK_BASE: u32 = 268_435_456;
/// The most words of a stack.
pub const STACK_LIMIT: u32 = 1_048_576;
/// The place to which an outermost function returns.
pub const NO_RETURN: u32 = 4_294_967_295;

/// A processor: its core and its stack. Contracts see it as a `State`.
#[derive(Drop)]
pub struct Cpu {
    pub(crate) core: Core,
    pub(crate) stack: Vec<u32>,
    pub(crate) bottom: u32,
}

impl Model for Cpu {
    ghost use Rattle.std.specs.Prelude.{◌≤◌, ◌<◌, ◌+◌, ◌*◌, ◌^◌, length};
    ghost use Rattle.cas_asm.specs.State.{State};

    ghost Value = { State };

    ghost view = { λ c. record { core = c.core; stack = c.stack.items; bottom = c.bottom } };

    ghost invariant = { λ c. c.bottom + 4 * length c.stack.items < 2 ^ 32 };
}

impl Cpu {
    /// The processor of a thread at its start: at its entry, with its number in eax, esp at the last word of its
    /// stack, which holds the outermost return place, and all else 0.
    ///
    /// # Errors
    ///
    /// `NoMemory` for want of memory.
    pub fn new(alloc: Global, image: &Image, thread: u32, stack: u32) -> Result<Cpu, NoMemory>
        requires entry { thread < length image.now.entries }
        requires least { 16 ≤ stack }
        requires most { stack ≤ 1048576 }
        ensures { IfOk result (λ cpu. cpu ≡ start_of image.now thread stack) }
    {
        let words = stack as usize;
        let bottom = STACK_BASE + 4 * stack * thread;
        let mut items = Vec::from_elem(alloc, 0, words)?;
        items[words - 1] = NO_RETURN;
        Ok(Cpu {
            core: Core {
                regs: Regs {
                    eax: thread,
                    esp: bottom + 4 * (stack - 1),
                    ..Regs::zero()
                },
                flags: Flags::CLEARED,
                place: image.entries.as_slice()[thread as usize],
            },
            stack: items,
            bottom,
        })
    }

    /// Its registers, flags and place.
    pub fn core(&self) -> Core
        ensures { result ≡ self.now.core }
    {
        self.core
    }
}
