//! Why a text gives no lock object.

use cas_base::NoMemory;
use std::alloc::{AllocError, AllocFailed};

/// Why a text gives no lock object.
#[derive(Clone, Copy, Debug, PartialEq, Eq)]
pub enum LockFault {
    /// Want of memory.
    Memory,
    /// K1: a line that is none of a lock text; the first such line, from 1.
    Text {
        /// The line.
        line: u32,
    },
    /// K2: the body isn't the accepted one. The number, from 1, of the first instruction that differs in its words,
    /// operands or target, or that lacks or moves a label `lock` or `unlock`; 9 where a further instruction follows.
    Body {
        /// The instruction.
        instruction: u32,
    },
}

impl From<AllocError> for LockFault {
    ghost use Rattle.std.specs.Prelude.{◌≡◌};
    ghost use Rattle.cas_lock.specs.declared.fault.LockFault.TheVariants.{Memory};

    ghost from_gives = { λ _ fault. fault ≡ Memory };

    fn from(_error: AllocError) -> Self {
        LockFault::Memory
    }
}

impl<T: Drop> From<AllocFailed<T>> for LockFault {
    ghost use Rattle.std.specs.Prelude.{◌≡◌};
    ghost use Rattle.cas_lock.specs.declared.fault.LockFault.TheVariants.{Memory};

    ghost from_gives = { λ _ fault. fault ≡ Memory };

    fn from(_error: AllocFailed<T>) -> Self {
        LockFault::Memory
    }
}

impl From<NoMemory> for LockFault {
    ghost use Rattle.std.specs.Prelude.{◌≡◌};
    ghost use Rattle.cas_lock.specs.declared.fault.LockFault.TheVariants.{Memory};

    ghost from_gives = { λ _ fault. fault ≡ Memory };

    fn from(_error: NoMemory) -> Self {
        LockFault::Memory
    }
}
