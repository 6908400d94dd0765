//! Why a module isn't checked.

use cas_base::{Name, NoMemory, Place};

/// What is wrong with the locks of a module.
#[derive(Clone, Copy, Debug, PartialEq, Eq, Hash)]
pub enum OwnCode {
    /// A shared global is read or written where its lock isn't held.
    O1,
    /// A function is called where a lock that its caller has to hold isn't held.
    O2,
    /// The branches of an `if` go on with different locks.
    O3,
    /// A loop goes back to its head, or out of it, with other locks than at its head.
    O4,
    /// A function returns with other locks than its caller holds.
    O5,
    /// A lock is taken where it is held.
    O6,
    /// A lock is released where it isn't held.
    O7,
    /// A shared global is guarded by what is no lock declared before.
    O8,
}

/// Why a module isn't checked: the first fault of its ownership, or that it is out of memory.
#[derive(Debug, Drop)]
pub enum OwnFault {
    /// Out of memory.
    Memory,
    /// What is wrong, where, and the lock that is kept.
    At {
        code: OwnCode,
        place: Place,
        lock: Name,
    },
}

impl From<NoMemory> for OwnFault {
    ghost from_gives = { λ _ fault. fault ≡ Memory };

    ghost use Rattle.std.specs.Prelude.{◌≡◌};
    ghost use Rattle.cas_own.specs.declared.fault.OwnFault.TheVariants.{Memory};

    fn from(_error: NoMemory) -> Self {
        OwnFault::Memory
    }
}
