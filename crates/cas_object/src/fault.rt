//! Faults of objects texts.

ghost use Rattle.std.specs.Prelude.{◌≡◌};
ghost use Rattle.cas_object.specs.Texts as spec;

use cas_base::NoMemory;
use cas_object_line::LineFault;
use std::alloc::{AllocError, AllocFailed};

/// The code of a fault of an objects text.
#[derive(Clone, Copy, Debug, PartialEq, Eq)]
pub enum ObjectCode {
    /// An object of another version than 1.
    B1,
    /// A line that isn't one that may stand where it is.
    B2,
    /// A number out of its range, a label that is set twice, or at its `end` a function that uses a label that it
    /// doesn't set.
    B3,
    /// The text ends before `end object`, or has no object.
    B4,
    /// A function with too many instructions, or an object with too many words or functions.
    B5,
}

/// Why a text is no objects text.
#[derive(Clone, Copy, Debug, PartialEq, Eq)]
pub enum ObjectFault {
    /// Want of memory.
    Memory,
    /// Its first fault.
    At {
        /// The fault's code.
        code: ObjectCode,
        /// The number of the line, from 1.
        line: u32,
    },
}

/// The fault of the line with this number.
pub fn fault_of(fault: LineFault, line: u32) -> ObjectFault
    ensures { result ≡ spec.fault_of fault line }
{
    match fault {
        LineFault::Memory => ObjectFault::Memory,
        LineFault::Form => ObjectFault::At {
            code: ObjectCode::B2,
            line,
        },
        LineFault::Range => ObjectFault::At {
            code: ObjectCode::B3,
            line,
        },
    }
}

impl From<AllocError> for ObjectFault {
    ghost use Rattle.std.specs.Prelude.{◌≡◌};
    ghost use Rattle.cas_object.specs.declared.fault.ObjectFault.TheVariants.{Memory};

    ghost from_gives = { λ _ fault. fault ≡ Memory };

    fn from(_error: AllocError) -> Self {
        ObjectFault::Memory
    }
}

impl<T: Drop> From<AllocFailed<T>> for ObjectFault {
    ghost use Rattle.std.specs.Prelude.{◌≡◌};
    ghost use Rattle.cas_object.specs.declared.fault.ObjectFault.TheVariants.{Memory};

    ghost from_gives = { λ _ fault. fault ≡ Memory };

    fn from(_error: AllocFailed<T>) -> Self {
        ObjectFault::Memory
    }
}

impl From<NoMemory> for ObjectFault {
    ghost use Rattle.std.specs.Prelude.{◌≡◌};
    ghost use Rattle.cas_object.specs.declared.fault.ObjectFault.TheVariants.{Memory};

    ghost from_gives = { λ _ fault. fault ≡ Memory };

    fn from(_error: NoMemory) -> Self {
        ObjectFault::Memory
    }
}
