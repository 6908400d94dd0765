//! The answers of the lexer that aren't tokens.

use crate::code::ReadCode;
use cas_base::{NoMemory, Place};
use std::alloc::{AllocError, AllocFailed};

/// Why a text gives no tokens.
#[derive(Clone, Copy, Debug, PartialEq, Eq)]
pub enum LexFault {
    /// It ran out of memory.
    Memory,
    /// The first lexical fault of the text.
    At {
        /// R1, R2, R3, R4 or R7.
        code: ReadCode,
        /// Where it is.
        place: Place,
    },
}

impl From<AllocError> for LexFault {
    ghost use Rattle.std.specs.Prelude.{◌≡◌};
    ghost use Rattle.cas_lex.specs.declared.fault.LexFault.TheVariants.{Memory};

    ghost from_gives = { λ _ fault. fault ≡ Memory };

    fn from(_error: AllocError) -> Self {
        LexFault::Memory
    }
}

impl<T: Drop> From<AllocFailed<T>> for LexFault {
    ghost use Rattle.std.specs.Prelude.{◌≡◌};
    ghost use Rattle.cas_lex.specs.declared.fault.LexFault.TheVariants.{Memory};

    ghost from_gives = { λ _ fault. fault ≡ Memory };

    fn from(_error: AllocFailed<T>) -> Self {
        LexFault::Memory
    }
}

impl From<NoMemory> for LexFault {
    ghost use Rattle.std.specs.Prelude.{◌≡◌};
    ghost use Rattle.cas_lex.specs.declared.fault.LexFault.TheVariants.{Memory};

    ghost from_gives = { λ _ fault. fault ≡ Memory };

    fn from(_error: NoMemory) -> Self {
        LexFault::Memory
    }
}
