//! Why a module isn't typed.

ghost use Rattle.cas_type.specs.Answer.{Passes, Refuses};
ghost use Rattle.cas_typed.specs.Faults.{at_name, fault};
ghost use Rattle.std.specs.Prelude.{Some, None};

use cas_base::{Name, NoMemory, Place};
use cas_syntax::Ident;
use cas_typed::{TypeCode, TypeCount};
use std::alloc::{AllocFailed, Global};

/// Why a module isn't typed: the first fault of it, or that it is out of memory.
#[derive(Debug, Drop)]
pub enum TypeFault {
    /// Out of memory.
    Memory,
    /// What is wrong, where, and the name that is kept.
    At {
        code: TypeCode,
        place: Place,
        name: Option<Name>,
    },
    /// A count that passes its limit: the count, or the greatest `u64` where it is greater.
    Limit {
        place: Place,
        what: TypeCount,
        counted: u64,
    },
}

impl From<NoMemory> for TypeFault {
    ghost from_gives = { λ _ fault. fault ≡ Memory };

    ghost use Rattle.std.specs.Prelude.{◌≡◌};
    ghost use Rattle.cas_type.specs.declared.fault.TypeFault.TheVariants.{Memory};

    fn from(_error: NoMemory) -> Self {
        TypeFault::Memory
    }
}

impl<T: Drop> From<AllocFailed<T>> for TypeFault {
    ghost from_gives = { λ _ fault. fault ≡ Memory };

    ghost use Rattle.std.specs.Prelude.{◌≡◌};
    ghost use Rattle.cas_type.specs.declared.fault.TypeFault.TheVariants.{Memory};

    fn from(_error: AllocFailed<T>) -> Self {
        TypeFault::Memory
    }
}

/// A fault at a name, which is kept.
pub fn refusal(alloc: Global, code: TypeCode, ident: &Ident) -> TypeFault
    ensures { Refuses result (at_name code ident.now) }
{
    refusal_of(alloc, code, &ident.name, ident.place)
}

/// No more than a fault at a name, which is kept.
pub fn refuse(alloc: Global, code: TypeCode, ident: &Ident) -> Result<(), TypeFault>
    ensures { Passes result (at_name code ident.now) }
{
    Err(refusal(alloc, code, ident))
}

/// A fault at a place, without a name.
pub fn misfit(code: TypeCode, place: Place) -> TypeFault
    ensures { Refuses result (Some (fault code place None)) }
{
    TypeFault::At {
        code,
        place,
        name: None,
    }
}

/// A fault at a place, with a name, which is kept.
pub fn refusal_of(alloc: Global, code: TypeCode, name: &Name, place: Place) -> TypeFault
    ensures { Refuses result (Some (fault code place (Some name.now))) }
{
    match name.copy(alloc) {
        Ok(name) => TypeFault::At {
            code,
            place,
            name: Some(name),
        },
        Err(NoMemory) => TypeFault::Memory,
    }
}
