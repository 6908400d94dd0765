//! The result of walking a statement: with which locks the walk continues, or what is wrong.

ghost use Rattle.std.specs.Prelude.{◌≡◌, Some};
ghost use Rattle.cas_own.specs.Locks.{Locks};
ghost use Rattle.cas_check.specs.View.{onward, set_at};

use crate::locks::Locks;
use cas_base::{NoMemory, Place};
use cas_own::OwnCode;

/// Why a walk ends: the first fault, with the number of the lock that is kept, or that it is out of memory.
#[derive(Debug, Drop)]
pub enum Halt {
    /// Out of memory.
    Memory,
    /// What is wrong, where, and the lock that is kept.
    Fault(OwnCode, Place, u32),
}

impl From<NoMemory> for Halt {
    ghost from_gives = { λ _ halt. halt ≡ Memory };

    ghost use Rattle.std.specs.Prelude.{◌≡◌};
    ghost use Rattle.cas_check.specs.declared.flow.Halt.TheVariants.{Memory};

    fn from(_error: NoMemory) -> Self {
        Halt::Memory
    }
}

/// The head of a loop: the loop's place, and the set there.
#[derive(Clone, Copy)]
pub struct Head<'a> {
    pub place: Place,
    pub set: &'a Locks,
}

/// With which locks a walk continues.
#[derive(Debug, Drop)]
pub enum Onward {
    /// With the set that it had.
    Same,
    /// With this set.
    With(Locks),
    /// It doesn't continue.
    Nowhere,
}

impl Onward {
    /// The set with which a walk continues that had this one, if it does.
    pub fn locks<'a>(&'a self, before: &'a Locks) -> Option<&'a Locks>
        ensures { set_at result ≡ onward before.now self.now }
    {
        match self {
            Onward::Same => Some(before),
            Onward::With(set) => Some(set),
            Onward::Nowhere => None,
        }
    }

    /// The result of a walk and of the next one, which begins with the set with which the first continues.
    pub fn then(self, next: Onward) -> Onward
        ensures { (before set : Locks) → onward before self ≡ Some set → onward before result ≡ onward set next }
    {
        match next {
            Onward::Same => self,
            Onward::With(set) => Onward::With(set),
            Onward::Nowhere => Onward::Nowhere,
        }
    }
}
