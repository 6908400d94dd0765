//! Where sets of locks have to be equal: both branches of an `if`, each way back to a loop's head or out of it, and
//! each return.

ghost use Rattle.cas_base.specs.declared.place.Place.{Place};
ghost use Rattle.cas_own.specs.Flow as f;
ghost use Rattle.cas_own.specs.Flow.{Flow};
ghost use Rattle.cas_check.specs.View.{Passes, Walked, head_of, onward, optional_head, set_at};

use crate::flow::{Halt, Head, Onward};
use crate::locks::Locks;
use cas_base::Place;
use cas_own::OwnCode;

/// The two sets are equal, or else the first lock in which they differ is the fault's.
pub fn check_same(code: OwnCode, place: Place, set: &Locks, other: &Locks) -> Result<(), Halt>
    ensures { (next : Flow) → Passes result next (f.same code place set.now other.now next) }
{
    match set.differs(other) {
        None => Ok(()),
        Some(lock) => Err(Halt::Fault(code, place, lock)),
    }
}

/// A way back to a loop's head, or out of the loop, where it is reached: the set is that at the head.
pub fn check_back(head: Head<'_>, reached: Option<&Locks>) -> Result<(), Halt>
    ensures { (next : Flow) → Passes result next (f.back (head_of head.entry) (set_at reached.entry) next) }
{
    match reached {
        None => Ok(()),
        Some(set) => check_same(OwnCode::O4, head.place, head.set, set),
    }
}

/// A `break` or `continue` in this loop, with this set. Outside a loop no typed module has one.
pub fn leave(head: Option<Head<'_>>, place: Place, set: &Locks) -> Result<Onward, Halt>
    ensures { Walked set.now result (f.leaves (optional_head head.entry) place set.now) }
{
    match head {
        None => Err(Halt::Fault(OwnCode::O4, place, 0)),
        Some(head) => {
            check_back(head, Some(set))?;
            Ok(Onward::Nowhere)
        }
    }
}

/// With which set an `if` continues whose branches were walked with this set.
pub fn joined(place: Place, set: &Locks, yes: Onward, no: Onward) -> Result<Onward, Halt>
    ensures { Walked set.now result (f.joined place (onward set.now yes) (onward set.now no)) }
{
    match yes.locks(set) {
        None => return Ok(no),
        Some(first) => match no.locks(set) {
            None => {}
            Some(second) => check_same(OwnCode::O3, place, first, second)?,
        },
    }
    Ok(yes)
}
