//! From the x86-TSO machine to threads over atomic locks: the lock object is sound.
//!
//! An image begins with the eight instructions of the lock object. Each run of the machine on it has labels: Lock at
//! the locked decrement that gives 0, Unlock as the store of 1 enters its buffer, Out and Done. The labels are legal,
//! and each thread over atomic locks, whose calls of the lock object are one step each, has the thread's labels and is
//! where the machine's thread is; or a first part of the run leads to a state where such a thread's next step is Bad.
#![tactic(auto)]

ghost use Rattle.std.specs.Prelude.{◌≤◌};
ghost use Rattle.cas_refine.specs.Listing.{HasRoom, IsSoundLock};
ghost use Rattle.cas_tso.specs.State.{Setup};

/// The labels of a run explain its state, or those of a first part of it lead to a Bad step over atomic locks.
#[tactic(auto, using(crate::proofs::Runs::lock_is_sound))]
pub fn lock_sound()
    ensures { (p : Setup) → IsSoundLock p }
{}

/// The stacks end within words where each has at most 1,048,576 words, the most that a command takes.
#[tactic(auto, using(crate::proofs::Room::has_room))]
pub fn stacks_have_room()
    ensures { (p : Setup) → p.options.stack ≤ 1048576 → HasRoom p }
{}
