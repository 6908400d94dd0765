//! The answers of turns, and the states of threads in a world.

use cas_base::{Place, Why};

/// Why a turn of a thread didn't take its step.
#[derive(Clone, Copy, Debug, PartialEq, Eq)]
pub enum WorldAnswer {
    /// It ran out of memory, at a call or at a word that is output. The next step isn't Bad.
    Memory,
    /// The next step takes a lock that a thread has.
    Waits {
        /// The number of the lock's word.
        lock: u32,
        /// The thread that has it.
        holder: u32,
    },
    /// The thread has ended.
    Ended,
    /// The next step is Bad.
    Bad {
        why: Why,
        /// The number of the module.
        module: u32,
        /// The place of the statement in it.
        place: Place,
    },
}

/// The state of a thread.
#[derive(Clone, Copy, Debug, PartialEq, Eq)]
pub enum ThreadState {
    /// It may take its next step.
    Running,
    /// It has ended.
    Ended,
    /// Its next step takes a lock that a thread has.
    Waits {
        /// The number of the lock's word.
        lock: u32,
        /// The thread that has it.
        holder: u32,
    },
    /// Its next step is Bad.
    Bad {
        why: Why,
        /// The number of the module.
        module: u32,
        /// The place of the statement in it.
        place: Place,
    },
}
