//! The acts of a step, and why a step has no defined result.

/// Why a step of the source language has no defined result.
#[derive(Clone, Copy, Debug, PartialEq, Eq, Hash)]
pub enum Why {
    /// A division or remainder by zero.
    DivZero,
    /// The signed division or remainder of -2147483648 by -1.
    DivRange,
    /// An index, an access or a pointer outside its object.
    Index,
    /// A null pointer where an object is needed.
    Null,
    /// A pointer to an object whose activation has returned.
    Dead,
    /// Places of different objects where one object is needed.
    Across,
}

/// What a step of a thread does to locks and output, and whether it ends the thread. A lock is named by its
/// word's number.
#[derive(Clone, Copy, Debug, PartialEq, Eq, Hash)]
pub enum Act {
    /// Nothing: it touches no lock and puts nothing out.
    Quiet,
    /// Takes the lock with this word's number.
    Lock(u32),
    /// Gives the lock with this word's number back.
    Unlock(u32),
    /// Puts this word out.
    Out(u32),
    /// The thread has ended.
    Done,
    /// The step has no defined result.
    Bad(Why),
}
