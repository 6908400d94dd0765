//! What of a thread's steps others can tell, and which shared words a step touches.

use crate::seq::Seq;

/// What a thread does that others can tell: it takes or gives back a lock, puts a word out, or ends. A lock
/// is named by its word's number.
#[derive(Clone, Copy, Debug, PartialEq, Eq)]
pub enum Label {
    /// Takes the lock of this word.
    Lock(u32),
    /// Gives back the lock of this word.
    Unlock(u32),
    /// Puts this word out.
    Out(u32),
    /// The thread has ended.
    Done,
}

/// The shared words that a step reads and those that it writes, by number.
#[derive(Debug, Drop, PartialEq, Eq)]
pub struct Footprint {
    /// The words that are read.
    pub reads: Seq<u32>,
    /// The words that are written.
    pub writes: Seq<u32>,
}
