//! Items of schedules.

/// Turns of one thread, one after the other.
#[derive(Clone, Copy, Debug, PartialEq, Eq)]
pub struct Item {
    /// The thread's number.
    pub thread: u32,
    /// How many turns it has.
    pub count: u32,
}
