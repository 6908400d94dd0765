//! Choices, and why one is refused.

/// What a machine does next. A thread is named by its number, from 0 on.
#[derive(Clone, Copy, Debug, PartialEq, Eq)]
pub enum Choice {
    /// The thread executes its next instruction, or ends in place of it.
    Run(u32),
    /// The thread's oldest store goes to memory.
    Drain(u32),
}

/// Why a choice is refused.
#[derive(Clone, Copy, Debug, PartialEq, Eq)]
pub enum Refused {
    /// The thread that is to run has an end.
    Ended,
    /// The thread that is to drain has an empty buffer.
    NothingToDrain,
    /// The thread's next instruction stores and its buffer is full, or is locked and its buffer isn't empty.
    MustDrain,
}
