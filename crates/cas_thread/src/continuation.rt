//! Continuations.

/// An item of a continuation, by the number of a row of its function.
#[derive(Clone, Copy, Debug, PartialEq, Eq)]
pub(crate) enum ContItem {
    /// A statement to begin.
    Begin(u32),
    /// A `while` or `do` that has begun: its condition is next.
    Begun(u32),
    /// A `for` after its first part: its condition is next.
    Loop(u32),
    /// What a `for` does after a turn.
    Next(u32),
}
