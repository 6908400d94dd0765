//! How a thread ended.

use cas_asm::BadWhy;

/// How a thread ended.
#[derive(Clone, Copy, Debug, PartialEq, Eq)]
pub enum End {
    /// It returned to the outermost return place.
    Done,
    /// It executed as many instructions as it may.
    Fuel,
    /// Its next instruction would set esp below the stack's first address.
    Stack,
    /// Its next instruction is an `out`, and it has made as many outputs as it may.
    Outs,
    /// Its next instruction is bad.
    Bad(BadWhy),
}
