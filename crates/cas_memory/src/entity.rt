//! What the items of modules stand for.

/// What an item of a module stands for in a program. Words have numbers.
#[derive(Clone, Copy, Debug, PartialEq, Eq)]
pub enum Entity {
    /// A function with a body: its module's number, and its place among the functions of the module.
    Function {
        unit: u32,
        place: u32,
    },
    /// A shared global: its first word, its length, and the word of the lock that guards it, if there is one.
    Shared {
        first: u32,
        length: u32,
        guard: Option<u32>,
    },
    /// A table of constants: its first word and its length.
    Table {
        first: u32,
        length: u32,
    },
    /// A lock, by its word.
    Lock(u32),
}
