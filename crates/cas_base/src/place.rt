//! Places in a text.

/// A place in a text. Places compare by their order in the text.
#[derive(Clone, Copy, Debug, PartialEq, Eq, PartialOrd, Ord, Hash)]
pub struct Place {
    /// The line, counted from 1.
    pub line: u32,
    /// The column in its line, in bytes, counted from 1.
    pub col: u32,
}
