//! What is open in a text.

use crate::body::Body;
use crate::draft::Draft;

/// What is open after the lines that were read.
#[derive(Debug, Drop)]
pub enum Inside {
    /// Nothing: the next line begins an object.
    Text,
    /// An object.
    Object(Draft),
    /// A function of an object.
    Function(Draft, Body),
}
