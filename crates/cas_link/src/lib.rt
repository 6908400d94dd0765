//! The linker: objects, the lock object and the threads' entries become an image, or the first refusal. All names of a
//! program are of one space. The lock object's code stands first, then the functions in the order of objects; words
//! stand in the order of objects and definitions.
#![tactic(auto)]

mod check;
mod code;
mod image;
mod linking;
mod parts;
mod table;
mod text;

pub use linking::{link, link_map};
