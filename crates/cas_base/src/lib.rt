//! What every part of the compiler speaks of: words, kinds and types, names, places, declarations, and
//! the acts of a step. It depends on the standard library alone.
#![tactic(auto)]

mod act;
mod decl;
mod equal;
mod kind;
mod label;
pub mod laws;
mod memory;
mod name;
mod names;
mod place;
mod print;
mod reg;
mod seq;
mod text;
mod word;

pub use act::{Act, Why};
pub use decl::{Decl, Form, Global, Unit};
pub use kind::{Kind, Ty};
pub use label::{Footprint, Label};
pub use memory::NoMemory;
pub use name::{NAME_LIMIT, Name, NameFault};
pub use names::Names;
pub use place::Place;
pub use reg::Reg;
pub use seq::Seq;
pub use text::Text;
pub use word::{
    add, div_signed, div_unsigned, mul, narrow, rem_signed, rem_unsigned, sar, shl, shr, sub,
};
