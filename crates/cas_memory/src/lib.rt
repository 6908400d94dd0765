//! Values and memory in code: values and objects (`value`), what items stand for (`entity`), the locals of one
//! activation (`block`, `locals`), and the memory of a thread (`memory`). Contracts speak of the definitions of
//! `cas_step`; `specs/Values`, `Entities`, `Blocks` and `Spans` say what the values, items and blocks of the code
//! stand for.
#![tactic(auto)]

mod block;
mod entity;
mod locals;
mod memory;
mod value;

pub use entity::Entity;
pub use memory::Memory;
pub use value::{Object, Value};
