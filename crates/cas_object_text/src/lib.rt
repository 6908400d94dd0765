//! Objects: what a compiled module is, and what is always true of one. The text of objects is written and read by the
//! crates above. It stands on `cas_base` and `cas_asm`.
#![tactic(auto)]

mod object;

pub use object::Object;
