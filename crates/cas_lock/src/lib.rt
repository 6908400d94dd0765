//! The lock object: the one body of `lock` and `unlock` that is accepted, and the reader of its text. The word of a
//! lock is 1 when it is free, and 0 or negative when it is taken. It stands on `cas_base`, `cas_asm` and `cas_pieces`.
#![tactic(auto)]

mod body;
mod fault;
mod line;
mod object;
mod read;
mod step;

pub use body::Label;
pub use fault::LockFault;
pub use line::Entry;
pub use object::LockObject;
pub use read::read_lock;
pub use step::Step;
