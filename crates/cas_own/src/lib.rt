//! The ownership check, as definitions: each shared global is touched only while its lock is held. `specs/Locks` has
//! sets of locks, `Uses` the globals that expressions name, `Flow` the lock flow: the set of locks before and after
//! each statement, or the first fault. `Checked` says which modules are checked. `specs/Laws` states the laws, which
//! the contracts of `laws` prove. The code has checked modules (`checked`) and the codes of faults (`fault`).
#![tactic(auto)]

mod checked;
mod fault;
pub mod laws;

pub use checked::Checked;
pub use fault::{OwnCode, OwnFault};
