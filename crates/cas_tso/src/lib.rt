//! The x86-TSO machine on which linked code runs.
#![tactic(auto)]

mod end;
mod instruction;
pub mod laws;
mod machine;
mod options;
mod pending;
mod refused;
mod report;
mod rounds;
mod thread;

pub use end::End;
pub use machine::Tso;
pub use options::Options;
pub use pending::Pending;
pub use refused::{Choice, Refused};
pub use report::{Report, ThreadEnd, print_report};
pub use thread::{ROOM, ThreadCore};
