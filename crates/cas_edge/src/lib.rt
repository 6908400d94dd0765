//! An edge for each settled program: the words of its globals one after another, and its functions. The edge fits the
//! program, and each of its units with the unit's functions inside. It stands on `cas_settle` and `cas_runs`.
#![tactic(auto)]

mod laws;

pub use laws::{settled_programs_fit, settled_units_fit};
