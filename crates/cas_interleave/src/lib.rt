//! From labels to interleavings: legal labels of the threads of a checked program, with a run of each, are those of an
//! interleaving. It stands on `cas_together`, `cas_bridge` and `cas_world`.
#![tactic(auto)]

pub mod laws;
