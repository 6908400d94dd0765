//! The bridge between a thread of a whole program and the same thread over label runs: a step of the one is a step of
//! the other, over the words of its share. It stands on `cas_step` and `cas_clight`.
#![tactic(auto)]

pub mod laws;
