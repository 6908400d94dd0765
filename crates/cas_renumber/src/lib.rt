//! Renumber: the nodes of a graph get other numbers, the entry 0, and those that can't be reached are left out. It
//! stands on `cas_graphs`, by whose law such a graph refines the other.
#![tactic(auto)]

pub mod laws;
