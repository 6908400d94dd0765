//! Graphs with other numbers: what passes over graphs have in common. Successors, the nodes that can be reached, and
//! the graph in which each successor is another number, at which the node itself is or the one that Nops lead to. Such a
//! graph refines the other, over any places (`proofs/Shortcuts`); Renumber and Tunneling stand on that.
#![tactic(auto)]

pub mod laws;
