//! Clight as a language of the layer of calls: its functions, its activations, and the unit that a typed module is.
//! The meaning of a step is that of `cas_step`; here it is asked of a share and of blocks of memory. It stands on
//! `cas_runs` and `cas_step`.
#![tactic(auto)]
