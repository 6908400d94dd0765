//! What linking asks of a source language: its activations do the same wherever their objects are, so that a unit's
//! steps are those of a thread of the whole program. It stands on `cas_runs`.
#![tactic(auto)]
