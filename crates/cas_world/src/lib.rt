//! Worlds: threads that take turns over shared words and locks. This crate has definitions and their laws, and no
//! code. The definitions are in `specs/`: worlds, their steps and interleavings (`World`), safe and race-free
//! programs (`Races`), the invariant of the lock flow (`Lock_flow`), ownership of locks (`Owned`), sound worlds
//! (`Sound_worlds`), and schedules and rounds (`Turns`). The contracts of `laws` prove that programs of checked
//! modules are race-free, and that no thread of a program is stuck.
#![tactic(auto)]

pub mod laws;
