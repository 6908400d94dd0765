//! Programs: what typed modules that settle mean together. `specs/Program` defines what each item of each module
//! stands for, a program's initial words, and the environment of its steps. `specs/Laws` states the laws, which the
//! contracts of `laws` prove: the environment is well-formed, and declarations of one name declare one thing. This
//! crate has no code.
#![tactic(auto)]

pub mod laws;
