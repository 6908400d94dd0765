//! The small-step semantics of the language, for one thread over resolved statements. This crate has definitions and
//! their laws, and no code. Read the definitions in `specs/` in this order:
//!
//! - `Asks`: values, and evaluation as a tree of queries; `Operators` and `Pointers`: operators on words and on
//!   pointers; `Evaluate`: the value of an expression and the cell of a target; `Answered`: evaluation with its
//!   queries answered;
//! - `Continuation`: continuations and the effect of each statement, the table of the language's steps;
//! - `Env`: environments; `Step`: memory and the step of a thread;
//! - `Well_formed`: well-formed environments, well-typed stores and reachable threads; `Sound`, with `Stands`: sound
//!   threads; `Laws`: the laws of steps.
//!
//! The contracts of `laws` are proved. `proofs/Examples.antt` and `proofs/Place_examples.antt` run small programs.
#![tactic(auto)]

pub mod laws;
