//! Evaluation in code: values of expressions and arguments (`expressions`, `args`), conditions and the cells of
//! targets (`targets`), operators on words and on pointers (`operators`, `pointers`), the context of an evaluation
//! (`context`), and why there is no value (`values`). Each contract says that the code answers what the definition
//! in `cas_step` answers with the same words and memory (`specs/Answer`).
#![tactic(auto)]

mod args;
mod context;
mod expressions;
mod operators;
mod pointers;
mod targets;
mod values;

pub use args::{NoArguments, arguments, check_arguments};
pub use context::{EvalContext, entity_at};
pub use expressions::evaluate;
pub use targets::{Cell, target_cell, test};
pub use values::{NoResult, word_in};
