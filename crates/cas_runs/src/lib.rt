//! What it means that compiled code refines its source, and the law by which each pass of the compiler
//! shows it. A run of a unit, a function or a thread is a list of labels with quiet steps between them;
//! `docs/PROOF.md` tells it with a picture. The functions here have no effect: each carries a law over
//! the definitions of `specs/`. It stands on `cas_base`.
#![tactic(auto)]

mod compose;
mod layer;
mod pass;
mod refused;
mod rules;
mod walking;

pub use compose::{
    functions_compose, functions_refine_themselves, quiet_steps_paid, refinements_compose,
    refines_itself, runs_determined, runs_kept, threads_compose, threads_kept,
    threads_refine_themselves, units_compose, units_refine_themselves,
};
pub use layer::{FunctionPass, functions_refine, threads_refine, units_refine};
pub use pass::{ChainedPass, Pass, chains_refine, run_pass, runs_match, steps_refine};
pub use refused::{
    dropped_store_refused, endless_loop_refused, kept_word_refused, quiet_leave_refused,
    self_lock_refused, two_values_refused, wrong_place_refused,
};
pub use rules::{
    crossings_are_received, functions_keep_rules, natural_layouts_fit, never_full,
    programs_fit_units, programs_know_results, received_labels_exist, sections_keep_kinds,
    sections_keep_locks, sections_keep_rules, threads_keep_rules, threads_never_cross,
    units_call_out, units_in_order_are_defined, units_keep_rules,
};
pub use walking::{
    bad_now, beginnings_are_one, equal_machines_refine, equal_machines_run, longest_run,
    runs_are_walks, walks_are_runs,
};
