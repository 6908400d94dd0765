//! A trial of the form in which each pass of the compiler is proved, over the layer of calls of `cas_runs`: four
//! small passes, each with the files that all passes have. `joining` puts two variables into one block, `tailing`
//! makes tail calls, `lowering` makes two instructions of one and none of another, `summing` drops a sum with 0.
//! `laws`, `raw` and `threads` only test the definitions, and what is refused stands in `refused`. It stands on
//! `cas_base` and `cas_runs`.
#![tactic(auto)]

mod joining;
mod laws;
mod lowering;
mod raw;
mod refused;
mod summing;
mod tailing;
mod threads;

pub use joining::{Apart, Joined, Joining, join, joined_weighs_less, threads_join, units_join};
pub use laws::{a_call_is_received, a_unit_fits, apart_keeps_rules, pointer_comes_back};
pub use lowering::{
    High, HighFunction, Low, LowFunction, Lowering, high_units_keep_as_source, lower, units_lower,
};
pub use raw::{Slowing, relay_keeps_kinds, relay_keeps_rules, relays_chain, slow};
pub use refused::{
    cached_variable_refused, dear_steps_refused, hidden_activation_refused, offered_values_refused,
    swapped_variables_refused, unread_word_refused,
};
pub use summing::units_sum;
pub use tailing::{Relayed, Relaying, TailCalls, relay, units_drop, units_relay};
pub use threads::{
    a_thread_fits, a_thread_goes_on, another_word_refused, edge_without_table_refused,
};
