//! Allocation: from RTL to LTL. Each pseudo-register gets a place, arguments and results are moved to where the
//! convention has them, and an operation or a load whose result isn't live becomes a Nop. So, with pseudo-register k in
//! slot k,
//!
//! ```text
//! 0: Return #1                  0: eax = slot 1, then 2        2: Return eax
//! 1: Call f(#0) to #1, then 0   1: eax = slot 0, then 3        3: Call f(eax) to eax, then 4
//!                                                              4: slot 1 = eax, then 0
//! ```
//!
//! What is made is told for any assignment of places and any solution of liveness (`specs/Allocation`). It stands on
//! `cas_rtl`, `cas_ltl` and `cas_graphs`.
#![tactic(auto)]

pub mod laws;
