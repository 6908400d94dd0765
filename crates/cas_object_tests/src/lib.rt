//! Tests of objects texts, of lock texts and of linking. They stand in a library of their own, so that no part is
//! proved once more for them.
#![tactic(auto)]

#[cfg(test)]
mod lines_tests;
#[cfg(test)]
mod link_tests;
#[cfg(test)]
mod lock_tests;
#[cfg(test)]
mod objects_tests;
