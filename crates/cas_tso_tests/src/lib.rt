//! Tests of the x86-TSO machine and of its runs, on images of objects texts. They stand in a library of their own, so
//! that no part is proved once more for them.
#![tactic(auto)]

#[cfg(test)]
mod due_tests;
#[cfg(test)]
mod ends_tests;
#[cfg(test)]
mod images;
#[cfg(test)]
mod litmus;
#[cfg(test)]
mod litmus_tests;
#[cfg(test)]
mod rows_tests;
