//! Tests of parts of the compiler below the top call. They stand in a library of their own, so that no part is proved
//! once more for them.
#![tactic(auto)]

#[cfg(test)]
mod commands_tests;
#[cfg(test)]
mod declarations_tests;
#[cfg(test)]
mod lexing_tests;
#[cfg(test)]
mod names_tests;
#[cfg(test)]
mod printing_tests;
#[cfg(test)]
mod programs_tests;
#[cfg(test)]
mod reading_tests;
#[cfg(test)]
mod trial_tests;
#[cfg(test)]
mod words_tests;
