//! Tests of the top call. They stand above it in a library of their own, so that it isn't proved once more for them.
#![tactic(auto)]

#[cfg(test)]
mod calls;
#[cfg(test)]
mod owning_tests;
#[cfg(test)]
mod running_tests;
#[cfg(test)]
mod stepping_tests;
#[cfg(test)]
mod turns_tests;
#[cfg(test)]
mod typing_tests;
#[cfg(test)]
mod worlds_tests;
