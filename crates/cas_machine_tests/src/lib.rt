//! Tests of the machine's instructions, of objects, of the lock object and of the linker. They stand in a library of
//! their own, so that no part is proved once more for them.
#![tactic(auto)]

#[cfg(test)]
mod instructions_tests;
#[cfg(test)]
mod processor_tests;
