//! Laws of what is read of objects: what is printed of their lines is read as those lines, and objects that are read
//! have what their declarations say. It stands on the crates that print and read.
#![tactic(auto)]

pub mod laws;
