//! Laws of spelling: what is read of an objects text is printed as that text, so that no second text is read as the
//! same. With the laws of `cas_object_laws` the grammar is a relation both ways.
#![tactic(auto)]

pub mod laws;
