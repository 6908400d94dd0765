//! Cminorgen: from Csharpminor to Cminor. The variables whose address is asked for, and all arrays, are stretches of one
//! block, one word a cell, in order of declaration. Each other variable is a temporary. So
//!
//! ```text
//! variables 1, 3, 1; 2 temporaries:         block of 4 words; 3 temporaries:
//! Store(AddressOf 0, Temp 0)                Set(2, Temp 0)
//! Store(AddressOf 1 + 2, Load(AddressOf 0)) Store(StackAddress 0 + 2, Temp 2)
//! Call(None, f, AddressOf 2)                Call(None, f, StackAddress 3)
//! ```
//!
//! The definitions stand in `specs/`: what is made of each form (`Makes`) and of a unit (`Made`), and where activations
//! of both languages stand for one another (`Match`). It stands on `cas_mid`.
#![tactic(auto)]

pub mod laws;
