//! The machine that takes a module's tokens one after another (`specs/Machine.antt`), and the laws that relate it
//! to the grammar: it takes what the grammar spells (`proofs/Complete*`) and nothing else (`proofs/Sound*`), and
//! stops at the first token after which no module can go on (`proofs/Viable*`, `proofs/Faults`). The reader's
//! functions in `cas_read` follow it. Nobody has to trust the machine. It depends on `cas_base`, `cas_lex` and
//! `cas_syntax`.
#![tactic(auto)]

mod laws;

pub use laws::texts_are_read_once;
