//! The pieces of a line of an objects text or of a lock text: words of letters, digits and `_`, and each other byte as
//! a mark. A text is what its pieces spell, so that what reads a line and what prints it speak of the same pieces. It
//! stands on
//! `cas_base`.
#![tactic(auto)]

mod cut;
pub mod laws;
mod line;
mod number;
mod piece;
mod which;

pub use cut::cut_line;
pub use line::{first_piece, split};
pub use piece::{Mark, Piece, Word};
