//! Where texts come from, where bytes go, and what a worker passes.
//!
//! A command reads from a [`Shelf`], puts into a [`Sink`] and lets its workers pass a [`Gate`].
//! Each reports to contracts what it did: a shelf the names whose reading failed, a sink the bytes
//! that it took and the count of its faults. So a command can prove that it answers `cannot read`
//! only if a reading failed.
//!
//! [`MemoryShelf`] and [`MemorySink`] tell their contents too, and fail when they are asked to.
//! [`FileShelf`], [`StdSink`] and [`OpenGate`] are the real ones. No contract can say what a file
//! holds or where a stream ends, so what they read and write is trusted.
#![tactic(auto)]

mod gate;
mod memory;
mod plan;
mod shelf;
mod sink;
mod system;

pub use gate::{Gate, OpenGate};
pub use memory::{MemoryShelf, MemorySink};
pub use shelf::{Shelf, ShelfFault};
pub use sink::{Sink, SinkFault};
pub use system::{FileShelf, StdSink};

#[cfg(test)]
mod tests;
