//! The locals of one activation, whose cells are in one row.

ghost use Rattle.std.specs.Prelude.{length};
ghost use Rattle.cas_memory.specs.Spans.{AreSpans, are_spans_prop};

use crate::value::Value;

/// The position of a local's cells among those of its activation.
#[derive(Clone, Copy, Debug, PartialEq, Eq)]
pub struct Span {
    /// How many cells the locals before it have.
    pub first: usize,
    /// How many it has.
    pub length: u32,
}

/// The locals of an activation.
#[derive(Debug, Drop)]
pub struct Block {
    /// The serial number of the activation.
    pub serial: u64,
    /// The position of each local's cells.
    pub spans: Vec<Span>,
    /// The cells of all locals.
    pub cells: Vec<Value>,
    ghost whole: { AreSpans 0 (length cells.items) spans.items } by { are_spans_prop 0
        (length cells.items) spans.items },
}
