//! Options of a run.

/// What a run is given besides its image.
#[derive(Clone, Copy, Debug, PartialEq, Eq)]
pub struct Options {
    /// How many instructions each thread may execute, 0 to 4,000,000,000.
    pub fuel: u64,
    /// How many further instructions of its thread a store waits in the buffer of a timed run, 0 to 1,000,000.
    pub hold: u32,
    /// How many words each thread's stack has, 16 to 1,048,576.
    pub stack: u32,
    /// How many outputs each thread may make, 0 to 1,048,576.
    pub outs: u32,
}
