//! What a worker passes before each instruction.

/// A place that workers pass, one call before each instruction and one at their end.
///
/// It says nothing to contracts. A gate of a test can count the calls, or hold a worker up.
pub trait Gate: Sync {
    /// The worker of a thread passes, having executed this many instructions.
    fn pass(&self, thread: u32, executed: u64);
}

/// The gate that does nothing.
#[derive(Clone, Copy, Debug)]
pub struct OpenGate;

impl Gate for OpenGate {
    fn pass(&self, _thread: u32, _executed: u64) {}
}
