//! Where bytes go.

ghost use Rattle.std.specs.Prelude.{◌≡◌, ◌≤◌, List, ℕ, Option, OnOk};
ghost use Rattle.cas_outside.specs.Sink.{TakesAll, TakesPrefix, CountsFault};

/// Why a sink did not take all bytes.
#[derive(Clone, Copy, PartialEq, Eq, Debug)]
pub enum SinkFault {
    /// The writing failed.
    Failed,
    /// There was no memory for the bytes, or to count a fault.
    Memory,
}

/// Where bytes are put.
pub trait Sink {
    /// The bytes taken so far, if the sink reports them.
    ghost taken: { Self → Option (List ℕ) };

    /// How many puts failed.
    ghost faults: { Self → ℕ };

    /// Puts the bytes after those taken so far.
    ///
    /// # Errors
    ///
    /// `Failed` if the writing failed: the sink took some first part of the bytes, and counts
    /// one fault or more. `Memory` if it runs out of memory, which leaves the sink as it was.
    fn put(&mut self, bytes: &[u8]) -> Result<(), SinkFault>
        ensures ok { OnOk result (TakesAll (taken self.old) bytes.now (taken self.new)) }
        ensures failed { result ≡ Err SinkFault.Failed →
            TakesPrefix (taken self.old) bytes.now (taken self.new) }
        ensures memory { result ≡ Err SinkFault.Memory → taken self.new ≡ taken self.old }

        // The count rises if the answer is `Failed`, and stays otherwise.
        ensures counted { CountsFault (faults self.old) (faults self.new) result }
        ensures never_falls { faults self.old ≤ faults self.new };
}
