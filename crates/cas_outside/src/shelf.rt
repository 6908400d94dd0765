//! Where texts come from.

ghost use Rattle.std.specs.Prelude.{◌≡◌, ◌≤◌, List, ℕ, Option, length, IfOk};
ghost use Rattle.cas_outside.specs.Shelf.{Texts, Tells, TellsLonger, failed_after};

use std::alloc::Global;

/// Why a shelf gave no text.
#[derive(Clone, Copy, PartialEq, Eq, Debug)]
pub enum ShelfFault {
    /// There is no text of that name, or its reading failed.
    Failed,
    /// The text is longer than the limit.
    TooLong,
    /// There was no memory for the text, or to keep the name of a failed reading.
    Memory,
}

/// Where texts are read from, by their names.
pub trait Shelf {
    /// The texts and their names, if the shelf reports them.
    ghost texts: { Self → Option Texts };

    /// The names whose reading failed, in order. Their number is the shelf's count of faults.
    ghost failed: { Self → List (List ℕ) };

    /// The bytes of the text of a name.
    ///
    /// # Errors
    ///
    /// `Failed` if the name has no text or its reading failed, and then the name is the last
    /// of the failed names. `TooLong` if the text has more than `limit` bytes. `Memory` if it runs
    /// out of memory.
    fn read(&mut self, alloc: Global, name: &str, limit: u64) -> Result<Vec<u8>, ShelfFault>
        ensures same_texts { texts self.new ≡ texts self.old }

        ensures text { IfOk result (λ text. Tells (texts self.old) name.now text.items) }
        ensures within_limit { IfOk result (λ text. length text.items ≤ limit) }
        ensures too_long { result ≡ Err ShelfFault.TooLong →
            TellsLonger (texts self.old) name.now limit }

        // `Failed` appends this name to the failed ones, and no other answer appends any.
        ensures names { failed self.new ≡ failed_after (failed self.old) name.now result };
}
