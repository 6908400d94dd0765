//! Stores that aren't in memory yet.

ghost use Rattle.std.specs.Prelude.{◌≡◌};
ghost use Rattle.cas_tso.specs.State.{newest};

use circular_buffer::HeapCircularBuffer;
use std::alloc::Global;

/// A store to a shared word that is in its thread's buffer.
#[derive(Clone, Copy, Debug, PartialEq, Eq)]
pub struct Pending {
    /// The number of the word.
    pub at: u32,
    /// What is stored.
    pub value: u32,
    /// How many instructions its thread had executed as it entered, the one that stored included.
    pub entered: u64,
}

/// The value of the newest store of a buffer to a word. The oldest store stands first.
pub(crate) fn newest(buffer: &HeapCircularBuffer<Pending, Global>, at: u32) -> Option<u32>
    ensures { result ≡ newest buffer.now.items at }
{
    let mut found = None;
    for index in 0..buffer.len() {
        if let Some(store) = buffer.get(index) {
            if store.at == at {
                found = Some(store.value);
            }
        }
    }
    found
}
