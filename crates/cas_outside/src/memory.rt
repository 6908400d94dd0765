//! Shelves and sinks in memory, which tell what they hold and fail when they are asked to.

ghost use Rattle.std.specs.Prelude.{◌≡◌, ◌≢◌, ◌≤◌, ◌⊎◌, ◌↔◌, [], length, IfOk, OnOk, IsSome};
ghost use Rattle.std.specs.Option.{option_map};
ghost use Rattle.cas_outside.specs.Calls.{FailsNext};
ghost use Rattle.cas_outside.specs.Shelf.{HoldsLonger, IsFailure, text_of, texts_of, names_as_bytes, failed_after, shelf_after};
ghost use Rattle.cas_outside.specs.Sink.{TakesAll, TakesPrefix, CountsFault, sink_after};

use crate::plan::Plan;
use crate::shelf::{Shelf, ShelfFault};
use crate::sink::{Sink, SinkFault};
use std::alloc::Global;
use std::marker::Model;

/// A shelf that holds its texts in memory. The reads with given numbers fail.
///
/// Contracts see it as its texts, those numbers, the count of its reads and the failed names.
#[derive(Drop)]
pub struct MemoryShelf {
    texts: Vec<(String, Vec<u8>)>,
    plan: Plan,
    failed: Vec<String>,
}

impl Model for MemoryShelf {
    ghost use Rattle.cas_outside.specs.Shelf.{ShelfState, texts_of, names_as_bytes};

    ghost Value = { ShelfState };

    ghost view = { λ s. record {
      texts = texts_of s.texts.items;
      failing = s.plan.failing.items;
      calls = s.plan.calls;
      failed = names_as_bytes s.failed.items;
    } };
}

impl MemoryShelf {
    /// A shelf of these names and texts, of which the first text of a name is held.
    ///
    /// The `n`-th read, counted from 1, fails if `n` is in `failing`.
    pub fn new(alloc: Global, texts: Vec<(String, Vec<u8>)>, failing: Vec<u64>) -> Self
        ensures texts { result.texts ≡ texts_of texts.items }
        ensures failing { result.failing ≡ failing.items }
        ensures no_calls { result.calls ≡ 0 }
        ensures no_failed_names { result.failed ≡ [] }
    {
        MemoryShelf {
            texts,
            plan: Plan { failing, calls: 0 },
            failed: Vec::new(alloc),
        }
    }
}

impl Shelf for MemoryShelf {
    ghost use Rattle.std.specs.Prelude.{Some};

    ghost texts = { λ s. Some s.texts };

    ghost failed = { λ s. s.failed };

    fn read(&mut self, alloc: Global, name: &str, limit: u64) -> Result<Vec<u8>, ShelfFault>
        ensures same_texts { self.new.texts ≡ self.old.texts }
        ensures text { IfOk result (λ text. text_of self.old.texts name.now ≡ Some text.items) }
        ensures within_limit { IfOk result (λ text. length text.items ≤ limit) }
        ensures too_long { result ≡ Err ShelfFault.TooLong →
            HoldsLonger self.old.texts name.now limit }
        ensures names { self.new.failed ≡ failed_after self.old.failed name.now result }

        // A read fails by its number or for a missing name, and for nothing else.
        ensures numbered { FailsNext self.old.failing self.old.calls → IsFailure result }
        ensures missing { text_of self.old.texts name.now ≡ None → IsFailure result }
        ensures failed { result ≡ Err ShelfFault.Failed →
            FailsNext self.old.failing self.old.calls ⊎ (text_of self.old.texts name.now ≡ None) }
        ensures held { self.old.failing ≡ [] → IsSome (text_of self.old.texts name.now) →
            result ≢ Err ShelfFault.Failed }

        ensures longer { ¬ FailsNext self.old.failing self.old.calls →
            HoldsLonger self.old.texts name.now limit → result ≡ Err ShelfFault.TooLong }
        ensures after { self.new ≡ shelf_after self.old name.now result }
    {
        if self.plan.fails_next() {
            return Err(note(alloc, &mut self.failed, name));
        }
        match first_text(&self.texts, name) {
            Some(text) => {
                if text.len() as u64 > limit {
                    return Err(ShelfFault::TooLong);
                }
                match text.to_vec(alloc) {
                    Ok(copy) => Ok(copy),
                    Err(_) => Err(ShelfFault::Memory),
                }
            }
            None => Err(note(alloc, &mut self.failed, name)),
        }
    }
}

/// The first text of a name.
fn first_text<'a>(texts: &'a [(String, Vec<u8>)], name: &str) -> Option<&'a [u8]>
    ensures { option_map (λ t. t.now) result ≡ text_of (texts_of texts.entry.now) name.now }
{
    for (held, text) in texts {
        if held.as_str() == name {
            return Some(text.as_slice());
        }
    }
    None
}

/// Keeps the name of a read that failed, if there is memory for it.
fn note(alloc: Global, failed: &mut Vec<String>, name: &str) -> ShelfFault
    ensures names { names_as_bytes failed.new.items
        ≡ failed_after (names_as_bytes failed.old.items) name.now (Err result) }
    ensures failure { IsFailure (Err result) }
{
    match String::from_str(alloc, name) {
        Ok(kept) => match failed.push(kept) {
            Ok(()) => ShelfFault::Failed,
            Err(_) => ShelfFault::Memory,
        },
        Err(_) => ShelfFault::Memory,
    }
}

/// A sink that takes bytes into memory. The puts with given numbers fail, and take nothing.
///
/// Contracts see it as its bytes, those numbers, the count of its puts and the count of faults.
#[derive(Drop)]
pub struct MemorySink {
    bytes: Vec<u8>,
    plan: Plan,
    faults: u64,
}

impl Model for MemorySink {
    ghost use Rattle.std.specs.Prelude.{◌≤◌};
    ghost use Rattle.cas_outside.specs.Sink.{SinkState};

    ghost Value = { SinkState };

    ghost view = { λ s. record {
      bytes = s.bytes.items;
      failing = s.plan.failing.items;
      calls = s.plan.calls;
      faults = s.faults;
    } };

    ghost invariant = { λ s. s.faults ≤ s.plan.calls };
}

impl MemorySink {
    /// A sink with nothing in it. The `n`-th put, counted from 1, fails if `n` is in `failing`.
    pub fn new(alloc: Global, failing: Vec<u64>) -> Self
        ensures empty { result.bytes ≡ [] }
        ensures failing { result.failing ≡ failing.items }
        ensures no_calls { result.calls ≡ 0 }
        ensures no_faults { result.faults ≡ 0 }
    {
        MemorySink {
            bytes: Vec::new(alloc),
            plan: Plan { failing, calls: 0 },
            faults: 0,
        }
    }

    /// The bytes taken so far.
    pub fn bytes(&self) -> &[u8]
        ensures { result.now ≡ self.now.bytes }
    {
        &self.bytes
    }
}

impl Sink for MemorySink {
    ghost use Rattle.std.specs.Prelude.{Some};

    ghost taken = { λ s. Some s.bytes };

    ghost faults = { λ s. s.faults };

    fn put(&mut self, bytes: &[u8]) -> Result<(), SinkFault>
        ensures ok { OnOk result (TakesAll (Some self.old.bytes) bytes.now (Some self.new.bytes)) }
        ensures failed { result ≡ Err SinkFault.Failed →
            TakesPrefix (Some self.old.bytes) bytes.now (Some self.new.bytes) }
        ensures memory { result ≡ Err SinkFault.Memory → self.new.bytes ≡ self.old.bytes }
        ensures counted { CountsFault self.old.faults self.new.faults result }
        ensures never_falls { self.old.faults ≤ self.new.faults }

        // A put fails by its number alone.
        ensures numbered { (result ≡ Err SinkFault.Failed) ↔ FailsNext self.old.failing self.old.calls }
        ensures none_fails { self.old.failing ≡ [] → result ≢ Err SinkFault.Failed }
        ensures after { self.new ≡ sink_after self.old bytes.now result }
    {
        if self.plan.fails_next() {
            self.faults += 1;
            return Err(SinkFault::Failed);
        }
        match self.bytes.extend_from_slice(bytes) {
            Ok(()) => Ok(()),
            Err(_) => Err(SinkFault::Memory),
        }
    }
}
