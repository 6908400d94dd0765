//! The shelf of files and the sink of a stream, the trusted edge.
//!
//! Contracts know what these count, and not what a file holds or where a stream ends. Both loop
//! over read and write themselves, and take the room to count a fault before they start, so that
//! a fault that happened is always counted.

ghost use Rattle.std.specs.Prelude.{◌≡◌, ◌≢◌, ◌<◌, ◌≤◌, ◌+◌, ◌∷◌, ◌++◌, [], length, vec_len, vec_capacity, string_bytes, IfOk, OnOk};
ghost use Rattle.std.specs.Io.KnownBytes.{Appends, Keeps};
ghost use Rattle.cas_outside.specs.Shelf.{names_as_bytes};
ghost use Rattle.cas_outside.specs.Sink.{CountsFault};
ghost use Rattle.cas_outside.specs.Streams.{GivesAll, GivesMore, TakesAtMost, AppendsPrefix, shelf_fault_of};

use crate::shelf::{Shelf, ShelfFault};
use crate::sink::{Sink, SinkFault};
use std::alloc::Global;
use std::fs;
use std::io::{ErrorKind, Read, Write};
use std::marker::Model;
use std::rt::Files;

/// The files of the system, by their paths. Contracts see it as the names whose reading failed.
#[derive(Drop)]
pub struct FileShelf<'a, R: Files> {
    rt: &'a R,
    failed: Vec<String>,
}

impl<'a, R: Files> Model for FileShelf<'a, R> {
    ghost use Rattle.std.specs.Prelude.{List, ℕ};
    ghost use Rattle.cas_outside.specs.Shelf.{names_as_bytes};

    ghost Value = { List (List ℕ) };

    ghost view = { λ s. names_as_bytes s.failed.items };
}

impl<'a, R: Files> FileShelf<'a, R> {
    /// The files that `rt` reaches. No reading has failed yet.
    pub fn new(rt: &'a R, alloc: Global) -> Self
        ensures { result ≡ [] }
    {
        FileShelf {
            rt,
            failed: Vec::new(alloc),
        }
    }
}

impl<'a, R: Files> Shelf for FileShelf<'a, R> {
    ghost use Rattle.std.specs.Prelude.{None};

    ghost texts = { λ _. None };

    ghost failed = { λ s. s };

    /// Reads the file of that path to its end. A read that was interrupted is tried again. After
    /// `u64::MAX` tries the reading has failed.
    fn read(&mut self, alloc: Global, name: &str, limit: u64) -> Result<Vec<u8>, ShelfFault> {
        let Ok(kept) = String::from_str(alloc, name) else {
            return Err(ShelfFault::Memory);
        };
        if self.failed.reserve(1).is_err() {
            return Err(ShelfFault::Memory);
        }
        let answer = match fs::open(self.rt, name) {
            Ok(mut file) => read_all(alloc, &mut file, limit),
            Err(error) => Err(shelf_fault(error.kind())),
        };
        if let Err(ShelfFault::Failed) = answer {
            keep(&mut self.failed, kept);
        }
        answer
    }
}

/// Why a shelf gives no text after an error of this kind.
fn shelf_fault(kind: ErrorKind) -> ShelfFault
    ensures { result ≡ shelf_fault_of kind }
{
    match kind {
        ErrorKind::OutOfMemory => ShelfFault::Memory,
        _ => ShelfFault::Failed,
    }
}

/// All the bytes that a reader has left, or that they are more than `limit`. No more are read
/// than show this.
fn read_all<F: Read>(alloc: Global, file: &mut F, limit: u64) -> Result<Vec<u8>, ShelfFault>
    ensures whole { IfOk result (λ text. GivesAll (F.remaining file.old) text.items) }
    ensures within_limit { IfOk result (λ text. length text.items ≤ limit) }
    ensures too_long { result ≡ Err ShelfFault.TooLong → GivesMore (F.remaining file.old) limit }
    ensures no_further { TakesAtMost (F.remaining file.old) (F.remaining file.new) (limit + 1) }
{
    let mut text = Vec::new(alloc);
    let mut buffer = [0u8; 4096];
    for _ in 0..u64::MAX {
        let room = (limit - text.len() as u64).min(4095) as usize + 1;
        match file.read(&mut buffer[..room]) {
            Ok(0) => return Ok(text),
            Ok(count) => {
                if text.len() as u64 + count as u64 > limit {
                    return Err(ShelfFault::TooLong);
                }
                if text.extend_from_slice(&buffer[..count]).is_err() {
                    return Err(ShelfFault::Memory);
                }
            }
            Err(error) => match error.kind() {
                ErrorKind::Interrupted => {}
                kind => return Err(shelf_fault(kind)),
            },
        }
    }
    Err(ShelfFault::Failed)
}

/// Keeps the name of a failed reading, in the room that was taken for it.
fn keep(failed: &mut Vec<String>, name: String)
    requires { vec_len failed.old < vec_capacity failed.old }
    ensures { names_as_bytes failed.new.items ≡ names_as_bytes failed.old.items ++ string_bytes name ∷ [] }
{
    match failed.push(name) {
        Ok(()) => {}
        Err(_) => unreachable!(),
    }
}

/// A stream of the system, which is flushed after each put.
///
/// Contracts see it as the bytes that its writer holds, if those are known, and the count of
/// faults. As a [`Sink`] it does not report what it took.
#[derive(Drop)]
pub struct StdSink<W: Write + Drop> {
    writer: W,
    // One entry for each failed put: a list never stops growing, as a count kept in a number would
    // at its type's end.
    faults: Vec<()>,
}

impl<W: Write + Drop> Model for StdSink<W> {
    ghost use Rattle.std.specs.Prelude.{vec_len};
    ghost use Rattle.cas_outside.specs.Streams.{StreamState};

    ghost Value = { StreamState };

    ghost view = { λ s. record { written = W.contents s.writer; faults = vec_len s.faults } };
}

impl<W: Write + Drop> StdSink<W> {
    /// The stream that `writer` writes to. No put has failed yet.
    pub fn new(alloc: Global, writer: W) -> Self
        ensures no_faults { result.faults ≡ 0 }
        ensures written { result.written ≡ W.contents writer }
    {
        StdSink {
            writer,
            faults: Vec::new(alloc),
        }
    }
}

impl<W: Write + Drop> Sink for StdSink<W> {
    ghost use Rattle.std.specs.Prelude.{None};

    ghost taken = { λ _. None };

    ghost faults = { λ s. s.faults };

    /// Writes the bytes and flushes. A write or flush that was interrupted is tried again, and
    /// after `u64::MAX` tries it has failed. A failed flush is a failed put.
    fn put(&mut self, bytes: &[u8]) -> Result<(), SinkFault>
        ensures counted { CountsFault self.old.faults self.new.faults result }
        ensures never_falls { self.old.faults ≤ self.new.faults }

        // A failed put is one more.
        ensures one_more { result ≡ Err SinkFault.Failed → self.new.faults ≡ self.old.faults + 1 }

        // What the writer holds, if it is known.
        ensures whole { OnOk result (Appends self.old.written self.new.written bytes.now) }
        ensures part { result ≡ Err SinkFault.Failed →
            AppendsPrefix self.old.written self.new.written bytes.now }
        ensures none { result ≡ Err SinkFault.Memory → Keeps self.old.written self.new.written }
    {
        if self.faults.reserve(1).is_err() {
            return Err(SinkFault::Memory);
        }
        let answer = hand_on(&mut self.writer, bytes);
        if let Err(SinkFault::Failed) = answer {
            count(&mut self.faults);
        }
        answer
    }
}

/// Writes all the bytes and flushes.
fn hand_on<W: Write>(writer: &mut W, bytes: &[u8]) -> Result<(), SinkFault>
    ensures whole { OnOk result (Appends (W.contents writer.old) (W.contents writer.new) bytes.now) }
    ensures part { result ≡ Err SinkFault.Failed →
        AppendsPrefix (W.contents writer.old) (W.contents writer.new) bytes.now }
    ensures none { result ≡ Err SinkFault.Memory →
        Keeps (W.contents writer.old) (W.contents writer.new) }
{
    write_all(writer, bytes)?;
    flush(writer)
}

/// Writes all the bytes. It answers that it runs out of memory only if nothing was written.
fn write_all<W: Write>(writer: &mut W, bytes: &[u8]) -> Result<(), SinkFault>
    ensures whole { OnOk result (Appends (W.contents writer.old) (W.contents writer.new) bytes.now) }
    ensures part { result ≡ Err SinkFault.Failed →
        AppendsPrefix (W.contents writer.old) (W.contents writer.new) bytes.now }
    ensures none { result ≡ Err SinkFault.Memory →
        Keeps (W.contents writer.old) (W.contents writer.new) }
{
    let mut rest = bytes;
    for _ in 0..u64::MAX {
        if rest.is_empty() {
            return Ok(());
        }
        match writer.write(rest) {
            Ok(0) => return Err(SinkFault::Failed),
            Ok(count) => rest = &rest[count..],
            Err(error) => match error.kind() {
                ErrorKind::Interrupted => {}
                ErrorKind::OutOfMemory if rest.len() == bytes.len() => {
                    return Err(SinkFault::Memory);
                }
                _ => return Err(SinkFault::Failed),
            },
        }
    }
    Err(SinkFault::Failed)
}

/// Hands on what the writer holds back.
fn flush<W: Write>(writer: &mut W) -> Result<(), SinkFault>
    ensures same { Keeps (W.contents writer.old) (W.contents writer.new) }
    ensures never_memory { result ≢ Err SinkFault.Memory }
{
    for _ in 0..u64::MAX {
        match writer.flush() {
            Ok(()) => return Ok(()),
            Err(error) => {
                if error.kind() != ErrorKind::Interrupted {
                    return Err(SinkFault::Failed);
                }
            }
        }
    }
    Err(SinkFault::Failed)
}

/// Counts a fault, in the room that was taken for it.
fn count(faults: &mut Vec<()>)
    requires { vec_len faults.old < vec_capacity faults.old }
    ensures { vec_len faults.new ≡ vec_len faults.old + 1 }
{
    match faults.push(()) {
        Ok(()) => {}
        Err(_) => unreachable!(),
    }
}

#[cfg(test)]
mod tests;
