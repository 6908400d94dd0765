//! Refusals: why a command ends without all of its text being put, and what is said of it.

ghost use Rattle.std.specs.Prelude.{◌≡◌, ◌++◌, IfOk, codes, string_bytes};
ghost use Rattle.cas_top.specs.Answer.{IsTried};
ghost use Rattle.cas_top.specs.Printed.{line_of};
ghost use Rattle.cas_top.specs.View.{module_line, status_number, IsSaid, IsTold};

use crate::printed::module_line;
use cas_base::{Name, NoMemory, Place, Text};
use cas_outside::{Sink, SinkFault};
use cas_own::OwnCode;
use cas_read::ReadCode;
use cas_typed::{TypeCode, TypeCount};
use std::alloc::{AllocFailed, Global};

/// The cause of a refusal's status.
#[derive(Clone, Copy)]
enum Status {
    /// A module is refused.
    Faulty,
    /// The words give no command.
    Usage,
    /// A reading failed.
    Unread,
    /// A put failed.
    Unwritten,
    /// The modules and threads are no program.
    Unlinked,
    /// Out of memory.
    Memory,
    /// A text is too long.
    TooLong,
}

impl Status {
    /// The number that the program ends with.
    fn number(self) -> u8
        ensures { result ≡ status_number self }
    {
        match self {
            Status::Faulty => 1,
            Status::Usage => 2,
            Status::Unread => 3,
            Status::Unwritten => 4,
            Status::Unlinked => 5,
            Status::Memory => 9,
            Status::TooLong => 12,
        }
    }
}

/// Why a module is refused.
#[derive(Drop)]
pub(crate) enum ModuleFault {
    /// The text has this fault first, at this place.
    Misread(ReadCode, Place),
    /// This fault of typing is the first, at this place, with the name that is kept.
    Untyped(TypeCode, Place, Option<Name>),
    /// The first fault of typing is that a count passes its limit, at this place.
    Excessive(Place, TypeCount, u64),
    /// This fault of ownership is the first, at this place, with the lock that is kept.
    Unowned(OwnCode, Place, Name),
    /// The module isn't of the first form, or its function isn't the thread's.
    Formless,
}

/// Why a command ends without all of its text being put.
#[derive(Drop)]
pub(crate) enum Refusal<'a> {
    /// The words give no command.
    Usage,
    /// The reading of this name failed.
    Unread(&'a str),
    /// The text of this name is longer than its limit.
    TooLong(&'a str),
    /// The module of this name is refused.
    Faulty(&'a str, ModuleFault),
    /// The modules and threads are no program: this is the line that says so.
    Unlinked(Text),
    /// A put on `out` failed.
    Unwritten,
    /// Out of memory.
    Memory,
}

impl<'a> From<NoMemory> for Refusal<'a> {
    ghost use Rattle.std.specs.Prelude.{◌≡◌};
    ghost use Rattle.cas_top.specs.declared.refusal.Refusal.TheVariants.{Memory};

    ghost from_gives = { λ _ refusal. refusal ≡ Memory };

    fn from(_error: NoMemory) -> Self {
        Refusal::Memory
    }
}

impl<'a, T: Drop> From<AllocFailed<T>> for Refusal<'a> {
    ghost use Rattle.std.specs.Prelude.{◌≡◌};
    ghost use Rattle.cas_top.specs.declared.refusal.Refusal.TheVariants.{Memory};

    ghost from_gives = { λ _ refusal. refusal ≡ Memory };

    fn from(_error: AllocFailed<T>) -> Self {
        Refusal::Memory
    }
}

/// Says on `err` why a command was refused, in one line that is tried once. Answers the status.
pub(crate) fn refuse<E: Sink>(alloc: Global, err: &mut E, refusal: Refusal) -> u8
    ensures { IsSaid refusal.entry (E.faults err.old) (E.faults err.new) (E.taken err.old) (E.taken err.new) result }
{
    match refusal {
        Refusal::Usage => say(err, b"cascc: usage\n", Status::Usage),
        Refusal::Unread(name) => say_name(alloc, err, "cascc: cannot read ", name, Status::Unread),
        Refusal::TooLong(name) => say_name(alloc, err, "cascc: too long ", name, Status::TooLong),
        Refusal::Faulty(name, fault) => say_fault(alloc, err, name, fault),
        Refusal::Unlinked(line) => say(err, line.as_str().as_bytes(), Status::Unlinked),
        Refusal::Unwritten => try_line(err, b"cascc: cannot write\n", Status::Unwritten),
        Refusal::Memory => say_memory(err),
    }
}

// Puts the line of a refusal with this status.
fn say<E: Sink>(err: &mut E, line: &[u8], status: Status) -> u8
    ensures { IsTold (status_number status) line.now (E.faults err.old) (E.faults err.new) (E.taken err.old)
        (E.taken err.new) result }
{
    match err.put(line) {
        Ok(()) => status.number(),
        Err(SinkFault::Failed) => Status::Unwritten.number(),
        Err(SinkFault::Memory) => say_memory(err),
    }
}

// Puts the line of a refusal with this status, with a name after these words.
fn say_name<E: Sink>(alloc: Global, err: &mut E, words: &str, name: &str, status: Status) -> u8
    ensures { IsTold (status_number status) (line_of (words.now ++ name.now)) (E.faults err.old) (E.faults err.new)
        (E.taken err.old) (E.taken err.new) result }
{
    match line(alloc, words, name) {
        Ok(line) => say(err, line.as_bytes(), status),
        Err(NoMemory) => say_memory(err),
    }
}

// Puts the line of a module's fault.
fn say_fault<E: Sink>(alloc: Global, err: &mut E, name: &str, fault: ModuleFault) -> u8
    ensures { IsTold 1 (module_line name.now fault) (E.faults err.old) (E.faults err.new) (E.taken err.old)
        (E.taken err.new) result }
{
    match module_line(alloc, name, fault) {
        Ok(line) => say(err, line.as_str().as_bytes(), Status::Faulty),
        Err(NoMemory) => say_memory(err),
    }
}

// Puts the line for running out of memory, whatever becomes of it.
fn say_memory<E: Sink>(err: &mut E) -> u8
    ensures status { result ≡ 9 }
    ensures tried { IsTried (line_of (codes "cascc: memory")) (E.faults err.old) (E.faults err.new) (E.taken err.old)
        (E.taken err.new) }
{
    try_line(err, b"cascc: memory\n", Status::Memory)
}

// Puts a line, whatever becomes of it.
fn try_line<E: Sink>(err: &mut E, line: &[u8], status: Status) -> u8
    ensures status { result ≡ status_number status }
    ensures tried { IsTried line.now (E.faults err.old) (E.faults err.new) (E.taken err.old) (E.taken err.new) }
{
    match err.put(line) {
        Ok(()) => status.number(),
        Err(SinkFault::Failed) => status.number(),
        Err(SinkFault::Memory) => status.number(),
    }
}

// A line of words with a name behind them.
fn line(alloc: Global, words: &str, name: &str) -> Result<String, NoMemory>
    ensures { IfOk result (λ l. string_bytes l ≡ line_of (words.now ++ name.now)) }
{
    let line = format!(in alloc; "{words}{name}\n")?;
    Ok(line)
}
