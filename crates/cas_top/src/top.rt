//! The top call.

ghost use Rattle.std.specs.Prelude.{◌≡◌, ◌<◌, ◌⊎◌, IfOk, IfSome, codes};
ghost use Rattle.std.specs.Option.{option_map};
ghost use Rattle.cas_top.specs.Answer.{IsPrinted, IsRefused, IsMisused, IsUnread, IsTooLong, IsCut, IsPartly, IsTried, IsUntold, GrowsBy, IsPrinting, IsRefusing, IsRefusalStatus, IsStatus};
ghost use Rattle.cas_top.specs.Printed.{line_of};
ghost use Rattle.cas_top.specs.View.{IsGiven};
ghost use Rattle.cas_command.specs.View.{command_view};
ghost use Rattle.cas_command.specs.Words.{command_of};
ghost use Rattle.cas_top.specs.Status.{memory_status, too_long_status, unread_status, unwritten_status, usage_status};

use crate::answer::perform;
use crate::refusal::{Refusal, refuse};
use cas_base::{NoMemory, Text};
use cas_command::{Command, command_of};
use cas_outside::{Gate, Shelf, Sink};
use std::alloc::Global;
use std::thread::Threads;

/// Does the command of these words, the words after the program's name: reads the texts that it names from
/// `shelf`, puts what it prints on `out`, a line a put, and on `err` why it didn't, in one line. Answers the
/// status.
///
/// | Status | Where |
/// |---|---|
/// | 0 | the command's text was put whole |
/// | 1 | a module isn't checked; or `run`'s is, but isn't of the first form or hasn't the thread's function (`R0`) |
/// | 2 | the words give no command |
/// | 3 | a name's text couldn't be read |
/// | 4 | a put failed |
/// | 5 | the modules of `world` are checked, but with its threads they are no program, L1 to L5 |
/// | 9 | running out of memory |
/// | 12 | a text is longer than its limit |
///
/// A module isn't checked if its text has a fault, R1 to R8, or the module one of typing, T1 to T8, or of ownership,
/// O1 to O8. The line names the fault of the first such module, and its place.
///
/// The causes of 0, 1, 2, 5 and 12 exclude each other if the shelf reports its texts (`laws::causes_exclude`), and
/// no other status comes but 3, 4 and 9: so each of these five comes exactly if its cause holds, but for a read or
/// a put that failed and for running out of memory.
pub fn cascc<R: Threads + Sync, S: Shelf, O: Sink, E: Sink, G: Gate>(
    _rt: &R,
    alloc: Global,
    words: &[Text],
    shelf: &mut S,
    out: &mut O,
    err: &mut E,
    _gate: &G,
) -> u8
    // The text that `out` took: of `check`, a line for each module; of `run`, that of an ended run of the machine on
    // the code that is generated for the module, and of an interleaving of its program, which is race-free, in which
    // the thread has ended; of `world`, that of the world that the turns come to, of a program that is race-free.
    ensures printed { IsPrinting result →
        IsPrinted (S.texts shelf.old) (command_of words.now) result (O.taken out.old) (O.taken out.new) }

    // A refusal by a module's text or the program, by the words, by a read that failed, and by a text's length.
    // `err` took the line that says so.
    ensures refused { IsRefusing result →
        IsRefused (S.texts shelf.old) (command_of words.now) result (E.taken err.old) (E.taken err.new) }
    ensures misused { result ≡ usage_status →
        IsMisused (command_of words.now) (E.taken err.old) (E.taken err.new) }
    ensures unread { result ≡ unread_status →
        IsUnread (S.texts shelf.old) (command_of words.now) (S.failed shelf.old) (S.failed shelf.new)
        (E.taken err.old) (E.taken err.new) }
    ensures too_long { result ≡ too_long_status →
        IsTooLong (S.texts shelf.old) (command_of words.now) (E.taken err.old) (E.taken err.new) }

    // A put failed: always where one of `out` did, and else only if that of a refusal's line did.
    ensures out_failed { O.faults out.old < O.faults out.new →
        (result ≡ unwritten_status)
        × IsPartly (S.texts shelf.old) (command_of words.now) (O.taken out.old) (O.taken out.new)
        × IsTried (line_of (codes "cascc: cannot write")) (E.faults err.old) (E.faults err.new) (E.taken err.old)
        (E.taken err.new) }
    ensures unwritten { result ≡ unwritten_status →
        (O.faults out.old < O.faults out.new)
        ⊎ ((O.taken out.new ≡ O.taken out.old) × (O.faults out.new ≡ O.faults out.old)
        × IsUntold (S.texts shelf.old) (command_of words.now) (S.failed shelf.old) (S.failed shelf.new)
        (E.faults err.old) (E.faults err.new) (E.taken err.old) (E.taken err.new)) }

    // Out of memory.
    ensures out_of_memory { result ≡ memory_status →
        IsTried (line_of (codes "cascc: memory")) (E.faults err.old) (E.faults err.new) (E.taken err.old)
        (E.taken err.new) }

    // What `out` has after a put that failed or after running out of memory, and what stays as it was.
    ensures cut { (result ≡ unwritten_status) ⊎ (result ≡ memory_status) →
        IsCut (S.texts shelf.old) (command_of words.now) (O.taken out.old) (O.taken out.new) }
    ensures kept { IsRefusalStatus result → O.taken out.new ≡ O.taken out.old }
    ensures silent { IsPrinting result → E.taken err.new ≡ E.taken err.old }
    ensures out_faults { (result ≡ unwritten_status → ⊥) → O.faults out.new ≡ O.faults out.old }
    ensures err_faults { IsPrinting result ⊎ IsRefusalStatus result → E.faults err.new ≡ E.faults err.old }
    ensures unread_puts_nothing { (S.failed shelf.new ≡ S.failed shelf.old)
        ⊎ ((O.taken out.new ≡ O.taken out.old) × (O.faults out.new ≡ O.faults out.old)) }
    ensures failed_names { GrowsBy (S.texts shelf.old) (command_of words.now) (S.failed shelf.old)
        (S.failed shelf.new) result }
    ensures same_texts { S.texts shelf.new ≡ S.texts shelf.old }

    ensures known { IsStatus result }
{
    match given_command(alloc, words) {
        Ok(Some(command)) => match perform(alloc, command, shelf, out) {
            Ok(()) => 0,
            Err(refusal) => refuse(alloc, err, refusal),
        },
        Ok(None) => refuse(alloc, err, Refusal::Usage),
        Err(NoMemory) => refuse(alloc, err, Refusal::Memory),
    }
}

// The command of these words, where they are one's.
fn given_command(alloc: Global, words: &[Text]) -> Result<Option<Command<'_>>, NoMemory>
    ensures given { IfOk result (λ command. option_map command_view command ≡ command_of words.entry.now) }
    ensures within { IfOk result (λ command. IfSome command (λ c. IsGiven (command_view c))) }
{
    command_of(alloc, words)
}
