//! The work of a command: its texts are read, its modules checked, and its lines put.

ghost use Rattle.std.specs.Prelude.{◌≡◌, ◌≤◌, Some, length};
ghost use Rattle.std.specs.List.{concat};
ghost use Rattle.cas_command.specs.Parts.{texts};
ghost use Rattle.cas_command.specs.View.{command_view, run_view, world_view};
ghost use Rattle.cas_command.specs.Words.{check, run, world, source_limit};
ghost use Rattle.cas_top.specs.View.{IsEnd, IsGiven, IsWithin, Counts, IsPutLines, IsShown};

use crate::checking::checked_lines;
use crate::modules::checked_module;
use crate::outcome::lines_of;
use crate::reading::{fetch, fetch_all};
use crate::refusal::{ModuleFault, Refusal};
use crate::worlds::turned_lines;
use cas_base::Text;
use cas_command::{Command, Run, World, source_text};
use cas_outside::{Shelf, Sink, SinkFault};
use std::alloc::Global;

/// Does the work of a command.
pub(crate) fn perform<'a, S: Shelf, O: Sink>(
    alloc: Global,
    command: Command<'a>,
    shelf: &mut S,
    out: &mut O,
) -> Result<(), Refusal<'a>>
    requires { IsGiven (command_view command) }
    ensures end { IsEnd (S.texts shelf.old) (command_view command.entry) (S.failed shelf.old) (S.failed shelf.new)
        (O.taken out.old) (O.taken out.new) result }
    ensures counted { Counts (O.faults out.old) (O.faults out.new) result }
    ensures same_texts { S.texts shelf.new ≡ S.texts shelf.old }
{
    match command {
        Command::Run(given) => perform_run(alloc, given, shelf, out),
        Command::Check(names) => perform_check(alloc, &names, shelf, out),
        Command::World(given) => perform_world(alloc, given, shelf, out),
    }
}

// Reads the modules, checks them, and puts a line for each.
fn perform_check<'a, S: Shelf, O: Sink>(
    alloc: Global,
    names: &[&'a str],
    shelf: &mut S,
    out: &mut O,
) -> Result<(), Refusal<'a>>
    ensures end { IsEnd (S.texts shelf.old) (check (texts names.now)) (S.failed shelf.old) (S.failed shelf.new)
        (O.taken out.old) (O.taken out.new) result }
    ensures counted { Counts (O.faults out.old) (O.faults out.new) result }
    ensures same_texts { S.texts shelf.new ≡ S.texts shelf.old }
{
    let sources = fetch_all(alloc, shelf, names)?;
    let lines = checked_lines(alloc, sources.as_slice())?;
    put_lines(out, lines.as_slice())
}

// Reads the modules, lets threads of their program take turns, and puts the lines of the world after them.
fn perform_world<'a, S: Shelf, O: Sink>(
    alloc: Global,
    given: World<'a>,
    shelf: &mut S,
    out: &mut O,
) -> Result<(), Refusal<'a>>
    requires { IsWithin (world_view given) }
    ensures end { IsEnd (S.texts shelf.old) (world (world_view given.entry)) (S.failed shelf.old) (S.failed shelf.new)
        (O.taken out.old) (O.taken out.new) result }
    ensures counted { Counts (O.faults out.old) (O.faults out.new) result }
    ensures same_texts { S.texts shelf.new ≡ S.texts shelf.old }
{
    let sources = fetch_all(alloc, shelf, &given.names)?;
    let lines = turned_lines(alloc, sources.as_slice(), &given)?;
    put_lines(out, lines.as_slice())
}

// Reads the module and the lock, and puts what a run of the module prints. The lock isn't looked at, since the
// first form takes none.
fn perform_run<'a, S: Shelf, O: Sink>(
    alloc: Global,
    given: Run<'a>,
    shelf: &mut S,
    out: &mut O,
) -> Result<(), Refusal<'a>>
    ensures end { IsEnd (S.texts shelf.old) (run (run_view given.entry)) (S.failed shelf.old) (S.failed shelf.new)
        (O.taken out.old) (O.taken out.new) result }
    ensures counted { Counts (O.faults out.old) (O.faults out.new) result }
    ensures same_texts { S.texts shelf.new ≡ S.texts shelf.old }
{
    let source = fetch(alloc, shelf, source_text(given.source))?;
    let _lock = fetch(alloc, shelf, source_text(given.lock))?;
    let lines = lines_of_text(alloc, source.as_slice(), given)?;
    put_lines(out, lines.as_slice())
}

// The lines that a module text prints on one thread.
#[tactic(auto, using(crate::proofs::One_by_one::refused_run, crate::proofs::One_by_one::shown_run))]
fn lines_of_text<'a>(alloc: Global, text: &[u8], given: Run<'a>) -> Result<Vec<Text>, Refusal<'a>>
    requires { length text.now ≤ source_limit }
    ensures shown { IsShown (run_view given.entry) text.now result }
{
    let checked = checked_module(alloc, text, given.source)?;
    match lines_of(alloc, checked.typed(), given.thread)? {
        Some(lines) => Ok(lines),
        None => Err(Refusal::Faulty(given.source, ModuleFault::Formless)),
    }
}

// Puts the lines, each by itself.
fn put_lines<'a, O: Sink>(out: &mut O, lines: &[Text]) -> Result<(), Refusal<'a>>
    ensures put { IsPutLines (O.taken out.old) (concat lines.now) (O.taken out.new) result }
    ensures counted { Counts (O.faults out.old) (O.faults out.new) result }
{
    let mut rest = lines;
    while let Some((line, after)) = rest.split_first() {
        match out.put(line.as_str().as_bytes()) {
            Ok(()) => rest = after,
            Err(SinkFault::Failed) => return Err(Refusal::Unwritten),
            Err(SinkFault::Memory) => return Err(Refusal::Memory),
        }
    }
    Ok(())
}
