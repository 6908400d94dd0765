//! The work of `world`: modules are checked and joined, and threads of their program take turns.

ghost use Rattle.std.specs.Prelude.{◌≡◌, ◌<◌, ◌^◌, ℕ, List, IfErr, IfOk, OnOk, true, length, map};
ghost use Rattle.std.specs.List.{list_all};
ghost use Rattle.cas_base.specs.Name.{is_name};
ghost use Rattle.cas_command.specs.Parts.{item_view, texts};
ghost use Rattle.cas_command.specs.View.{turns_view, world_view};
ghost use Rattle.cas_program.specs.Program.{env_of};
ghost use Rattle.cas_top.specs.View.{AreModules, IsJoined, IsUnlinked, IsWithin, IsWorldShown, names_of, texts_of};
ghost use Rattle.cas_top.specs.Worlds.{turned, turns_of};
ghost use Rattle.cas_turn.specs.Joined.{typed_of};
ghost use Rattle.cas_turn.specs.Schedules.{unrolled};
ghost use Rattle.cas_turn.specs.World_of.{IsWorldOf};
ghost use Rattle.cas_typed.specs.Resolved.{TypedModuleTree};
ghost use Rattle.cas_whole.specs.Program_of.{IsProgramOf};
ghost use Rattle.cas_whole.specs.Whole.{AreTyped};
ghost use Rattle.cas_world.specs.Races.{program_world};
ghost use Rattle.cas_world.specs.Turns.{turns};
ghost use Rattle.cas_world.specs.World as definition;

use crate::modules::checked_module;
use crate::refusal::Refusal;
use crate::source::Source;
use crate::world_lines::{link_line, world_lines};
use cas_base::{Name, NameFault, NoMemory, Text};
use cas_command::{Item, Turns};
use cas_own::Checked;
use cas_settle::LinkFault;
use cas_turn::World;
use cas_whole::Program;
use std::alloc::Global;

// The checked modules that these texts are read as.
fn checked_modules<'a>(alloc: Global, sources: &[Source<'a>]) -> Result<Vec<Checked>, Refusal<'a>>
    ensures modules { AreModules (names_of sources.now) (texts_of sources.now) result }
    ensures counted { IfOk result (λ modules. length modules.items ≡ length sources.now) }
{
    let mut modules = Vec::new(alloc);
    for source in sources {
        modules.push(checked_module(alloc, source.text.as_slice(), source.name)?)?;
    }
    Ok(modules)
}

// A name of a thread's function.
fn entry_name(alloc: Global, text: &str) -> Result<Name, NoMemory>
    requires { is_name text.now ≡ true }
    ensures { IfOk result (λ name. name ≡ text.now) }
{
    match Name::new(alloc, text) {
        Ok(name) => Ok(name),
        Err(NameFault::Memory) => Err(NoMemory),
        Err(NameFault::Shape) => unreachable!(),
    }
}

// The names of the threads' functions.
fn entry_names(alloc: Global, threads: &[&str]) -> Result<Vec<Name>, NoMemory>
    requires { list_all is_name (texts threads.now) ≡ true }
    ensures { IfOk result (λ names. names.items ≡ texts threads.now) }
{
    let mut names = Vec::new(alloc);
    for thread in threads {
        names.push(entry_name(alloc, thread)?)?;
    }
    Ok(names)
}

// Why these modules are no program.
fn unlinked<'a>(alloc: Global, fault: &LinkFault) -> Refusal<'a>
    ensures { IsUnlinked fault.now result }
{
    match link_line(alloc, fault) {
        Ok(line) => Refusal::Unlinked(line),
        Err(NoMemory) => Refusal::Memory,
    }
}

// The program of these modules, whose threads begin at the functions of these names.
fn joined<'a>(
    alloc: Global,
    modules: Vec<Checked>,
    threads: &[&str],
) -> Result<Program, Refusal<'a>>
    requires few_modules { length modules.items < 2 ^ 32 }
    requires few_threads { length threads.now < 2 ^ 32 }
    requires named { list_all is_name (texts threads.now) ≡ true }
    ensures { (ms : List TypedModuleTree) → AreTyped (typed_of modules.items) ms →
        IsJoined ms (texts threads.now) result }
{
    let entries = entry_names(alloc, threads)?;
    match cas_turn::join(alloc, modules, entries.as_slice()) {
        Ok(program) => Ok(program),
        Err(fault) => Err(unlinked(alloc, &fault)),
    }
}

// The items of a schedule, as turns have them.
fn turn_items(alloc: Global, items: &[Item]) -> Result<Vec<cas_turn::Item>, NoMemory>
    ensures { IfOk result (λ made. unrolled made.items ≡ turns_of (map item_view items.now)) }
{
    let mut made = Vec::new(alloc);
    for item in items {
        made.push(cas_turn::Item {
            thread: item.thread,
            count: item.count,
        })?;
    }
    Ok(made)
}

// The turns of a schedule.
fn schedule(alloc: Global, world: &mut World, items: &[Item]) -> Result<(), NoMemory>
    ensures { OnOk result ((ms : List TypedModuleTree) (names : List (List ℕ)) (w : definition.World) →
        IsWorldOf world.old ms names w → IsWorldOf world.new ms names
        (turns (env_of ms) w (turns_of (map item_view items.now)))) }
{
    let items = turn_items(alloc, items)?;
    world.schedule(items.as_slice())
}

// The turns of a command.
fn take_turns(alloc: Global, world: &mut World, turns: &Turns) -> Result<(), NoMemory>
    ensures { OnOk result ((ms : List TypedModuleTree) (names : List (List ℕ)) (w : definition.World) →
        IsWorldOf world.old ms names w → IsWorldOf world.new ms names (turned (env_of ms) (turns_view turns.now) w)) }
{
    match turns {
        Turns::Schedule(items) => schedule(alloc, world, items.as_slice()),
        Turns::Rounds(count) => world.rounds(*count),
    }
}

// The world after the turns of a program, from its first world on.
fn turned(alloc: Global, program: Program, turns: &Turns) -> Result<World, NoMemory>
    ensures { IfOk result (λ world. (ms : List TypedModuleTree) (names : List (List ℕ)) →
        IsProgramOf program ms names → IsWorldOf world ms names
        (turned (env_of ms) (turns_view turns.now) (program_world ms names))) }
{
    let mut world = World::start(alloc, program)?;
    take_turns(alloc, &mut world, turns)?;
    Ok(world)
}

/// The lines of the world after the turns of these modules' program.
pub(crate) fn turned_lines<'a>(
    alloc: Global,
    sources: &[Source<'a>],
    given: &cas_command::World<'a>,
) -> Result<Vec<Text>, Refusal<'a>>
    requires within { IsWithin (world_view given.now) }
    requires counted { length sources.now ≡ length (world_view given.now).names }
    ensures { IsWorldShown (world_view given.now) (names_of sources.now) (texts_of sources.now) result }
{
    let modules = checked_modules(alloc, sources)?;
    let program = joined(alloc, modules, given.threads.as_slice())?;
    let world = turned(alloc, program, &given.turns)?;
    Ok(world_lines(alloc, given.names.as_slice(), &world)?)
}
