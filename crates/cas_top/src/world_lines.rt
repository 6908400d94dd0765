//! The lines that `world` prints, and that of modules that are no program.

ghost use Rattle.std.specs.Prelude.{◌≡◌, ◌++◌, ℕ, List, [], Some, IfOk, OnOk, codes, map, length};
ghost use Rattle.std.specs.Fmt.{decimal};
ghost use Rattle.cas_base.specs.Print.{decl_text};
ghost use Rattle.cas_command.specs.Parts.{texts};
ghost use Rattle.cas_top.specs.Printed.{line_of};
ghost use Rattle.cas_top.specs.Worlds.{link_fault_line, link_words, lock_name, module_name, state_line, state_words, thread_line, unknown_name, why_words, world_lines};
ghost use Rattle.cas_turn.specs.declared.answer.ThreadState.TheVariants.{Bad, Waits};
ghost use Rattle.cas_turn.specs.World_of.{IsWorldOf};
ghost use Rattle.cas_typed.specs.Resolved.{TypedModuleTree};
ghost use Rattle.cas_world.specs.Turns.{threads_from};
ghost use Rattle.cas_world.specs.World as definition;

use crate::printed::output_lines;
use cas_base::{Decl, Name, NoMemory, Place, Text, Why};
use cas_settle::{CellRow, LinkFault};
use cas_turn::{ThreadState, World};
use std::alloc::Global;

/// The line of a refusal of a program: `cascc: ` with its code, and what is kept. Running out of memory has none.
pub(crate) fn link_line(alloc: Global, fault: &LinkFault) -> Result<Text, NoMemory>
    ensures { IfOk result (λ line. link_fault_line fault.now ≡ Some line) }
{
    let words = link_words(alloc, fault)?;
    let words = words.as_str();
    let text = format!(in alloc; "cascc: {words}\n")?;
    Ok(Text::of(text))
}

// A refusal of a program in words. Running out of memory has none.
fn link_words(alloc: Global, fault: &LinkFault) -> Result<Text, NoMemory>
    ensures { IfOk result (λ words. link_words fault.now ≡ Some words) }
{
    match fault {
        LinkFault::NotDefined(name) => named(alloc, "L1", name),
        LinkFault::Twice(name) => named(alloc, "L2", name),
        LinkFault::Differ {
            name,
            defined,
            declared,
        } => differ_words(alloc, name, defined, declared),
        LinkFault::Entry { name, found } => entry_words(alloc, name, found),
        LinkFault::Limit { what, counted } => {
            let text = format!(in alloc; "L5 {what} {counted}")?;
            Ok(Text::of(text))
        }
        LinkFault::Memory => Err(NoMemory),
    }
}

// `CODE NAME`.
fn named(alloc: Global, code: &str, name: &Name) -> Result<Text, NoMemory>
    ensures { IfOk result (λ words. words ≡ code.now ++ codes " " ++ name.now) }
{
    let name = name.as_str();
    let text = format!(in alloc; "{code} {name}")?;
    Ok(Text::of(text))
}

// `L3 NAME: DEFINED | DECLARED`.
fn differ_words(
    alloc: Global,
    name: &Name,
    defined: &Decl,
    declared: &Decl,
) -> Result<Text, NoMemory>
    ensures { IfOk result (λ words. words ≡ codes "L3 " ++ name.now ++ codes ": " ++ decl_text defined.now ++
        codes " | " ++ decl_text declared.now) }
{
    let name = name.as_str();
    let text = format!(in alloc; "L3 {name}: {defined} | {declared}")?;
    Ok(Text::of(text))
}

// `L4 NAME: FOUND`.
fn entry_words(alloc: Global, name: &Name, found: &Decl) -> Result<Text, NoMemory>
    ensures { IfOk result (λ words. words ≡ codes "L4 " ++ name.now ++ codes ": " ++ decl_text found.now) }
{
    let name = name.as_str();
    let text = format!(in alloc; "L4 {name}: {found}")?;
    Ok(Text::of(text))
}

// Why a step is Bad, in words.
fn why_words(why: Why) -> &'static str
    ensures { result.now ≡ why_words why }
{
    match why {
        Why::DivZero => "division by zero",
        Why::DivRange => "division out of range",
        Why::Index => "index out of range",
        Why::Null => "null pointer",
        Why::Dead => "dead local",
        Why::Across => "pointers across objects",
    }
}

// What is printed for a name that doesn't exist.
fn unknown_name() -> &'static str
    ensures { result.now ≡ unknown_name }
{
    "?"
}

// The name of the lock with this word.
fn lock_name(cells: &[CellRow], word: u32) -> &str
    ensures { result.now ≡ lock_name cells.now word }
{
    let mut rest = cells;
    'rows: while let Some((row, others)) = rest.split_first() {
        if row.lock && row.first == word {
            return row.name.as_str();
        }
        rest = others;
    }
    unknown_name()
}

// The name of the module with this number.
fn module_name<'a>(names: &[&'a str], module: u32) -> &'a str
    ensures { result.now ≡ module_name (texts names.now) «module» }
{
    match names.get(module as usize) {
        Some(name) => name,
        None => unknown_name(),
    }
}

// `waits L holder H`.
fn wait_words(alloc: Global, cells: &[CellRow], lock: u32, holder: u32) -> Result<Text, NoMemory>
    ensures { IfOk result (λ words. words ≡ state_words [] cells.now (Waits lock holder)) }
{
    let name = lock_name(cells, lock);
    let text = format!(in alloc; "waits {name} holder {holder}")?;
    Ok(Text::of(text))
}

// `bad WHY NAME:LINE:COL`.
fn bad_words(
    alloc: Global,
    names: &[&str],
    why: Why,
    module: u32,
    place: Place,
) -> Result<Text, NoMemory>
    ensures { IfOk result (λ words. words ≡ state_words (texts names.now) [] (Bad why «module» place)) }
{
    let why = why_words(why);
    let name = module_name(names, module);
    let Place { line, col } = place;
    let text = format!(in alloc; "bad {why} {name}:{line}:{col}")?;
    Ok(Text::of(text))
}

// `thread K ` and these words.
fn thread_words(alloc: Global, thread: u32, words: &str) -> Result<Text, NoMemory>
    ensures { IfOk result (λ line. line ≡ line_of (codes "thread " ++ decimal thread ++ codes " " ++ words.now)) }
{
    let text = format!(in alloc; "thread {thread} {words}\n")?;
    Ok(Text::of(text))
}

// The line of a thread that stands so.
fn state_line(
    alloc: Global,
    names: &[&str],
    cells: &[CellRow],
    thread: u32,
    state: ThreadState,
) -> Result<Text, NoMemory>
    ensures { IfOk result (λ line. line ≡ state_line (texts names.now) cells.now thread state) }
{
    match state {
        ThreadState::Running => thread_words(alloc, thread, "running"),
        ThreadState::Ended => thread_words(alloc, thread, "ended"),
        ThreadState::Waits { lock, holder } => {
            let words = wait_words(alloc, cells, lock, holder)?;
            thread_words(alloc, thread, words.as_str())
        }
        ThreadState::Bad { why, module, place } => {
            let words = bad_words(alloc, names, why, module, place)?;
            thread_words(alloc, thread, words.as_str())
        }
    }
}

// A line for each thread, after these lines.
fn put_states(
    alloc: Global,
    names: &[&str],
    world: &World,
    lines: &mut Vec<Text>,
) -> Result<(), NoMemory>
    ensures { OnOk result ((ms : List TypedModuleTree) (entries : List (List ℕ)) (w : definition.World) →
        IsWorldOf world.now ms entries w → lines.new.items ≡ lines.old.items ++ map
        (thread_line (texts names.now) ms w) (threads_from 0 (length w.threads))) }
{
    for thread in 0..world.threads() {
        let cells = world.program().cells();
        let state = world.state(thread);
        lines.push(state_line(alloc, names, cells, thread, state)?)?;
    }
    Ok(())
}

/// The lines of a world: its outputs in order, and then a line for each thread. The modules have these names.
pub(crate) fn world_lines(
    alloc: Global,
    names: &[&str],
    world: &World,
) -> Result<Vec<Text>, NoMemory>
    ensures { IfOk result (λ lines. (ms : List TypedModuleTree) (entries : List (List ℕ)) (w : definition.World) →
        IsWorldOf world.now ms entries w → lines.items ≡ world_lines (texts names.now) ms w) }
{
    let mut lines = output_lines(alloc, world.out())?;
    put_states(alloc, names, world, &mut lines)?;
    Ok(lines)
}
