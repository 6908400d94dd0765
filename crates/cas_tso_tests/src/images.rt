//! Images of objects texts, and what is printed of their runs.

ghost use Rattle.std.specs.Prelude.{◌*◌, ◌<◌, ◌≤◌, ◌^◌, All, IfOk, length};
ghost use Rattle.std.specs.Bool.{MatchBool};
ghost use Rattle.cas_base.specs.Decl.{functions_of};
ghost use Rattle.cas_link.specs.Parts.{decls_in, units_of};
ghost use Rattle.cas_object_text.specs.Values.{AreWhole};

use cas_asm::Image;
use cas_base::Name;
use cas_exec::{Item, executed, simulated};
use cas_link::{link, link_map};
use cas_lock::LockObject;
use cas_object::read_objects;
use cas_object_laws::laws::{objects_are_few, objects_are_whole};
use cas_object_text::Object;
use cas_tso::{Choice, Options, print_report};
use std::alloc::{AllocError, Global};
use std::test::Fail;

// The most bytes of an objects text, threads, and outputs of all threads.
const TEXT_LIMIT: usize = 16_777_216;

const THREAD_LIMIT: usize = 64;

const OUTS_LIMIT: u64 = 16_777_216;

/// What a run is given. Each stack has 16 words.
#[derive(Clone, Copy)]
pub(crate) struct Limits {
    pub(crate) fuel: u16,
    pub(crate) hold: u32,
    pub(crate) outs: u32,
}

/// The hold of the commands, and ample fuel and room for output.
pub(crate) const AMPLE: Limits = Limits {
    fuel: 60_000,
    hold: 8,
    outs: 100,
};

/// A thread is to execute so many instructions.
pub(crate) fn run(thread: u32, count: u32) -> Item {
    Item {
        choice: Choice::Run(thread),
        count,
    }
}

/// So many stores of a thread are to be drained.
pub(crate) fn drain(thread: u32, count: u32) -> Item {
    Item {
        choice: Choice::Drain(thread),
        count,
    }
}

/// The options of these limits.
pub(crate) fn options_of(limits: Limits) -> Options
    ensures fuel { result.fuel ≤ 65535 }
    ensures least { 16 ≤ result.stack }
    ensures most { result.stack ≤ 1048576 }
{
    Options {
        fuel: u64::from(limits.fuel),
        hold: limits.hold,
        stack: 16,
        outs: limits.outs,
    }
}

/// Whether a machine has room for all outputs that its threads may make.
pub(crate) fn has_room(image: &Image, options: &Options) -> bool
    ensures { MatchBool result (options.now.outs * length image.now.entries ≤ 16777216) (Unit {0}) }
{
    let threads = image.entries.as_slice().len() as u64;
    u64::from(options.outs).saturating_mul(threads) <= OUTS_LIMIT
}

// Puts lines that stand with `; ` between.
fn put_lines(text: &mut String, lines: &str) -> Result<(), AllocError> {
    for line in lines.split("; ") {
        text.push_str(line)?;
        text.push_str("\n")?;
    }
    Ok(())
}

/// The text of an object with a lock, with words that these lines declare, and with functions that may be threads, each
/// a name with its lines. Lines stand with `; ` between.
pub(crate) fn object_text(
    alloc: Global,
    words: &str,
    functions: &[(&str, &str)],
) -> Result<String, AllocError> {
    let mut text = String::new(alloc);
    put_lines(&mut text, "object 1; lock L")?;
    put_lines(&mut text, words)?;
    for (name, code) in functions {
        text.push_str("function ")?;
        text.push_str(name)?;
        text.push_str(" void 1 int 0\n")?;
        put_lines(&mut text, code)?;
        text.push_str("end\n")?;
    }
    text.push_str("end object\n")?;
    Ok(text)
}

// The objects of a text.
#[tactic(auto, using(crate::proofs::Few::few_functions))]
fn objects_of(alloc: Global, text: &str) -> Result<Vec<Object>, Fail>
    ensures few_units { IfOk result (λ objects. length objects.items ≤ 16777216) }
    ensures few_functions { IfOk result
        (λ objects. All (λ unit. length (functions_of unit) < 2 ^ 32) (decls_in objects.items)) }
    ensures whole { IfOk result (λ objects. AreWhole (units_of objects.items)) }
{
    let bytes = text.as_bytes();
    if bytes.len() > TEXT_LIMIT {
        return Err(Fail::new("the text is too long"));
    }
    objects_are_few();
    objects_are_whole();
    let objects = read_objects(alloc, bytes)?;
    if objects.len() > TEXT_LIMIT {
        return Err(Fail::new("too many objects"));
    }
    Ok(objects)
}

// The names of threads.
fn names_of(alloc: Global, entries: &[&str]) -> Result<Vec<Name>, Fail>
    ensures { IfOk result (λ names. length names.items ≤ 64) }
{
    let mut names = Vec::new(alloc);
    for entry in entries {
        names.push(Name::new(alloc, entry)?)?;
    }
    if names.len() > THREAD_LIMIT {
        return Err(Fail::new("too many threads"));
    }
    Ok(names)
}

/// The image of an objects text, with a thread for each of these functions.
pub(crate) fn image_of(alloc: Global, text: &str, entries: &[&str]) -> Result<Image, Fail> {
    let objects = objects_of(alloc, text)?;
    let names = names_of(alloc, entries)?;
    let lock = LockObject::accepted(alloc)?;
    Ok(link(alloc, &objects, &lock, &names)?)
}

/// The map of an objects text, with a thread for each of these functions.
pub(crate) fn map_of(alloc: Global, text: &str, entries: &[&str]) -> Result<String, Fail> {
    let objects = objects_of(alloc, text)?;
    let names = names_of(alloc, entries)?;
    let lock = LockObject::accepted(alloc)?;
    Ok(link_map(alloc, &objects, &lock, &names)?)
}

/// What is printed of an ended run in rounds, with the counts.
pub(crate) fn executed_text(
    alloc: Global,
    text: &str,
    entries: &[&str],
    limits: Limits,
) -> Result<String, Fail> {
    let image = image_of(alloc, text, entries)?;
    let options = options_of(limits);
    if !has_room(&image, &options) {
        return Err(Fail::new("too many outputs"));
    }
    let report = executed(alloc, &image, &options)?;
    Ok(print_report(alloc, &report, true)?)
}

/// What is printed after a schedule, with the counts if they are asked for.
pub(crate) fn simulated_text(
    alloc: Global,
    text: &str,
    entries: &[&str],
    items: &[Item],
    counts: bool,
) -> Result<String, Fail> {
    let image = image_of(alloc, text, entries)?;
    let options = options_of(AMPLE);
    if !has_room(&image, &options) {
        return Err(Fail::new("too many outputs"));
    }
    let report = simulated(alloc, &image, &options, items)?;
    Ok(print_report(alloc, &report, counts)?)
}
