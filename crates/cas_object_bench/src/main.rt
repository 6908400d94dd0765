//! A program for measures alone, which `bench/objects.py` runs. `read FILE` reads an objects text; `print FILE` prints
//! the objects that it reads; `link FILE FILE` links the objects of two texts and prints how many instructions there
//! are. The status is 1 where that can't be done.
#![tactic(auto)]

ghost use Rattle.std.specs.Prelude.{◌<◌, ◌≤◌, ◌^◌, All, IfSome, length};
ghost use Rattle.cas_base.specs.Decl.{functions_of};
ghost use Rattle.cas_link.specs.Parts.{decls_in, units_of};
ghost use Rattle.cas_object_text.specs.Values.{AreWhole};

use cas_link::link;
use cas_lock::LockObject;
use cas_object::read_objects;
use cas_object_print::print_object;
use cas_object_text::Object;
use cas_outside::{FileShelf, Shelf, Sink, StdSink};
use std::alloc::Global;
use std::env::Env;
use std::process::ExitCode;
use std::{env, io};

// The most bytes of an objects text.
const TEXT_LIMIT: u64 = 16_777_216;

// The objects of a file's text.
#[tactic(auto, using(crate::proofs::Linkable::whole_of_read, crate::proofs::Linkable::few_of_read, crate::proofs::Linkable::functions_of_read))]
fn objects_of<S: Shelf>(alloc: Global, shelf: &mut S, name: &str) -> Option<Vec<Object>>
    ensures whole { IfSome result (λ objects. AreWhole (units_of objects.items)) }
    ensures few_units { IfSome result (λ objects. length objects.items ≤ 16777216) }
    ensures few_functions { IfSome result
        (λ objects. All (λ unit. length (functions_of unit) < 2 ^ 32) (decls_in objects.items)) }
{
    let text = shelf.read(alloc, name, TEXT_LIMIT).ok()?;
    read_objects(alloc, text.as_slice()).ok()
}

// Prints the objects of a file.
fn print<S: Shelf, W: Sink>(alloc: Global, shelf: &mut S, name: &str, out: &mut W) -> Option<()> {
    for object in &objects_of(alloc, shelf, name)? {
        let text = print_object(alloc, object).ok()?;
        out.put(text.as_bytes()).ok()?;
    }
    Some(())
}

// How many instructions an image of the objects of two files has.
#[tactic(auto, using(crate::proofs::Linkable::whole_append, crate::proofs::Linkable::few_append))]
fn size_of<S: Shelf>(alloc: Global, shelf: &mut S, first: &str, second: &str) -> Option<usize> {
    let mut objects = objects_of(alloc, shelf, first)?;
    let mut others = objects_of(alloc, shelf, second)?;
    objects.append(&mut others).ok()?;
    let lock = LockObject::accepted(alloc).ok()?;
    let image = link(alloc, &objects, &lock, &[]).ok()?;
    Some(image.code.as_slice().len())
}

// Puts how many instructions there are.
fn put_size<W: Sink>(alloc: Global, size: usize, out: &mut W) -> Option<()> {
    let line = format!(in alloc; "{size}\n").ok()?;
    out.put(line.as_bytes()).ok()
}

// What the words after the program's name ask for.
fn work<S: Shelf, W: Sink>(
    alloc: Global,
    shelf: &mut S,
    words: &[String],
    out: &mut W,
) -> Option<()> {
    match words {
        [command, name] if command.as_str() == "read" => {
            objects_of(alloc, shelf, name.as_str())?;
            Some(())
        }
        [command, name] if command.as_str() == "print" => print(alloc, shelf, name.as_str(), out),
        [command, first, second] if command.as_str() == "link" => {
            let size = size_of(alloc, shelf, first.as_str(), second.as_str())?;
            put_size(alloc, size, out)
        }
        _ => None,
    }
}

// The words after the program's name.
fn words<R: Env + AllocGlobal>(rt: &R) -> io::Result<Vec<String>> {
    let mut words = Vec::new(rt.alloc());
    for word in env::args(rt)?.skip(1) {
        words.push(word)?;
    }
    Ok(words)
}

fn main(rt: HostRuntime) -> ExitCode {
    let alloc = rt.alloc();
    let mut shelf = FileShelf::new(&rt, alloc);
    let mut out = StdSink::new(alloc, rt.stdout());
    let Ok(words) = words(&rt) else {
        return ExitCode::FAILURE;
    };
    match work(alloc, &mut shelf, &words, &mut out) {
        Some(()) => ExitCode::SUCCESS,
        None => ExitCode::FAILURE,
    }
}
