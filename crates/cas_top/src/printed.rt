//! The lines that commands print, and that of a module's fault.
ghost use Rattle.std.specs.Prelude.{◌≡◌, ◌<◌, ◌^◌, ◌++◌, IfOk, OnOk, Some, codes, length, map};
ghost use Rattle.std.specs.Fmt.{decimal};
ghost use Rattle.cas_top.specs.View.{module_line};
ghost use Rattle.cas_top.specs.Printed.{code_letters, count_word, form_line, kept_name, out_line, end_words, end_line, end_lines, ok_line, own_letters, place_line, report_lines, type_letters};

use crate::machine::{End, Report};
use crate::refusal::ModuleFault;
use cas_base::{Name, NoMemory, Place, Text};
use cas_own::OwnCode;
use cas_read::ReadCode;
use cas_typed::{TypeCode, TypeCount};
use std::alloc::Global;

/// The lines of a report: its outputs in order, and then the ends of its threads.
pub(crate) fn report_lines(alloc: Global, report: &Report) -> Result<Vec<Text>, NoMemory>
    requires { length report.now.ends < 2 ^ 32 }
    ensures { IfOk result (λ lines. lines.items ≡ report_lines report.now) }
{
    let mut lines = output_lines(alloc, &report.out)?;
    put_ends(alloc, &report.ends, &mut lines)?;
    Ok(lines)
}

/// A line for each output.
pub(crate) fn output_lines(alloc: Global, out: &[(u32, u32)]) -> Result<Vec<Text>, NoMemory>
    ensures { IfOk result (λ lines. lines.items ≡ map out_line out.now) }
{
    let mut lines = Vec::new(alloc);
    for (thread, word) in out {
        lines.push(output(alloc, *thread, *word)?)?;
    }
    Ok(lines)
}

// A line for each thread and its end, after these lines.
fn put_ends(alloc: Global, ends: &[End], lines: &mut Vec<Text>) -> Result<(), NoMemory>
    requires { length ends.now < 2 ^ 32 }
    ensures { OnOk result (lines.new.items ≡ lines.old.items ++ end_lines 0 ends.now) }
{
    let mut thread = 0;
    for end in ends {
        lines.push(ended(alloc, thread, *end)?)?;
        thread += 1;
    }
    Ok(())
}

// `THREAD VALUE`, the value in the word's signed reading.
fn output(alloc: Global, thread: u32, word: u32) -> Result<Text, NoMemory>
    ensures { IfOk result (λ line. line ≡ out_line (thread, word)) }
{
    let value = word.cast_signed();
    let line = format!(in alloc; "{thread} {value}\n")?;
    Ok(Text::of(line))
}

// `thread K END`.
fn ended(alloc: Global, thread: u32, end: End) -> Result<Text, NoMemory>
    ensures { IfOk result (λ line. line ≡ end_line thread end) }
{
    let words = end_words(end);
    let line = format!(in alloc; "thread {thread} {words}\n")?;
    Ok(Text::of(line))
}

// How a thread ended, in words.
fn end_words(end: End) -> &'static str
    ensures { result.now ≡ end_words end }
{
    match end {
        End::Done => "done",
        End::Bad => "bad place",
    }
}

/// `NAME ok`, of a checked module.
pub(crate) fn ok_line(alloc: Global, name: &str) -> Result<Text, NoMemory>
    ensures { IfOk result (λ line. line ≡ ok_line name.now) }
{
    let text = format!(in alloc; "{name} ok\n")?;
    Ok(Text::of(text))
}

/// The line of a module's fault: `NAME:LINE:COL: ` with its code, and what is kept.
pub(crate) fn module_line(alloc: Global, name: &str, fault: ModuleFault) -> Result<Text, NoMemory>
    ensures { IfOk result (λ line. line ≡ module_line name.now fault) }
{
    match fault {
        ModuleFault::Misread(code, place) => place_line(alloc, name, place, read_letters(code)),
        ModuleFault::Untyped(code, place, None) => {
            place_line(alloc, name, place, type_letters(code))
        }
        ModuleFault::Untyped(code, place, Some(kept)) => {
            let words = named_fault(alloc, code, &kept)?;
            place_line(alloc, name, place, words.as_str())
        }
        ModuleFault::Excessive(place, what, counted) => {
            let words = limit_words(alloc, what, counted)?;
            place_line(alloc, name, place, words.as_str())
        }
        ModuleFault::Unowned(code, place, lock) => {
            let words = own_fault(alloc, code, &lock)?;
            place_line(alloc, name, place, words.as_str())
        }
        ModuleFault::Formless => form_line(alloc, name),
    }
}

// `NAME:LINE:COL: REST`.
fn place_line(alloc: Global, name: &str, place: Place, rest: &str) -> Result<Text, NoMemory>
    ensures { IfOk result (λ line. line ≡ place_line name.now place rest.now) }
{
    let Place { line, col } = place;
    let text = format!(in alloc; "{name}:{line}:{col}: {rest}\n")?;
    Ok(Text::of(text))
}

// `CODE NAME`.
fn named_fault(alloc: Global, code: TypeCode, kept: &Name) -> Result<Text, NoMemory>
    ensures { IfOk result (λ words. words ≡ type_letters code ++ kept_name (Some kept.now)) }
{
    let letters = type_letters(code);
    let kept = kept.as_str();
    let text = format!(in alloc; "{letters} {kept}")?;
    Ok(Text::of(text))
}

// `T8 COUNT NUMBER`.
fn limit_words(alloc: Global, what: TypeCount, counted: u64) -> Result<Text, NoMemory>
    ensures { IfOk result (λ words. words ≡ codes "T8 " ++ count_word what ++ codes " " ++ decimal counted) }
{
    let word = count_word(what);
    let text = format!(in alloc; "T8 {word} {counted}")?;
    Ok(Text::of(text))
}

// `CODE LOCK`.
fn own_fault(alloc: Global, code: OwnCode, lock: &Name) -> Result<Text, NoMemory>
    ensures { IfOk result (λ words. words ≡ own_letters code ++ codes " " ++ lock.now) }
{
    let letters = own_letters(code);
    let lock = lock.as_str();
    let text = format!(in alloc; "{letters} {lock}")?;
    Ok(Text::of(text))
}

// `NAME:1:1: R0`.
fn form_line(alloc: Global, name: &str) -> Result<Text, NoMemory>
    ensures { IfOk result (λ line. line ≡ form_line name.now) }
{
    let text = format!(in alloc; "{name}:1:1: R0\n")?;
    Ok(Text::of(text))
}

// The code of a fault of typing, in letters.
fn type_letters(code: TypeCode) -> &'static str
    ensures { result.now ≡ type_letters code }
{
    match code {
        TypeCode::T1 => "T1",
        TypeCode::T2 => "T2",
        TypeCode::T3 => "T3",
        TypeCode::T4 => "T4",
        TypeCode::T5 => "T5",
        TypeCode::T6 => "T6",
        TypeCode::T7 => "T7",
    }
}

// The code of a fault of ownership, in letters.
fn own_letters(code: OwnCode) -> &'static str
    ensures { result.now ≡ own_letters code }
{
    match code {
        OwnCode::O1 => "O1",
        OwnCode::O2 => "O2",
        OwnCode::O3 => "O3",
        OwnCode::O4 => "O4",
        OwnCode::O5 => "O5",
        OwnCode::O6 => "O6",
        OwnCode::O7 => "O7",
        OwnCode::O8 => "O8",
    }
}

// What is counted, in a word.
fn count_word(what: TypeCount) -> &'static str
    ensures { result.now ≡ count_word what }
{
    match what {
        TypeCount::Parameters => "parameters",
        TypeCount::Cells => "cells",
        TypeCount::Nodes => "nodes",
        TypeCount::Functions => "functions",
        TypeCount::Words => "words",
    }
}

// The code of a text's fault, in letters.
fn read_letters(code: ReadCode) -> &'static str
    ensures { result.now ≡ code_letters code }
{
    match code {
        ReadCode::R1 => "R1",
        ReadCode::R2 => "R2",
        ReadCode::R3 => "R3",
        ReadCode::R4 => "R4",
        ReadCode::R5 => "R5",
        ReadCode::R6 => "R6",
        ReadCode::R7 => "R7",
        ReadCode::R8 => "R8",
    }
}
