//! Reports, and how they are printed.

ghost use Rattle.std.specs.Prelude.{◌≡◌, ◌<◌, ◌^◌, ◌++◌, IfOk, OnOk, length, string_bytes, true, false};
ghost use Rattle.std.specs.Fmt.{decimal};
ghost use Rattle.cas_tso.specs.Report.{count_words, end_line, end_words, out_line, out_lines, report_text, thread_line, thread_lines};

use crate::end::End;
use cas_asm::BadWhy;
use cas_base::{NoMemory, Seq};
use std::alloc::Global;

/// How a thread ended, if it has, and what it counted.
#[derive(Clone, Copy, Debug, PartialEq, Eq)]
pub struct ThreadEnd {
    /// Its end; none while it runs.
    pub end: Option<End>,
    /// How many instructions it executed.
    pub executed: u64,
    /// How many of them loaded a shared word.
    pub loads: u64,
    /// How many of these found it in the thread's own buffer.
    pub forwarded: u64,
    /// How many of its stores were drained.
    pub drains: u64,
}

/// What a machine has come to: its outputs as pairs of thread and word, the first one first, and its threads.
#[derive(Debug, Drop)]
pub struct Report {
    /// The outputs.
    pub out: Seq<(u32, u32)>,
    /// The threads, by their numbers.
    pub threads: Seq<ThreadEnd>,
}

/// The text of a report: a line `THREAD VALUE` for each output, the value in its signed reading, and then a line
/// `thread K END` for each thread, which goes on with its counts where they are asked for.
///
/// # Errors
///
/// `NoMemory` for want of memory.
pub fn print_report(alloc: Global, report: &Report, counts: bool) -> Result<String, NoMemory>
    requires { length report.now.threads < 2 ^ 32 }
    ensures { IfOk result (λ text. string_bytes text ≡ report_text report.now counts) }
{
    let mut text = String::new(alloc);
    put_outputs(alloc, report.out.as_slice(), &mut text)?;
    put_threads(alloc, report.threads.as_slice(), counts, &mut text)?;
    Ok(text)
}

// A line for each output, after this text.
fn put_outputs(alloc: Global, out: &[(u32, u32)], text: &mut String) -> Result<(), NoMemory>
    ensures { OnOk result (string_bytes text.new ≡ string_bytes text.old ++ out_lines out.now) }
{
    for (thread, word) in out {
        let line = output_line(alloc, *thread, *word)?;
        text.push_str(line.as_str())?;
    }
    Ok(())
}

// A line for each thread, after this text.
fn put_threads(
    alloc: Global,
    threads: &[ThreadEnd],
    counts: bool,
    text: &mut String,
) -> Result<(), NoMemory>
    requires { length threads.now < 2 ^ 32 }
    ensures { OnOk result (string_bytes text.new ≡ string_bytes text.old ++ thread_lines counts 0 threads.now) }
{
    let mut number = 0;
    for thread in threads {
        let line = thread_line(alloc, number, *thread, counts)?;
        text.push_str(line.as_str())?;
        number += 1;
    }
    Ok(())
}

// `THREAD VALUE`, the value in the word's signed reading.
fn output_line(alloc: Global, thread: u32, word: u32) -> Result<String, NoMemory>
    ensures { IfOk result (λ line. string_bytes line ≡ out_line (thread, word)) }
{
    let value = word.cast_signed();
    Ok(format!(in alloc; "{thread} {value}\n")?)
}

// The line of a thread, with the counts where they are asked for.
fn thread_line(
    alloc: Global,
    number: u32,
    thread: ThreadEnd,
    counts: bool,
) -> Result<String, NoMemory>
    ensures { IfOk result (λ line. string_bytes line ≡ thread_line counts number thread) }
{
    let mut line = end_line(alloc, number, thread.end)?;
    if counts {
        put_counts(alloc, thread, &mut line)?;
    }
    line.push_str("\n")?;
    Ok(line)
}

// `thread K END`.
fn end_line(alloc: Global, number: u32, end: Option<End>) -> Result<String, NoMemory>
    ensures { IfOk result (λ line. string_bytes line ≡ end_line number end) }
{
    let words = end_words(end);
    Ok(format!(in alloc; "thread {number} {words}")?)
}

// ` executed A loads B forwarded C drains D`, after this text.
fn put_counts(alloc: Global, thread: ThreadEnd, text: &mut String) -> Result<(), NoMemory>
    ensures { OnOk result (string_bytes text.new ≡ string_bytes text.old ++ count_words true thread) }
{
    put_count(alloc, " executed ", thread.executed, text)?;
    put_count(alloc, " loads ", thread.loads, text)?;
    put_count(alloc, " forwarded ", thread.forwarded, text)?;
    put_count(alloc, " drains ", thread.drains, text)
}

// These words and a count, after this text.
fn put_count(alloc: Global, words: &str, count: u64, text: &mut String) -> Result<(), NoMemory>
    ensures { OnOk result (string_bytes text.new ≡ string_bytes text.old ++ words.now ++ decimal count) }
{
    let piece = format!(in alloc; "{words}{count}")?;
    text.push_str(piece.as_str())?;
    Ok(())
}

// How a thread ended, or that it hasn't.
fn end_words(end: Option<End>) -> &'static str
    ensures { result.now ≡ end_words end }
{
    match end {
        None => "running",
        Some(End::Done) => "done",
        Some(End::Fuel) => "fuel",
        Some(End::Stack) => "stack",
        Some(End::Outs) => "outs",
        Some(End::Bad(BadWhy::Divide)) => "bad divide",
        Some(End::Bad(BadWhy::Address)) => "bad address",
        Some(End::Bad(BadWhy::ConstWrite)) => "bad const",
        Some(End::Bad(BadWhy::CodePlace)) => "bad place",
    }
}
