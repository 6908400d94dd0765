//! Calls of the top call, with texts and streams in memory.

use cas_base::Text;
use cas_outside::{MemoryShelf, MemorySink, OpenGate};
use cas_top::cascc;
use std::alloc::{AllocError, Global};
use std::process::Abort;
use std::thread::Threads;

/// The words of a run of `m.c`.
pub(crate) const RUN: [&str; 6] = ["run", "m.c", "--lock", "lock.s", "--threads", "w"];

/// The words of a world of one thread of `m.c`.
pub(crate) const WORLD: &[&str] = &["world", "m.c", "--threads", "w"];

/// A name with its text, on the shelf of most calls.
pub(crate) const LOCK: (&str, &str) = ("lock.s", "lock:\n");

/// A module of the first form that prints a sum.
pub(crate) const SUM: &str = "void w(int me) { print(40 + 1); }";

/// What its run prints.
pub(crate) const PRINTED: &str = "0 41\nthread 0 done\n";

/// The line of a module that isn't of the first form.
pub(crate) const REFUSED: &str = "m.c:1:1: R0\n";

/// The line of a put that failed.
pub(crate) const CANNOT_WRITE: &str = "cascc: cannot write\n";

/// What a call is given: its words, the names and texts on the shelf, and the numbers of the reads and the puts that
/// fail.
#[derive(Clone, Copy)]
pub(crate) struct Given<'a> {
    pub(crate) words: &'a [&'a str],
    pub(crate) texts: &'a [(&'a str, &'a str)],
    pub(crate) reads: &'a [u64],
    pub(crate) outs: &'a [u64],
    pub(crate) errs: &'a [u64],
}

/// The status and the bytes that a call is to answer.
#[derive(Clone, Copy)]
pub(crate) struct Answer<'a> {
    status: u8,
    out: &'a str,
    err: &'a str,
}

pub(crate) fn wanted<'a>(status: u8, out: &'a str, err: &'a str) -> Answer<'a> {
    Answer { status, out, err }
}

/// A run of `m.c` with these texts. No call reads a third time, or puts a third time on `out` or a second time on
/// `err`: that would fail.
pub(crate) fn run_of<'a>(texts: &'a [(&'a str, &'a str)]) -> Given<'a> {
    Given {
        words: &RUN,
        texts,
        reads: &[3],
        outs: &[3],
        errs: &[2],
    }
}

pub(crate) fn words_of(alloc: Global, words: &[&str]) -> Result<Vec<Text>, AllocError> {
    let mut owned = Vec::new(alloc);
    for word in words {
        owned.push(Text::of(String::from_str(alloc, word)?))?;
    }
    Ok(owned)
}

fn entry(alloc: Global, name: &str, text: &str) -> Result<(String, Vec<u8>), AllocError> {
    let bytes = Vec::from_slice(alloc, text.as_bytes())?;
    Ok((String::from_str(alloc, name)?, bytes))
}

pub(crate) fn shelf_of(alloc: Global, given: Given) -> Result<MemoryShelf, AllocError> {
    let mut texts = Vec::new(alloc);
    for (name, text) in given.texts {
        texts.push(entry(alloc, name, text)?)?;
    }
    let failing = Vec::from_slice(alloc, given.reads)?;
    Ok(MemoryShelf::new(alloc, texts, failing))
}

pub(crate) fn sink_of(alloc: Global, failing: &[u64]) -> Result<MemorySink, AllocError> {
    Ok(MemorySink::new(alloc, Vec::from_slice(alloc, failing)?))
}

/// A call answers so.
pub(crate) fn assert_answer<R: Abort + Threads + Sync>(
    rt: &R,
    alloc: Global,
    given: Given,
    wanted: Answer,
) -> Result<(), AllocError> {
    let words = words_of(alloc, given.words)?;
    let mut shelf = shelf_of(alloc, given)?;
    let mut out = sink_of(alloc, given.outs)?;
    let mut err = sink_of(alloc, given.errs)?;
    let status = cascc(
        rt,
        alloc,
        words.as_slice(),
        &mut shelf,
        &mut out,
        &mut err,
        &OpenGate,
    );
    assert_eq!(rt; status, wanted.status);
    assert_eq!(rt; out.bytes(), wanted.out.as_bytes());
    assert_eq!(rt; err.bytes(), wanted.err.as_bytes());
    Ok(())
}

/// A run of `m.c` with this text answers so.
pub(crate) fn assert_module<R: Abort + Threads + Sync>(
    rt: &R,
    alloc: Global,
    text: &str,
    wanted: Answer,
) -> Result<(), AllocError> {
    let texts = [("m.c", text), LOCK];
    assert_answer(rt, alloc, run_of(&texts), wanted)
}

/// A call with these words and texts, whose reads and puts don't fail, answers so.
pub(crate) fn assert_words<R: Abort + Threads + Sync>(
    rt: &R,
    alloc: Global,
    words: &[&str],
    texts: &[(&str, &str)],
    wanted: Answer,
) -> Result<(), AllocError> {
    let given = Given {
        words,
        texts,
        reads: &[],
        outs: &[],
        errs: &[],
    };
    assert_answer(rt, alloc, given, wanted)
}

/// The text, so many times.
pub(crate) fn repeated(alloc: Global, text: &str, count: usize) -> Result<String, AllocError> {
    let mut whole = String::new(alloc);
    for _ in 0..count {
        whole.push_str(text)?;
    }
    Ok(whole)
}
