//! What `run` answers of modules of the first form and of others, of words that are no command, and of reads and
//! puts that fail. The wanted bytes are those that `docs/COMMANDS.md` gives.

ghost use Rattle.std.specs.Prelude.{None, []};

use crate::calls::{
    Answer, CANNOT_WRITE, Given, LOCK, PRINTED, REFUSED, RUN, SUM, assert_answer, assert_module,
    repeated, run_of, shelf_of, sink_of, wanted, words_of,
};
use cas_outside::{OpenGate, Shelf, ShelfFault, Sink, SinkFault};
use cas_top::cascc;
use std::alloc::{AllocError, Global};
use std::process::Abort;
use std::test::Fail;
use std::thread::Threads;

// The texts of the sum's run.
const SUM_TEXTS: &[(&str, &str)] = &[("m.c", SUM), LOCK];

// The text of the first form with so many literals 1 behind the first, without spaces in the sum.
fn ones(alloc: Global, others: usize) -> Result<String, AllocError> {
    let added = repeated(alloc, "+1", others)?;
    format!(in alloc; "void w(int me) {{ print(1{added}); }}")
}

#[test]
fn always_out_of_memory(rt: HostRuntime) -> Result<(), Fail> {
    assert_answer(&rt, rt.alloc(), run_of(SUM_TEXTS), wanted(0, PRINTED, ""))?;
    Ok(())
}

#[test]
fn sums_are_printed(rt: HostRuntime) -> Result<(), Fail> {
    let alloc = rt.alloc();
    let wrapped = "void w(int me) { print(2147483647 + 1); }";
    assert_module(
        &rt,
        alloc,
        wrapped,
        wanted(0, "0 -2147483648\nthread 0 done\n", ""),
    )?;
    let spaced = "\nvoid  w ( int\nme ){print(0);}\n";
    assert_module(&rt, alloc, spaced, wanted(0, "0 0\nthread 0 done\n", ""))?;
    let other = "/* one */ void w(int x) { print((1 + 2) + 0x10); } // two";
    assert_module(&rt, alloc, other, wanted(0, "0 19\nthread 0 done\n", ""))?;
    let most = ones(alloc, 499)?;
    assert_module(
        &rt,
        alloc,
        most.as_str(),
        wanted(0, "0 500\nthread 0 done\n", ""),
    )?;
    Ok(())
}

#[test]
fn other_modules_are_refused(rt: HostRuntime) -> Result<(), Fail> {
    let alloc = rt.alloc();
    let too_many = ones(alloc, 500)?;
    let braces = repeated(alloc, "{", 201)?;
    let nested = format!(in alloc; "void w(int me) {{{braces}")?;
    let long = repeated(alloc, "w", 64)?;
    let named = format!(in alloc; "void {long}(int me);")?;
    let rows = [
        ("", REFUSED),
        ("void v(int me) { print(40 + 1); }", REFUSED),
        ("void w(int me) { print(2147483648); }", REFUSED),
        ("void w(int me) { print(40 - 1); }", REFUSED),
        ("lock @L;", "m.c:1:6: R1\n"),
        ("void w(int me) { /* x", "m.c:1:18: R2\n"),
        ("void w(int me) { print(4294967296); }", "m.c:1:24: R3\n"),
        (named.as_str(), "m.c:1:6: R4\n"),
        ("void w(int me) { me = ; }", "m.c:1:23: R5\n"),
        ("void w(int me) {", "m.c:1:17: R6\n"),
        ("void w(int me) { int x; x = 010; }", "m.c:1:29: R7\n"),
        (nested.as_str(), "m.c:1:217: R8\n"),
        (too_many.as_str(), "m.c:1:1024: R8\n"),
    ];
    for (text, refusal) in rows {
        assert_module(&rt, alloc, text, wanted(1, "", refusal))?;
    }
    Ok(())
}

#[test]
fn texts_have_a_limit(rt: HostRuntime) -> Result<(), Fail> {
    let alloc = rt.alloc();
    let longest = repeated(alloc, " ", 1_048_576)?;
    let too_long = repeated(alloc, " ", 1_048_577)?;
    assert_module(&rt, alloc, longest.as_str(), wanted(1, "", REFUSED))?;
    assert_module(
        &rt,
        alloc,
        too_long.as_str(),
        wanted(12, "", "cascc: too long m.c\n"),
    )?;
    let at_limit = [("m.c", SUM), ("lock.s", longest.as_str())];
    assert_answer(&rt, alloc, run_of(&at_limit), wanted(0, PRINTED, ""))?;
    let above_limit = [("m.c", SUM), ("lock.s", too_long.as_str())];
    assert_answer(
        &rt,
        alloc,
        run_of(&above_limit),
        wanted(12, "", "cascc: too long lock.s\n"),
    )?;
    Ok(())
}

// The line that says why the command was refused can't be put.
fn assert_untold<R: Abort + Threads + Sync>(
    rt: &R,
    alloc: Global,
    given: Given<'_>,
) -> Result<(), AllocError> {
    let given = Given {
        errs: &[1],
        ..given
    };
    assert_answer(rt, alloc, given, wanted(4, "", ""))
}

// The line of faulty words, of a text that is too long, and of a module that is refused can fail to be put.
#[test]
fn refusals_whose_put_fails_are_reported(rt: HostRuntime) -> Result<(), Fail> {
    let alloc = rt.alloc();
    let unread = Given {
        words: &["run", "m.c"],
        ..run_of(SUM_TEXTS)
    };
    assert_untold(&rt, alloc, unread)?;
    let too_long = repeated(alloc, " ", 1_048_577)?;
    let texts = [("m.c", too_long.as_str()), LOCK];
    assert_untold(&rt, alloc, run_of(&texts))?;
    let refused = [("m.c", ""), LOCK];
    assert_untold(&rt, alloc, run_of(&refused))?;
    Ok(())
}

// These words are refused before any read: the first would fail.
fn assert_usage<R: Abort + Threads + Sync>(
    rt: &R,
    alloc: Global,
    words: &[&str],
) -> Result<(), AllocError> {
    let given = Given {
        words,
        reads: &[1],
        ..run_of(SUM_TEXTS)
    };
    assert_answer(rt, alloc, given, wanted(2, "", "cascc: usage\n"))
}

#[test]
fn words_that_are_no_command_are_refused(rt: HostRuntime) -> Result<(), Fail> {
    let alloc = rt.alloc();
    assert_usage(&rt, alloc, &[])?;
    assert_usage(&rt, alloc, &["run", "m.c", "--threads", "w"])?;
    assert_usage(&rt, alloc, &["run", "m.c", "--lock", "lock.s", "--threads"])?;
    assert_usage(
        &rt,
        alloc,
        &["run", "m.c", "--lock", "lock.s", "--threads", "w", "x"],
    )?;
    assert_usage(
        &rt,
        alloc,
        &["run", "m.c", "--threads", "w", "--lock", "lock.s"],
    )?;
    Ok(())
}

#[test]
fn one_word_away_is_refused(rt: HostRuntime) -> Result<(), Fail> {
    let alloc = rt.alloc();
    let wrong = [
        (0, "check"),
        (1, ""),
        (1, "-m.c"),
        (2, "--look"),
        (3, ""),
        (3, "-"),
        (4, "--thread"),
        (5, ""),
        (5, "w,w"),
        (5, "1w"),
    ];
    for (place, word) in wrong {
        let mut words = RUN;
        words[place] = word;
        assert_usage(&rt, alloc, &words)?;
    }
    for place in 0..RUN.len() {
        let mut fewer = Vec::from_slice(alloc, &RUN)?;
        fewer.remove(place);
        assert_usage(&rt, alloc, fewer.as_slice())?;
    }
    for place in 0..=RUN.len() {
        let mut more = Vec::from_slice(alloc, &RUN)?;
        more.insert(place, "w")?;
        assert_usage(&rt, alloc, more.as_slice())?;
    }
    Ok(())
}

fn assert_faults<R: Abort + Threads + Sync>(
    rt: &R,
    alloc: Global,
    failing: [&[u64]; 3],
    wanted: Answer,
) -> Result<(), AllocError> {
    let [reads, outs, errs] = failing;
    let given = Given {
        reads,
        outs,
        errs,
        ..run_of(SUM_TEXTS)
    };
    assert_answer(rt, alloc, given, wanted)
}

#[test]
fn reads_that_fail_are_reported(rt: HostRuntime) -> Result<(), Fail> {
    let alloc = rt.alloc();
    assert_faults(
        &rt,
        alloc,
        [&[1], &[], &[]],
        wanted(3, "", "cascc: cannot read m.c\n"),
    )?;
    assert_faults(
        &rt,
        alloc,
        [&[2], &[], &[]],
        wanted(3, "", "cascc: cannot read lock.s\n"),
    )?;
    assert_faults(&rt, alloc, [&[1], &[], &[1]], wanted(4, "", ""))?;
    let told_at_once = wanted(3, "", "cascc: cannot read m.c\n");
    assert_faults(&rt, alloc, [&[1], &[], &[2]], told_at_once)?;
    assert_faults(&rt, alloc, [&[3], &[], &[]], wanted(0, PRINTED, ""))?;
    let missing = Given {
        words: &["run", "a.c", "--lock", "lock.s", "--threads", "w"],
        ..run_of(SUM_TEXTS)
    };
    assert_answer(
        &rt,
        alloc,
        missing,
        wanted(3, "", "cascc: cannot read a.c\n"),
    )?;
    Ok(())
}

#[test]
fn puts_that_fail_are_reported(rt: HostRuntime) -> Result<(), Fail> {
    let alloc = rt.alloc();
    assert_faults(&rt, alloc, [&[], &[1], &[2]], wanted(4, "", CANNOT_WRITE))?;
    assert_faults(
        &rt,
        alloc,
        [&[], &[2], &[]],
        wanted(4, "0 41\n", CANNOT_WRITE),
    )?;
    assert_faults(&rt, alloc, [&[], &[2], &[1]], wanted(4, "0 41\n", ""))?;
    assert_faults(&rt, alloc, [&[], &[3], &[1]], wanted(0, PRINTED, ""))?;
    Ok(())
}

// A shelf that has no memory for any text.
#[derive(Drop)]
struct FullShelf;

impl Shelf for FullShelf {
    ghost texts = { λ _. None };

    ghost failed = { λ _. [] };

    fn read(&mut self, _alloc: Global, _name: &str, _limit: u64) -> Result<Vec<u8>, ShelfFault> {
        Err(ShelfFault::Memory)
    }
}

// A sink that has no memory for its first put, and takes what is put later.
#[derive(Drop)]
struct NarrowSink {
    was_put: bool,
    bytes: Vec<u8>,
}

impl NarrowSink {
    fn new(alloc: Global) -> Self {
        NarrowSink {
            was_put: false,
            bytes: Vec::new(alloc),
        }
    }
}

impl Sink for NarrowSink {
    ghost taken = { λ _. None };

    ghost faults = { λ _. 0 };

    fn put(&mut self, bytes: &[u8]) -> Result<(), SinkFault> {
        if !self.was_put {
            self.was_put = true;
            return Err(SinkFault::Memory);
        }
        match self.bytes.extend_from_slice(bytes) {
            Ok(()) => Ok(()),
            Err(_) => Err(SinkFault::Memory),
        }
    }
}

#[test]
fn out_of_memory_is_reported(rt: HostRuntime) -> Result<(), Fail> {
    let alloc = rt.alloc();
    let words = words_of(alloc, &RUN)?;
    let mut out = sink_of(alloc, &[])?;
    let mut err = sink_of(alloc, &[2])?;
    let status = cascc(
        &rt,
        alloc,
        words.as_slice(),
        &mut FullShelf,
        &mut out,
        &mut err,
        &OpenGate,
    );
    assert_eq!(rt; status, 9);
    assert_eq!(rt; out.bytes(), b"".as_slice());
    assert_eq!(rt; err.bytes(), b"cascc: memory\n".as_slice());
    Ok(())
}

// A sink whose puts fail, and are counted.
#[derive(Drop)]
struct ClosedSink {
    count: u64,
}

impl Sink for ClosedSink {
    ghost taken = { λ _. None };

    ghost faults = { λ sink. sink.count };

    fn put(&mut self, _bytes: &[u8]) -> Result<(), SinkFault> {
        if self.count == u64::MAX {
            return Err(SinkFault::Memory);
        }
        self.count += 1;
        Err(SinkFault::Failed)
    }
}

#[test]
fn lines_for_out_of_memory_are_tried_once(rt: HostRuntime) -> Result<(), Fail> {
    let alloc = rt.alloc();
    let words = words_of(alloc, &RUN)?;
    let mut out = sink_of(alloc, &[])?;
    let mut err = ClosedSink { count: 0 };
    let status = cascc(
        &rt,
        alloc,
        words.as_slice(),
        &mut FullShelf,
        &mut out,
        &mut err,
        &OpenGate,
    );
    assert_eq!(rt; status, 9);
    assert_eq!(rt; out.bytes(), b"".as_slice());
    assert_eq!(rt; err.count, 1);
    Ok(())
}

#[test]
fn puts_without_memory_are_reported(rt: HostRuntime) -> Result<(), Fail> {
    let alloc = rt.alloc();
    let mut shelf = shelf_of(alloc, run_of(SUM_TEXTS))?;
    let mut out = NarrowSink::new(alloc);
    let mut err = sink_of(alloc, &[2])?;
    let status = cascc(
        &rt,
        alloc,
        words_of(alloc, &RUN)?.as_slice(),
        &mut shelf,
        &mut out,
        &mut err,
        &OpenGate,
    );
    assert_eq!(rt; status, 9);
    assert_eq!(rt; out.bytes.as_slice(), b"".as_slice());
    assert_eq!(rt; err.bytes(), b"cascc: memory\n".as_slice());
    let mut silent = sink_of(alloc, &[])?;
    let mut narrow = NarrowSink::new(alloc);
    let status = cascc(
        &rt,
        alloc,
        &[],
        &mut shelf,
        &mut silent,
        &mut narrow,
        &OpenGate,
    );
    assert_eq!(rt; status, 9);
    assert_eq!(rt; silent.bytes(), b"".as_slice());
    assert_eq!(rt; narrow.bytes.as_slice(), b"cascc: memory\n".as_slice());
    Ok(())
}
