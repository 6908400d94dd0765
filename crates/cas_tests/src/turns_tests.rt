//! What `world` answers of the turns of several threads, and which modules and threads are no program. The wanted lines
//! are those of the rules of the language and of the command (`docs/LANGUAGE.md`, `docs/COMMANDS.md`).

use crate::calls::{
    Answer, CANNOT_WRITE, Given, WORLD, assert_answer, assert_words, repeated, wanted,
};
use std::alloc::{AllocError, Global};
use std::process::Abort;
use std::test::Fail;
use std::thread::Threads;

// Two locks that two threads take in two orders, and a global of one of them.
const CROSSED: &str =
    "lock K; lock L; shared(L) int g; void rising(int me) { lock(K); lock(L); g += 1; unlock(L); unlock(K); } void falling(int me) { lock(L); lock(K); g += 2; unlock(K); print(g); unlock(L); }";

const TALK: &str = "void w(int me) { print(me + 41); }";

const SPEAK: &str = "void w(int me) { print(1); print(2); print(3); }";

const SELF_LOCKED: &str =
    "lock L; void g(void) { lock(L); unlock(L); } void w(int me) { lock(L); g(); unlock(L); }";

const BAD_HOLDER: &str =
    "lock L; shared(L) int g; void w(int me) { lock(L); g = 1 / me; unlock(L); }";

// A function that calls itself until its argument is 0, and returns how often it did.
const DEEP: &str =
    "int down(int n) { int m; if (n == 0) return 0; m = down(n - 1); return m + 1; } void w(int me) { int depth; depth = down(100000); print(depth); }";

// Modules with the functions of their threads, the option of turns, and what is printed.
const TURNS: &[(&str, &str, &[&str], &str)] = &[
    (
        TALK,
        "w,w",
        &["--schedule", "1,0,0,1"],
        "1 42\n0 41\nthread 0 ended\nthread 1 ended\n",
    ),
    (
        TALK,
        "w,w",
        &["--schedule", "1"],
        "1 42\nthread 0 running\nthread 1 running\n",
    ),
    (
        TALK,
        "w,w",
        &["--schedule=1*2"],
        "1 42\nthread 0 running\nthread 1 ended\n",
    ),
    (
        TALK,
        "w,w",
        &["--schedule", "1*9,0*9999991"],
        "1 42\n0 41\nthread 0 ended\nthread 1 ended\n",
    ),
    (
        TALK,
        "w,w",
        &[],
        "0 41\n1 42\nthread 0 ended\nthread 1 ended\n",
    ),
    (
        TALK,
        "w,w",
        &["--rounds", "0"],
        "thread 0 running\nthread 1 running\n",
    ),
    (
        TALK,
        "w,w",
        &["--rounds", "1"],
        "0 41\n1 42\nthread 0 running\nthread 1 running\n",
    ),
    (
        TALK,
        "w,w",
        &["--rounds=2"],
        "0 41\n1 42\nthread 0 ended\nthread 1 ended\n",
    ),
    (
        TALK,
        "w,w,w",
        &["--schedule", "2,1*2"],
        "2 43\n1 42\nthread 0 running\nthread 1 ended\nthread 2 running\n",
    ),
    (
        SPEAK,
        "w",
        &["--rounds", "2"],
        "0 1\n0 2\nthread 0 running\n",
    ),
    (
        SPEAK,
        "w",
        &["--rounds", "3"],
        "0 1\n0 2\n0 3\nthread 0 running\n",
    ),
    (
        SPEAK,
        "w",
        &["--rounds", "4"],
        "0 1\n0 2\n0 3\nthread 0 ended\n",
    ),
    (
        SPEAK,
        "w",
        &["--rounds", "1000000"],
        "0 1\n0 2\n0 3\nthread 0 ended\n",
    ),
    (
        "void w(int me) { while (1) { me++; } }",
        "w",
        &[],
        "thread 0 running\n",
    ),
    (
        "void w(int me) { while (1) { me++; } }",
        "w,w",
        &["--schedule", "0*1000,1*0001"],
        "thread 0 running\nthread 1 running\n",
    ),
    (
        CROSSED,
        "rising,falling",
        &["--schedule", "0,1"],
        "thread 0 waits L holder 1\nthread 1 waits K holder 0\n",
    ),
    (
        CROSSED,
        "rising,falling",
        &[],
        "thread 0 waits L holder 1\nthread 1 waits K holder 0\n",
    ),
    (
        CROSSED,
        "rising,falling",
        &["--schedule", "1*3,0*2,1*4,0*9"],
        "1 2\nthread 0 ended\nthread 1 ended\n",
    ),
    (
        CROSSED,
        "rising,falling",
        &["--schedule", "0*6,1*7"],
        "1 3\nthread 0 ended\nthread 1 ended\n",
    ),
    (
        CROSSED,
        "falling,falling",
        &["--schedule", "1*2,0*5,1*3"],
        "1 2\nthread 0 waits L holder 1\nthread 1 running\n",
    ),
    (
        CROSSED,
        "rising,rising",
        &["--schedule", "0,1*3"],
        "thread 0 running\nthread 1 waits K holder 0\n",
    ),
    (SELF_LOCKED, "w", &[], "thread 0 waits L holder 0\n"),
    (
        SELF_LOCKED,
        "w,w",
        &["--schedule", "1*9,0*9"],
        "thread 0 waits L holder 1\nthread 1 waits L holder 1\n",
    ),
    (
        BAD_HOLDER,
        "w,w",
        &[],
        "thread 0 bad division by zero m.c:1:52\nthread 1 waits L holder 0\n",
    ),
    (
        BAD_HOLDER,
        "w,w",
        &["--schedule", "1*4,0*2"],
        "thread 0 bad division by zero m.c:1:52\nthread 1 ended\n",
    ),
    (
        "void v(int me) { print(1); } void w(int me) { print(me / 0); print(2); }",
        "w,v,w",
        &[],
        "1 1\nthread 0 bad division by zero m.c:1:47\nthread 1 ended\nthread 2 bad division by zero m.c:1:47\n",
    ),
];

// Words that aren't those of `world`.
const MISUSED: &[&[&str]] = &[
    &["world", "m.c"],
    &["world", "--threads", "w"],
    &["world", "m.c", "--threads", ""],
    &["world", "m.c", "--threads", "w,"],
    &["world", "m.c", "--threads", ",w"],
    &["world", "m.c", "--threads", "w, w"],
    &["world", "m.c", "--threads", "2w"],
    &["world", "m.c", "--threads", "w", "--threads", "w"],
    &["world", "m.c", "--threads", "w", "--rounds", "1000001"],
    &["world", "m.c", "--threads", "w", "--rounds", "00000000001"],
    &["world", "m.c", "--threads", "w", "--rounds", "+1"],
    &["world", "m.c", "--threads", "w", "--rounds", ""],
    &[
        "world",
        "m.c",
        "--threads",
        "w",
        "--rounds",
        "1",
        "--rounds",
        "1",
    ],
    &[
        "world",
        "m.c",
        "--threads",
        "w",
        "--rounds",
        "1",
        "--schedule",
        "0",
    ],
    &["world", "m.c", "--threads", "w", "--schedule", ""],
    &["world", "m.c", "--threads", "w", "--schedule", "1"],
    &["world", "m.c", "--threads", "w", "--schedule", "0,"],
    &["world", "m.c", "--threads", "w", "--schedule", "0*0"],
    &["world", "m.c", "--threads", "w", "--schedule", "0*"],
    &["world", "m.c", "--threads", "w", "--schedule", "*1"],
    &["world", "m.c", "--threads", "w", "--schedule", "0*1*1"],
    &["world", "m.c", "--threads", "w", "--schedule", "r0"],
    &["world", "m.c", "--threads", "w", "--schedule", "0*10000001"],
    &[
        "world",
        "m.c",
        "--threads",
        "w",
        "--schedule",
        "0*10000000,0",
    ],
    &[
        "world",
        "m.c",
        "--threads",
        "w,w,w,w,w,w,w,w,w,w,w,w,w,w,w,w,w,w,w,w,w,w,w,w,w,w,w,w,w,w,w,w,w,w,w,w,w,w,w,w,w,w,w,w,w,w,w,w,w,w,w,w,w,w,w,w,w,w,w,w,w,w,w,w,w",
    ],
    &["world", "m.c", "--threads", "w", "--lock", "lock.s"],
    &["world", "m.c", "--threads", "w", "--fuel", "1"],
    &["world", "-m.c", "--threads", "w"],
    &["world", "-", "--threads", "w"],
];

// Texts of `a.c` and `b.c`, the functions of their threads, and the line that refuses them.
const UNLINKED: &[(&str, &str, &str, &str)] = &[
    ("", "", "w", "L1 w"),
    (TALK, "", "w,v,u", "L1 v"),
    ("extern lock K; lock M;", TALK, "w", "L1 K"),
    (TALK, "void f(int a);", "w", "L1 f"),
    ("int f(int a);", "int g(int a); extern lock L;", "w", "L1 f"),
    (TALK, TALK, "w", "L2 w"),
    ("lock L; lock K;", "lock K; lock L;", "w", "L2 K"),
    ("extern lock K; lock w;", "void w(int me) { }", "v", "L2 w"),
    (
        "lock L; lock M; shared(L) int g;",
        "extern lock M; extern shared(M) int g; void w(int me) { lock(M); g = 1; unlock(M); }",
        "w",
        "L3 g: shared g int L | shared g int M",
    ),
    (
        "lock L; lock g;",
        "extern lock L; extern shared(L) int g;",
        "w",
        "L3 g: lock g | shared g int L",
    ),
    (
        "extern const char t[4];",
        "const char t[3] = {1};",
        "w",
        "L3 t: const t i8[3] | const t i8[4]",
    ),
    (
        "lock L; shared(L) unsigned char c[2];",
        "extern lock L; extern shared(L) unsigned short c[2];",
        "w",
        "L3 c: shared c u8[2] L | shared c u16[2] L",
    ),
    (
        "lock L; int f(int a, unsigned *p) holds(L) { return 1; }",
        "extern lock L; int f(int a) holds(L);",
        "w",
        "L3 f: function f int 2 int unsigned* 1 L | function f int 1 int 1 L",
    ),
    (
        "lock L; lock M; void f(void) holds(L, M) { }",
        "extern lock L; void f(void) holds(L); extern lock N;",
        "w",
        "L3 f: function f void 0 2 L M | function f void 0 1 L",
    ),
    (
        "lock L; void f(void) holds(L) { }",
        "short *f(void);",
        "w",
        "L3 f: function f void 0 1 L | function f i16* 0 0",
    ),
    (
        "int f(int a) { return a; }",
        TALK,
        "w,f,v",
        "L4 f: function f int 1 int 0",
    ),
    ("void f(void) { }", TALK, "f", "L4 f: function f void 0 0"),
    (
        "void f(unsigned a) { }",
        TALK,
        "f",
        "L4 f: function f void 1 unsigned 0",
    ),
    (
        "lock L; void f(int a) holds(L) { }",
        TALK,
        "f",
        "L4 f: function f void 1 int 1 L",
    ),
    ("lock L;", TALK, "w,L", "L4 L: lock L"),
    (
        "lock L; shared(L) int g[65535];",
        "extern lock L; shared(L) int h; void w(int me) { }",
        "w",
        "L5 words 65537",
    ),
    (
        "lock L; shared(L) int g[65535];",
        "extern lock L; shared(L) int h;",
        "w",
        "L1 w",
    ),
];

// Texts of `a.c` and `b.c` that are a program, and what its world of one thread prints.
const LINKED: &[(&str, &str, &str)] = &[
    (
        "lock L; shared(L) int count; void bump(void) { lock(L); count += 1; unlock(L); }",
        "extern lock L; extern shared(L) int count; void bump(void); void w(int me) { int i; for (i = 0; i < 1000; i++) { bump(); } lock(L); print(count); unlock(L); }",
        "0 1000\nthread 0 ended\n",
    ),
    (
        "lock L; lock M; void f(void) holds(L, M) { print(7); }",
        "extern lock L; extern lock M; void f(void) holds(M, L); void w(int me) { lock(L); lock(M); f(); unlock(L); unlock(M); }",
        "0 7\nthread 0 ended\n",
    ),
    (
        "lock L; shared(L) int g[65534];",
        "extern lock L; shared(L) int h; void w(int me) { lock(L); h = 3; print(h); unlock(L); }",
        "0 3\nthread 0 ended\n",
    ),
    (
        "int f(int a) { return 1 / a; }",
        "int f(int a); void w(int me) { me = f(me); }",
        "thread 0 bad division by zero a.c:1:16\n",
    ),
    (
        "void f(int a) { }",
        "void f(int a); void w(int me) { f(1 / me); }",
        "thread 0 bad division by zero b.c:1:33\n",
    ),
    (
        "lock K; lock L; void f(void) { lock(L); unlock(L); }",
        "extern lock L; void f(void); void w(int me) { lock(L); f(); unlock(L); }",
        "thread 0 waits L holder 0\n",
    ),
    (
        "const int t[2] = {8, 9};",
        "extern const int t[2]; extern const int t[2]; void w(int me) { print(t[1]); }",
        "0 9\nthread 0 ended\n",
    ),
];

// 64 threads of `w`, and the lines after a first round in which each prints its number.
fn many_threads(alloc: Global) -> Result<(String, String), AllocError> {
    let mut threads = String::from_str(alloc, "w")?;
    threads.push_str(repeated(alloc, ",w", 63)?.as_str())?;
    let mut lines = String::new(alloc);
    for thread in 0u32..64 {
        lines.push_str(format!(in alloc; "{thread} {thread}\n")?.as_str())?;
    }
    for thread in 0u32..64 {
        lines.push_str(format!(in alloc; "thread {thread} running\n")?.as_str())?;
    }
    Ok((threads, lines))
}

#[test]
fn many_threads_take_turns(rt: HostRuntime) -> Result<(), Fail> {
    let alloc = rt.alloc();
    let (threads, lines) = many_threads(alloc)?;
    let words = [
        "world",
        "m.c",
        "--threads",
        threads.as_str(),
        "--rounds",
        "1",
    ];
    let texts = [("m.c", "void w(int me) { print(me); }")];
    assert_words(&rt, alloc, &words, &texts, wanted(0, lines.as_str(), ""))?;
    Ok(())
}

#[test]
fn threads_call_deep(rt: HostRuntime) -> Result<(), Fail> {
    let words = ["world", "m.c", "--threads", "w", "--rounds", "1000000"];
    let lines = "0 100000\nthread 0 ended\n";
    assert_words(
        &rt,
        rt.alloc(),
        &words,
        &[("m.c", DEEP)],
        wanted(0, lines, ""),
    )?;
    Ok(())
}

#[test]
fn threads_take_turns(rt: HostRuntime) -> Result<(), Fail> {
    let alloc = rt.alloc();
    for (text, threads, options, out) in TURNS {
        let mut words = Vec::from_slice(alloc, &["world", "m.c", "--threads", threads])?;
        words.extend_from_slice(options)?;
        let texts = [("m.c", *text)];
        assert_words(&rt, alloc, words.as_slice(), &texts, wanted(0, out, ""))?;
    }
    for words in MISUSED {
        let usage = wanted(2, "", "cascc: usage\n");
        assert_words(&rt, alloc, words, &[("m.c", TALK)], usage)?;
    }
    Ok(())
}

#[test]
fn modules_are_joined(rt: HostRuntime) -> Result<(), Fail> {
    let alloc = rt.alloc();
    for (first, second, threads, line) in UNLINKED {
        let words = ["world", "a.c", "b.c", "--threads", *threads];
        let err = format!(in alloc; "cascc: {line}\n")?;
        let texts = [("a.c", *first), ("b.c", *second)];
        assert_words(&rt, alloc, &words, &texts, wanted(5, "", err.as_str()))?;
    }
    for (first, second, out) in LINKED {
        let words = ["world", "--threads", "w", "a.c", "b.c"];
        let texts = [("a.c", *first), ("b.c", *second)];
        assert_words(&rt, alloc, &words, &texts, wanted(0, out, ""))?;
    }
    Ok(())
}

// A module of so many locks, and a function of a thread.
fn locks(alloc: Global, count: u32) -> Result<String, AllocError> {
    let mut text = String::from_str(alloc, "void w(int me) { }")?;
    for number in 0..count {
        let lock = format!(in alloc; " lock l{number};")?;
        text.push_str(lock.as_str())?;
    }
    Ok(text)
}

#[test]
fn locks_are_counted(rt: HostRuntime) -> Result<(), Fail> {
    let alloc = rt.alloc();
    let few = locks(alloc, 256)?;
    let ended = wanted(0, "thread 0 ended\n", "");
    assert_words(&rt, alloc, WORLD, &[("m.c", few.as_str())], ended)?;
    let many = locks(alloc, 257)?;
    let refused = wanted(5, "", "cascc: L5 locks 257\n");
    assert_words(&rt, alloc, WORLD, &[("m.c", many.as_str())], refused)?;
    Ok(())
}

#[test]
fn worlds_have_checked_modules(rt: HostRuntime) -> Result<(), Fail> {
    let alloc = rt.alloc();
    let rows = [
        (TALK, "@", wanted(1, "", "b.c:1:1: R1\n")),
        ("lock", TALK, wanted(1, "", "a.c:1:5: R6\n")),
        (TALK, "lock K; lock K;", wanted(1, "", "b.c:1:14: T2 K\n")),
        (
            TALK,
            "lock K; void w(int a) { lock(K); }",
            wanted(1, "", "b.c:1:34: O5 K\n"),
        ),
        (
            "lock K; void v(int a) { lock(K); }",
            "@",
            wanted(1, "", "a.c:1:34: O5 K\n"),
        ),
    ];
    for (first, second, answer) in rows {
        let texts = [("a.c", first), ("b.c", second)];
        let words = ["world", "a.c", "b.c", "--threads", "w"];
        assert_words(&rt, alloc, &words, &texts, answer)?;
    }
    let texts = [
        ("-a", "int f(int a) { return 1 / a; }"),
        ("b c", "int f(int a); void w(int me) { me = f(me); }"),
    ];
    let words = ["world", "--threads=w", "--", "-a", "b c"];
    let bad = wanted(0, "thread 0 bad division by zero -a:1:16\n", "");
    assert_words(&rt, alloc, &words, &texts, bad)?;
    Ok(())
}

// `world a.c b.c --threads w` with this text of `b.c`, where these reads, puts on `out` and puts on `err` fail.
fn assert_failing<R: Abort + Threads + Sync>(
    rt: &R,
    alloc: Global,
    text: &str,
    failing: [&[u64]; 3],
    wanted: Answer,
) -> Result<(), AllocError> {
    let [reads, outs, errs] = failing;
    let given = Given {
        words: &["world", "a.c", "b.c", "--threads", "w"],
        texts: &[("a.c", "lock K;"), ("b.c", text)],
        reads,
        outs,
        errs,
    };
    assert_answer(rt, alloc, given, wanted)
}

#[test]
fn lines_of_worlds_are_put_one_by_one(rt: HostRuntime) -> Result<(), Fail> {
    let alloc = rt.alloc();
    let whole = wanted(0, "0 1\n0 2\n0 3\nthread 0 ended\n", "");
    assert_failing(&rt, alloc, SPEAK, [&[3], &[5], &[1]], whole)?;
    assert_failing(
        &rt,
        alloc,
        SPEAK,
        [&[], &[1], &[2]],
        wanted(4, "", CANNOT_WRITE),
    )?;
    let most = wanted(4, "0 1\n0 2\n0 3\n", CANNOT_WRITE);
    assert_failing(&rt, alloc, SPEAK, [&[], &[4], &[2]], most)?;
    let unread = wanted(3, "", "cascc: cannot read b.c\n");
    assert_failing(&rt, alloc, "@", [&[2], &[1], &[2]], unread)?;
    let refused = wanted(5, "", "cascc: L2 K\n");
    assert_failing(&rt, alloc, "lock K;", [&[3], &[1], &[2]], refused)?;
    assert_failing(&rt, alloc, "lock K;", [&[], &[], &[1]], wanted(4, "", ""))?;
    let too_long = repeated(alloc, " ", 1_048_577)?;
    let long = wanted(12, "", "cascc: too long b.c\n");
    assert_failing(&rt, alloc, too_long.as_str(), [&[3], &[1], &[2]], long)?;
    Ok(())
}
