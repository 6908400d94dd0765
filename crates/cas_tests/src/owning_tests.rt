//! What `check` and `run` answer of modules whose ownership has a fault, and of modules that are checked. The wanted
//! places and locks are those of the rules of ownership (`docs/LANGUAGE.md`).

use crate::calls::{
    Answer, CANNOT_WRITE, Given, REFUSED, SUM, assert_answer, assert_module, assert_words,
    repeated, wanted,
};
use std::alloc::{AllocError, Global};
use std::process::Abort;
use std::test::Fail;
use std::thread::Threads;

// Two locks, and a global that each guards: the first line of most modules here.
const TWO: &str = "lock L; lock M; shared(L) int g; shared(M) int h;\n";

// Shared globals that are named where their lock isn't held: in values, targets, conditions, arguments, indices and
// returned values, in each part of a loop, and after a lock is released. Each is the body of `w`, after `TWO`.
const NAMES: &[(&str, &str)] = &[
    ("print(g);", "2:24: O1 L"),
    ("me = 1 + h;", "2:27: O1 M"),
    ("int x = g;", "2:26: O1 L"),
    ("me += g;", "2:24: O1 L"),
    ("print(me && g);", "2:30: O1 L"),
    ("print(me ? 1 : g);", "2:33: O1 L"),
    ("g = 1;", "2:18: O1 L"),
    ("g += me;", "2:18: O1 L"),
    ("g++;", "2:18: O1 L"),
    ("g = h;", "2:18: O1 L"),
    ("print(h + g);", "2:24: O1 M"),
    ("lock(L); g = h; unlock(L);", "2:31: O1 M"),
    ("lock(M); print(g); unlock(M);", "2:33: O1 L"),
    ("lock(L); unlock(L); print(g);", "2:44: O1 L"),
    (
        "lock(L); if (me) { unlock(L); return; } unlock(L); g = 1;",
        "2:69: O1 L",
    ),
    ("int *p; p = &me; *p = g;", "2:40: O1 L"),
    ("int a[2]; a[h] = g;", "2:30: O1 M"),
    ("int a[2]; print(a[g]);", "2:36: O1 L"),
    ("if (g) { print(1); }", "2:22: O1 L"),
    ("while (h) { lock(L); }", "2:25: O1 M"),
    ("for (me = g; h; me++) { }", "2:28: O1 L"),
    ("for (me = 0; h; me = g) { }", "2:31: O1 M"),
    ("for (me = 0; me; me = g) { }", "2:40: O1 L"),
    ("for (; me; me = g) { return; }", "2:34: O1 L"),
    ("for (; me; me = g) { h = 1; }", "2:39: O1 M"),
    ("for (; me; g += 1) { break; }", "2:29: O1 L"),
    ("do { print(1); } while (g);", "2:42: O1 L"),
    ("do { return; } while (g);", "2:40: O1 L"),
    ("do { break; } while (h);", "2:39: O1 M"),
    ("do { lock(L); g = 1; unlock(L); } while (g);", "2:59: O1 L"),
    ("{ { int g; g = 1; } g = 1; }", "2:38: O1 L"),
];

// The same in other functions. Each text comes after `TWO`.
const NAMES_ELSEWHERE: &[(&str, &str)] = &[
    ("void f(int a);\nvoid w(int me) { f(g); }", "3:20: O1 L"),
    (
        "int f(int a, int b);\nvoid w(int me) { me = f(1, h); }",
        "3:28: O1 M",
    ),
    (
        "shared(L) int a[2]; const int t[2];\nvoid w(int me) { print(t[0] + a[t[1]]); }",
        "3:31: O1 L",
    ),
    (
        "shared(L) int a[2];\nvoid w(int me) { lock(L); a[h] = 1; unlock(L); }",
        "3:29: O1 M",
    ),
    (
        "shared(L) int a[2];\nvoid w(int me) { a[h] = 1; }",
        "3:18: O1 L",
    ),
    ("int f(void) { return g; }", "2:22: O1 L"),
    (
        "int f(void) holds(L) { g = 1; return g + h; }",
        "2:42: O1 M",
    ),
    ("void f(int a) holds(M) { h = a; g = 1; }", "2:33: O1 L"),
];

// Calls where a lock of the called function's `holds` isn't held: the first of them is reported, and names in arguments
// come first. Each text comes after `TWO`.
const CALLS: &[(&str, &str)] = &[
    (
        "void f(void) holds(L);\nvoid w(int me) { f(); }",
        "3:18: O2 L",
    ),
    (
        "int f(void) holds(L);\nvoid w(int me) { me = f(); }",
        "3:23: O2 L",
    ),
    (
        "int f(void) holds(M);\nvoid w(int me) { int x = f(); }",
        "3:26: O2 M",
    ),
    (
        "void f(void) holds(M, L);\nvoid w(int me) { f(); }",
        "3:18: O2 M",
    ),
    (
        "void f(void) holds(M, L);\nvoid w(int me) { lock(M); f(); unlock(M); }",
        "3:27: O2 L",
    ),
    (
        "void f(void) holds(M, L);\nvoid w(int me) { lock(L); f(); unlock(L); }",
        "3:27: O2 M",
    ),
    (
        "void f(void) holds(M, L); void f(void) holds(L, M) { }\nvoid w(int me) { f(); }",
        "3:18: O2 M",
    ),
    (
        "void f(void) holds(L) { }\nvoid w(int me) { lock(L); f(); unlock(L); f(); }",
        "3:43: O2 L",
    ),
    (
        "void f(void) holds(L, M); void f(void) holds(L, M) { f(); }\nvoid w(int me) { f(); }",
        "3:18: O2 L",
    ),
    (
        "void f(void) holds(L) { } void k(void) holds(M) { f(); }",
        "2:51: O2 L",
    ),
    (
        "void f(int a) holds(M);\nvoid w(int me) { f(g); }",
        "3:20: O1 L",
    ),
    (
        "int f(int a) holds(M);\nvoid w(int me) { me = f(g); }",
        "3:25: O1 L",
    ),
];

// Branches that both continue, with different locks. Each is the body of `w`, after `TWO`.
const BRANCHES: &[(&str, &str)] = &[
    (
        "lock(L); if (me) { unlock(L); } print(1); unlock(L);",
        "2:27: O3 L",
    ),
    ("if (me) { lock(M); }", "2:18: O3 M"),
    ("if (me) lock(M); else lock(L);", "2:18: O3 L"),
    ("if (me) { lock(L); lock(M); } else lock(L);", "2:18: O3 M"),
    (
        "lock(M); if (me) ; else { unlock(M); lock(L); }",
        "2:27: O3 L",
    ),
    (
        "if (me) { lock(L); if (me) unlock(L); } else { lock(M); }",
        "2:37: O3 L",
    ),
    (
        "if (me) { return; } else { if (me) lock(M); }",
        "2:45: O3 M",
    ),
    (
        "while (me) { if (me) { lock(L); } unlock(L); }",
        "2:31: O3 L",
    ),
];

// The same in other functions. Each text comes after `TWO`.
const BRANCHES_ELSEWHERE: &[(&str, &str)] = &[(
    "void f(int a) holds(M) { if (a) { unlock(M); } }",
    "2:26: O3 M",
)];

// Ways back to the head of a loop, or out of it, with other locks than at its head. Each is the body of `w`, after
// `TWO`.
const LOOPS: &[(&str, &str)] = &[
    ("while (me) { lock(L); }", "2:18: O4 L"),
    ("do { lock(L); } while (me);", "2:18: O4 L"),
    ("for (; me; ) { lock(M); }", "2:18: O4 M"),
    ("while (me) { lock(L); break; }", "2:18: O4 L"),
    ("while (me) { lock(L); continue; }", "2:18: O4 L"),
    ("do { lock(L); break; } while (me);", "2:18: O4 L"),
    ("for (; me; me--) { lock(L); continue; }", "2:18: O4 L"),
    ("while (1) { lock(L); break; } unlock(L);", "2:18: O4 L"),
    ("lock(L); while (me) { unlock(L); }", "2:27: O4 L"),
    ("lock(L); for (;;) { unlock(L); break; }", "2:27: O4 L"),
    ("while (me) { lock(M); lock(L); }", "2:18: O4 L"),
    ("lock(L); while (me) { unlock(L); lock(M); }", "2:27: O4 L"),
    (
        "while (me) { while (me) { lock(L); break; } }",
        "2:31: O4 L",
    ),
    (
        "while (me) { while (me) { } lock(M); break; }",
        "2:18: O4 M",
    ),
    (
        "lock(L); while (me) { while (me) { break; } unlock(L); continue; }",
        "2:27: O4 L",
    ),
    (
        "while (me) { do { lock(L); unlock(L); continue; } while (me); lock(M); }",
        "2:18: O4 M",
    ),
    (
        "while (me) { if (me) { lock(L); continue; } else { break; } }",
        "2:18: O4 L",
    ),
    (
        "while (me) { if (me) { lock(L); break; } lock(L); unlock(L); }",
        "2:18: O4 L",
    ),
];

// Returns and ends of bodies with other locks than the caller holds. Each is the body of `w`, after `TWO`.
const ENDS: &[(&str, &str)] = &[
    ("lock(L); return;", "2:27: O5 L"),
    ("if (me) { lock(M); return; }", "2:37: O5 M"),
    ("while (me) { lock(L); return; }", "2:40: O5 L"),
    ("lock(M); lock(L); return;", "2:36: O5 L"),
    ("lock(L);", "2:27: O5 L"),
    ("if (me) { return; } lock(M);", "2:47: O5 M"),
];

// The same in other functions. Each text comes after `TWO`.
const ENDS_ELSEWHERE: &[(&str, &str)] = &[
    ("void f(void) holds(L) { unlock(L); }", "2:36: O5 L"),
    (
        "int f(void) holds(L) { unlock(L); return 1; }",
        "2:35: O5 L",
    ),
    ("void f(void) holds(L) { lock(M); return; }", "2:34: O5 M"),
    (
        "void f(void) holds(M) { lock(L); unlock(M); }",
        "2:45: O5 L",
    ),
    ("void f(void) holds(L, M) { unlock(M); }", "2:39: O5 M"),
    ("int f(void) { lock(L); return h; }", "2:31: O1 M"),
];

// Locks that are taken while they are held, or released while they aren't. Each is the body of `w`, after `TWO`.
const LOCKS: &[(&str, &str)] = &[
    ("lock(L); lock(L);", "2:27: O6 L"),
    ("lock(L); lock(M); lock(M);", "2:36: O6 M"),
    ("unlock(L);", "2:18: O7 L"),
    ("lock(L); unlock(M);", "2:27: O7 M"),
    ("lock(L); unlock(L); unlock(L);", "2:38: O7 L"),
    ("while (me) { unlock(M); }", "2:31: O7 M"),
    ("if (me) { return; } unlock(L);", "2:38: O7 L"),
];

// The same in other functions. Each text comes after `TWO`.
const LOCKS_ELSEWHERE: &[(&str, &str)] = &[
    ("void f(void) holds(L) { lock(L); }", "2:25: O6 L"),
    (
        "void f(void) holds(L) { unlock(L); lock(L); unlock(M); }",
        "2:45: O7 M",
    ),
];

// Guards that are no locks declared before.
const GUARDS: &[(&str, &str)] = &[
    ("shared(X) int g;", "1:15: O8 X"),
    ("extern shared(X) int g;", "1:22: O8 X"),
    ("shared(L) int g; lock L;", "1:15: O8 L"),
    ("void f(void); shared(f) int g;", "1:29: O8 f"),
    ("const int k; shared(k) char a[2];", "1:29: O8 k"),
    ("lock L; shared(L) int g; shared(g) int h;", "1:40: O8 g"),
    (
        "lock L; shared(L) int g; shared(Lock) int h = 1;",
        "1:43: O8 Lock",
    ),
    (
        "lock L;\nvoid w(int me) { lock(L); } shared(X) int g;",
        "2:27: O5 L",
    ),
    (
        "lock L; shared(X) int g;\nvoid w(int me) { lock(L); }",
        "1:23: O8 X",
    ),
];

// Several faults in one module: the first that the check meets is reported. Each is the body of `w`, after `TWO`.
const ORDER: &[(&str, &str)] = &[
    ("print(g); lock(L); lock(L);", "2:24: O1 L"),
    ("if (g) { unlock(L); }", "2:22: O1 L"),
    ("if (me) { unlock(M); } else { unlock(L); }", "2:28: O7 M"),
    ("if (me) { lock(L); } else { unlock(M); }", "2:46: O7 M"),
    ("while (me) { lock(L); unlock(M); }", "2:40: O7 M"),
    (
        "while (me) { lock(L); if (me) continue; g = 1; h = 1; }",
        "2:18: O4 L",
    ),
    ("while (me) { lock(L); h = 1; }", "2:40: O1 M"),
    ("do { unlock(L); } while (g);", "2:23: O7 L"),
    ("for (g = 1; h; me = 1) { unlock(L); }", "2:23: O1 L"),
    ("for (; h; g = 1) { unlock(L); }", "2:25: O1 M"),
    ("for (; me; g = 1) { unlock(L); }", "2:38: O7 L"),
    ("for (; me; g = 1) { lock(L); }", "2:18: O4 L"),
];

// The same in other functions. Each text comes after `TWO`.
const ORDER_ELSEWHERE: &[(&str, &str)] = &[
    (
        "void f(void) { g = 1; } void w(int me) { h = 1; }",
        "2:16: O1 L",
    ),
    (
        "void f(void); void w(int me) { h = 1; } void f(void) { g = 1; }",
        "2:32: O1 M",
    ),
];

// Modules that are checked. Each text comes after `TWO`.
const CHECKED: &[&str] = &[
    "",
    "void w(int me) { lock(L); g = me; unlock(L); lock(M); h += me; unlock(M); print(me); }",
    "void w(int me) { lock(M); lock(L); g = h; unlock(M); g++; unlock(L); }",
    "void f(int a) holds(L, M) { g = a; h = g; } void w(int me) { lock(M); lock(L); f(me + h); unlock(L); unlock(M); }",
    "int f(void) holds(L) { unlock(L); lock(M); h = 1; unlock(M); lock(L); return g; }",
    "void f(void) { lock(L); unlock(L); } void w(int me) { lock(L); f(); g = 1; unlock(L); }",
    "void w(int me) { lock(L); if (me) { g = 1; unlock(L); return; } g = 2; unlock(L); }",
    "void w(int me) { lock(L); if (me) { unlock(L); } else { g = 1; unlock(L); } }",
    "void w(int me) { if (me) { return; } else { lock(L); } g = 1; unlock(L); }",
    "void w(int me) { return; g = 1; unlock(M); }",
    "void w(int me) { if (me) { return; } else { return; } g = 1; }",
    "void w(int me) { while (me) { lock(L); if (g) { unlock(L); break; } g = 1; unlock(L); continue; h = 1; } }",
    "void w(int me) { lock(L); while (g) { g -= 1; if (g == 3) continue; if (g == 4) break; } unlock(L); }",
    "void w(int me) { lock(L); do { unlock(L); lock(M); h = 1; unlock(M); lock(L); } while (g); unlock(L); }",
    "void w(int me) { lock(L); for (g = 0; g < 9; g++) { print(g); } unlock(L); }",
    "void w(int me) { for (;;) { while (1) { lock(M); unlock(M); break; } lock(L); g = 1; unlock(L); } }",
    "void w(int me) { int g; int *p; p = &g; g = 1; *p = 2; { int h = g; print(h); } }",
    "const int t[2] = { 1, 2 }; void w(int me) { print(t[me & 1]); { lock(L); } g = t[0]; { unlock(L); } }",
];

const CHECK: &[&str] = &["check", "m.c"];

// `check` and `run` of `m.c` with this text both report this fault, which begins with its line and column.
fn assert_fault<R: Abort + Threads + Sync>(
    rt: &R,
    alloc: Global,
    text: &str,
    fault: &str,
) -> Result<(), AllocError> {
    let line = format!(in alloc; "m.c:{fault}\n")?;
    let refused = wanted(1, "", line.as_str());
    assert_words(rt, alloc, CHECK, &[("m.c", text)], refused)?;
    assert_module(rt, alloc, text, refused)
}

// Each text, with these lines before it, has its fault.
fn assert_faults<R: Abort + Threads + Sync>(
    rt: &R,
    alloc: Global,
    before: &str,
    rows: &[(&str, &str)],
) -> Result<(), AllocError> {
    for (text, fault) in rows {
        let whole = format!(in alloc; "{before}{text}")?;
        assert_fault(rt, alloc, whole.as_str(), fault)?;
    }
    Ok(())
}

// The same of each text, as the body of `w` after `TWO`.
fn assert_bodies<R: Abort + Threads + Sync>(
    rt: &R,
    alloc: Global,
    rows: &[(&str, &str)],
) -> Result<(), AllocError> {
    for (body, fault) in rows {
        let whole = format!(in alloc; "{TWO}void w(int me) {{ {body} }}")?;
        assert_fault(rt, alloc, whole.as_str(), fault)?;
    }
    Ok(())
}

// Each call that may run out of memory, once with ample memory: it gives another answer.
#[test]
fn always_out_of_memory(rt: HostRuntime) -> Result<(), Fail> {
    let alloc = rt.alloc();
    let whole = format!(in alloc; "{TWO}void w(int me) {{ lock(L); g = me; unlock(L); }}")?;
    let texts = [("m.c", whole.as_str())];
    assert_words(&rt, alloc, CHECK, &texts, wanted(0, "m.c ok\n", ""))?;
    let refused = "lock L; shared(L) int g;\nvoid w(int me) { print(g); }";
    assert_fault(&rt, alloc, refused, "2:24: O1 L")?;
    Ok(())
}

#[test]
fn faults_of_ownership_are_reported(rt: HostRuntime) -> Result<(), Fail> {
    let alloc = rt.alloc();
    for bodies in [NAMES, BRANCHES, LOOPS, ENDS, LOCKS, ORDER] {
        assert_bodies(&rt, alloc, bodies)?;
    }
    assert_faults(&rt, alloc, TWO, NAMES_ELSEWHERE)?;
    assert_faults(&rt, alloc, TWO, CALLS)?;
    assert_faults(&rt, alloc, TWO, BRANCHES_ELSEWHERE)?;
    assert_faults(&rt, alloc, TWO, ENDS_ELSEWHERE)?;
    assert_faults(&rt, alloc, TWO, LOCKS_ELSEWHERE)?;
    assert_faults(&rt, alloc, TWO, ORDER_ELSEWHERE)?;
    assert_faults(&rt, alloc, "", GUARDS)?;
    Ok(())
}

#[test]
fn first_lines_with_one_lock(rt: HostRuntime) -> Result<(), Fail> {
    let alloc = rt.alloc();
    let rows = [
        (
            "void w(int me) { lock(L); if (me) { unlock(L); } print(1); unlock(L); }",
            "2:27: O3 L",
        ),
        ("void w(int me) { while (me) { lock(L); } }", "2:18: O4 L"),
        ("void w(int me) { lock(L); return; }", "2:27: O5 L"),
    ];
    assert_faults(&rt, alloc, "lock L;\n", &rows)?;
    Ok(())
}

#[test]
fn checked_modules_have_their_line(rt: HostRuntime) -> Result<(), Fail> {
    let alloc = rt.alloc();
    for text in CHECKED {
        let whole = format!(in alloc; "{TWO}{text}")?;
        let texts = [("m.c", whole.as_str())];
        assert_words(&rt, alloc, CHECK, &texts, wanted(0, "m.c ok\n", ""))?;
        assert_module(&rt, alloc, whole.as_str(), wanted(1, "", REFUSED))?;
    }
    let longest = repeated(alloc, " ", 1_048_576)?;
    let too_long = repeated(alloc, " ", 1_048_577)?;
    let rows = [
        ("", wanted(0, "m.c ok\n", "")),
        (SUM, wanted(0, "m.c ok\n", "")),
        (longest.as_str(), wanted(0, "m.c ok\n", "")),
        (too_long.as_str(), wanted(12, "", "cascc: too long m.c\n")),
        ("void w(int me) {", wanted(1, "", "m.c:1:17: R6\n")),
        (
            "void w(int me) { x = 1; }",
            wanted(1, "", "m.c:1:18: T1 x\n"),
        ),
    ];
    for (text, answer) in rows {
        assert_words(&rt, alloc, CHECK, &[("m.c", text)], answer)?;
    }
    Ok(())
}

const BUMPS: &str =
    "lock L; shared(L) int count; void bump(void) { lock(L); count += 1; unlock(L); }";

const COUNTS: &str =
    "extern lock L; extern shared(L) int count; void bump(void); void w(int me) { int i; for (i = 0; i < 1000; i++) { bump(); } lock(L); print(count); unlock(L); }";

// The caller is to hold L, and does.
const HELD: &str = "lock L; shared(L) int count; void bump(void) holds(L) { count += 1; }";

const HOLDS: &str =
    "extern lock L; void bump(void) holds(L); void w(int me) { lock(L); bump(); unlock(L); }";

// The caller is to hold L, and doesn't.
const FORGETS: &str = "extern lock L; void bump(void) holds(L);\nvoid w(int me) { bump(); }";

const TWO_NAMES: &[&str] = &["check", "a.c", "b.c"];

#[test]
fn modules_are_checked_in_order(rt: HostRuntime) -> Result<(), Fail> {
    let alloc = rt.alloc();
    let two_lines = wanted(0, "a.c ok\nb.c ok\n", "");
    let rows = [
        (BUMPS, COUNTS, two_lines),
        (HELD, HOLDS, two_lines),
        (HELD, FORGETS, wanted(1, "", "b.c:2:18: O2 L\n")),
        (FORGETS, HELD, wanted(1, "", "a.c:2:18: O2 L\n")),
        (FORGETS, "x", wanted(1, "", "a.c:2:18: O2 L\n")),
        (
            "lock L; shared(M) int g;",
            "@",
            wanted(1, "", "a.c:1:23: O8 M\n"),
        ),
        (
            "lock K; lock K;",
            FORGETS,
            wanted(1, "", "a.c:1:14: T2 K\n"),
        ),
        (BUMPS, "lock K; lock K;", wanted(1, "", "b.c:1:14: T2 K\n")),
        (BUMPS, "lock", wanted(1, "", "b.c:1:5: R6\n")),
        // Names aren't looked for in the other module, nor are two definitions seen.
        (
            HELD,
            "void w(int me) { bump(); }",
            wanted(1, "", "b.c:1:18: T1 bump\n"),
        ),
        (HELD, HELD, two_lines),
    ];
    for (first, second, answer) in rows {
        let texts = [("a.c", first), ("b.c", second)];
        assert_words(&rt, alloc, TWO_NAMES, &texts, answer)?;
    }
    Ok(())
}

#[test]
fn names_are_printed_as_they_are_given(rt: HostRuntime) -> Result<(), Fail> {
    let alloc = rt.alloc();
    let texts = [("a.c", ""), ("-b", SUM), ("c d", FORGETS)];
    let rows: [(&[&str], Answer<'_>); 5] = [
        (
            &["check", "--", "a.c", "-b"],
            wanted(0, "a.c ok\n-b ok\n", ""),
        ),
        (&["check", "a.c", "a.c"], wanted(0, "a.c ok\na.c ok\n", "")),
        (&["check", "a.c", "c d"], wanted(1, "", "c d:2:18: O2 L\n")),
        (&["check"], wanted(2, "", "cascc: usage\n")),
        (&["check", "-b"], wanted(2, "", "cascc: usage\n")),
    ];
    for (words, answer) in rows {
        assert_words(&rt, alloc, words, &texts, answer)?;
    }
    Ok(())
}

// `check a.c b.c` with these texts, where these reads, puts on `out` and puts on `err` fail.
fn assert_failing<R: Abort + Threads + Sync>(
    rt: &R,
    alloc: Global,
    (first, second): (&str, &str),
    failing: [&[u64]; 3],
    wanted: Answer,
) -> Result<(), AllocError> {
    let texts = [("a.c", first), ("b.c", second)];
    let [reads, outs, errs] = failing;
    let given = Given {
        words: TWO_NAMES,
        texts: &texts,
        reads,
        outs,
        errs,
    };
    assert_answer(rt, alloc, given, wanted)
}

#[test]
fn texts_are_read_before_modules(rt: HostRuntime) -> Result<(), Fail> {
    let alloc = rt.alloc();
    let too_long = repeated(alloc, " ", 1_048_577)?;
    let cannot_read = wanted(3, "", "cascc: cannot read b.c\n");
    assert_failing(&rt, alloc, (FORGETS, HELD), [&[2], &[], &[]], cannot_read)?;
    assert_failing(&rt, alloc, ("@", HELD), [&[2, 3], &[], &[2]], cannot_read)?;
    assert_failing(&rt, alloc, (HELD, ""), [&[2], &[], &[1]], wanted(4, "", ""))?;
    let long = wanted(12, "", "cascc: too long b.c\n");
    assert_failing(
        &rt,
        alloc,
        (FORGETS, too_long.as_str()),
        [&[3], &[1], &[2]],
        long,
    )?;
    let first_long = wanted(12, "", "cascc: too long a.c\n");
    assert_failing(
        &rt,
        alloc,
        (too_long.as_str(), ""),
        [&[2], &[1], &[2]],
        first_long,
    )?;
    let missing = wanted(3, "", "cascc: cannot read c.c\n");
    let words = ["check", "a.c", "c.c", "d.c"];
    assert_words(&rt, alloc, &words, &[("a.c", FORGETS)], missing)?;
    Ok(())
}

#[test]
fn lines_are_put_one_by_one(rt: HostRuntime) -> Result<(), Fail> {
    let alloc = rt.alloc();
    let texts = (HELD, HOLDS);
    let none = wanted(4, "", CANNOT_WRITE);
    assert_failing(&rt, alloc, texts, [&[], &[1], &[2]], none)?;
    let one = wanted(4, "a.c ok\n", CANNOT_WRITE);
    assert_failing(&rt, alloc, texts, [&[], &[2], &[2]], one)?;
    let untold = wanted(4, "a.c ok\n", "");
    assert_failing(&rt, alloc, texts, [&[], &[2], &[1]], untold)?;
    let both = wanted(0, "a.c ok\nb.c ok\n", "");
    assert_failing(&rt, alloc, texts, [&[3], &[3], &[1]], both)?;
    let refused = wanted(1, "", "b.c:2:18: O2 L\n");
    assert_failing(&rt, alloc, (HELD, FORGETS), [&[3], &[1], &[2]], refused)?;
    assert_failing(
        &rt,
        alloc,
        (HELD, FORGETS),
        [&[], &[], &[1]],
        wanted(4, "", ""),
    )?;
    Ok(())
}
