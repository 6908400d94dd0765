//! What `run` answers of modules that aren't typed, and of modules that are. The wanted places are those of the
//! rules of types (`docs/LANGUAGE.md`).

use crate::calls::{REFUSED, assert_module, repeated, wanted};
use std::alloc::{AllocError, Global};
use std::process::Abort;
use std::test::Fail;
use std::thread::Threads;

// Names that aren't declared, are declared twice, or are a global or a pointer where none may be. Each is the body
// of `w`.
const NAMES: &[(&str, &str)] = &[
    ("x = 1;", "1:18: T1 x"),
    ("me = me + x;", "1:28: T1 x"),
    ("lock(L);", "1:23: T1 L"),
    ("unlock(L);", "1:25: T1 L"),
    ("f();", "1:18: T1 f"),
    ("me = f();", "1:23: T1 f"),
    ("{ int x; } x = 1;", "1:29: T1 x"),
    ("for (int i = 0; i < 1; i++) ; i = 1;", "1:48: T1 i"),
    ("int x = y; int y;", "1:26: T1 y"),
    ("int x; int x;", "1:29: T2 x"),
    ("int me;", "1:22: T2 me"),
    ("{ int x; int x; }", "1:31: T2 x"),
    ("int *p; int *q; q = &p;", "1:39: T6 p"),
];

// The same in other modules.
const NAMES_ELSEWHERE: &[(&str, &str)] = &[
    ("void f(int a) { } void w(int me) { a = 1; }", "1:36: T1 a"),
    ("void w(int me) { v(); } void v(void) { }", "1:18: T1 v"),
    ("void f(void) holds(L);", "1:20: T1 L"),
    ("void f(void) holds(f);", "1:20: T1 f"),
    ("lock L; lock L;", "1:14: T2 L"),
    ("void f(void) { } void f(void) { }", "1:23: T2 f"),
    ("void f(int a, int a) { }", "1:19: T2 a"),
    ("lock L; void f(void) holds(L, L);", "1:31: T2 L"),
    (
        "lock L; shared(L) int g;\nvoid w(int me) { int *p; p = &g; }",
        "2:31: T6 g",
    ),
    (
        "lock L; shared(L) int a[2]; void w(int me) { int *p; p = &a[0]; }",
        "1:59: T6 a",
    ),
    (
        "const int k; void w(int me) { int *p; p = &k; }",
        "1:44: T6 k",
    ),
    (
        "lock L; shared(L) int a[2]; void w(int me) { print(a); }",
        "1:52: T6 a",
    ),
    (
        "const int t[2]; void w(int me) { me = 1 + t; }",
        "1:43: T6 t",
    ),
    (
        "lock L; shared(L) int a[2]; void w(int me) { a = 0; }",
        "1:46: T6 a",
    ),
];

// Types that don't fit, in statements and in declarations. Each is the body of `w`.
const TYPES: &[(&str, &str)] = &[
    ("int *p; me = p;", "1:26: T3"),
    ("int *p; print(p);", "1:26: T3"),
    ("int *p; p = 1;", "1:26: T3"),
    ("int *p; p = 0u;", "1:26: T3"),
    ("int *p; char *q; p = q;", "1:35: T3"),
    ("int *p; char *q; print(p == q);", "1:35: T3"),
    ("int *p; char *q; print(p - q);", "1:35: T3"),
    ("int *p; p = p + p;", "1:26: T3"),
    ("int *p; p = 1 - p;", "1:26: T3"),
    ("int *p; print(p < 0);", "1:26: T3"),
    ("int *p; print(p == 1);", "1:26: T3"),
    ("int *p; print(p * 2);", "1:26: T3"),
    ("int *p; print(p << 1);", "1:26: T3"),
    ("int *p; print(-p);", "1:26: T3"),
    ("int *p; print((int) p);", "1:26: T3"),
    ("int *p; print(me ? p : 1);", "1:26: T3"),
    ("int *p; char *q; p = me ? p : q;", "1:35: T3"),
    ("print(*me);", "1:18: T3"),
    ("print(me[0]);", "1:18: T3"),
    ("int a[2]; int *p; print(a[p]);", "1:36: T3"),
    ("int *p; p = 0; while (w) ;", "1:33: T3"),
    ("return 1;", "1:18: T3"),
    ("lock(me);", "1:18: T3"),
    ("me();", "1:18: T3"),
    ("int a[0];", "1:22: T3"),
    ("int a[2]; int *p; p = &a;", "1:36: T3"),
    ("int *p; p += p;", "1:26: T3"),
];

// The same in other modules.
const TYPES_ELSEWHERE: &[(&str, &str)] = &[
    ("int *f(void) { return 1; }", "1:16: T3"),
    ("void f(void) { } void w(int me) { me = f(); }", "1:35: T3"),
    (
        "int *f(void) { return; } void w(int me) { char *p; p = f(); }",
        "1:52: T3",
    ),
    ("void f(int *p) { } void w(int me) { f(me); }", "1:37: T3"),
    ("void f(void) { } void w(int me) { me = f; }", "1:35: T3"),
    ("lock L; void w(int me) { print(L); }", "1:26: T3"),
    ("const int t[0];", "1:11: T3 t"),
    ("const int t[1] = { 1, 2 };", "1:11: T3 t"),
    ("lock L; shared(L) int a[1] = { 7, 8 };", "1:23: T3 a"),
    ("void f(int a); int f(int a) { return a; }", "1:20: T3 f"),
    ("void f(int a); void f(unsigned a) { }", "1:21: T3 f"),
    (
        "lock L; lock M; void f(void) holds(L); void f(void) holds(M) { }",
        "1:45: T3 f",
    ),
    ("extern lock L; extern const int L;", "1:33: T3 L"),
    (
        "lock L; lock M; shared(L) int g; extern shared(M) int g;",
        "1:55: T3 g",
    ),
    ("void f(void); void g(void) holds(f);", "1:20: T3 g"),
    ("lock L; void w(int me) { int *p; p = &L; }", "1:34: T3"),
    (
        "void f(void); void w(int me) { int *p; p = &f; }",
        "1:40: T3",
    ),
];

// Calls with a wrong number of arguments, targets that can't be written, and `break` and `continue` outside loops.
// Each is the body of `w`.
const OTHERS: &[(&str, &str)] = &[
    ("int a[2]; a = 0;", "1:28: T5"),
    ("*me = 1;", "1:18: T5"),
    ("me[0] = 1;", "1:18: T5"),
    ("break;", "1:18: T7"),
    ("continue;", "1:18: T7"),
    ("if (me) break; else while (me) break;", "1:26: T7"),
    ("while (me) { } continue;", "1:33: T7"),
];

// The same in other modules.
const OTHERS_ELSEWHERE: &[(&str, &str)] = &[
    ("void f(int a) { } void w(int me) { f(); }", "1:36: T4 f"),
    (
        "void f(int a) { } void w(int me) { f(1, 2); }",
        "1:36: T4 f",
    ),
    ("const int t[1];\nvoid w(int me) { t[0] = 1; }", "2:18: T5"),
    ("const int k = 1; void w(int me) { k = 2; }", "1:35: T5"),
    ("void f(void) { } void w(int me) { f = 1; }", "1:35: T5"),
    (
        "lock L; shared(L) int g; int f(void) { return 1; } void w(int me) { g = f(); }",
        "1:69: T5",
    ),
    (
        "int f(void) { return 1; } void w(int me) { int a[1]; a = f(); }",
        "1:54: T5",
    ),
];

// Two causes in one module: the first is reported. Each is the body of `w`.
const ORDER: &[(&str, &str)] = &[
    ("x = 1; int me;", "1:18: T1 x"),
    ("int me; x = 1;", "1:22: T2 me"),
    ("int *p; *p = *me + x;", "1:37: T1 x"),
    ("if (x) { me = y; } else z = 1;", "1:22: T1 x"),
    ("do { me = y; } while (x);", "1:28: T1 y"),
    ("for (; x; me = z) { y = 1; }", "1:25: T1 x"),
    ("for (; me; me = z) { y = 1; }", "1:34: T1 z"),
];

// The same in other modules.
const ORDER_ELSEWHERE: &[(&str, &str)] = &[
    (
        "lock L; shared(L) int a[2]; void w(int me) { print(x + a); }",
        "1:52: T1 x",
    ),
    (
        "lock L; shared(L) int a[2]; void w(int me) { print(a + x); }",
        "1:52: T6 a",
    ),
    (
        "const int t[1]; void w(int me) { int *p; t[0] = p; }",
        "1:42: T5",
    ),
    (
        "void f(int *p) { } void w(int me) { me = f(); }",
        "1:42: T4 f",
    ),
    (
        "lock L; shared(L) int g; int f(void) { return 1; } void w(int me) { g = f(1); }",
        "1:69: T5",
    ),
    ("const int t[1]; const int t[0];", "1:27: T2 t"),
    (
        "lock L; void f(void); void f(int L, int L) holds(L) { }",
        "1:41: T2 L",
    ),
    ("void f(int a, int a) { b = 1; }", "1:19: T2 a"),
    ("const int t[0]; void w(int me) { x = 1; }", "1:11: T3 t"),
    ("void f(void) { } void f(void) holds(X) { }", "1:37: T1 X"),
    (
        "void f(int a, int b, int c, int d, int e, int g, int h, int i, int j, int k, int l, int m, int n, int o, int p, int q, int r) { x = 1; }",
        "1:6: T8 parameters 17",
    ),
];

// Modules that are typed and checked: `run` answers that they aren't of the first form.
const TYPED: &[&str] = &[
    // Each row of the table of types, at its edge.
    "void w(int me) { unsigned u; char c; u = 1u + c; c = u * me - u / 3 % 5; u = c & 1 ^ 2 | u; }",
    "void w(int me) { int *p; int a[3]; p = a; p = p + 1; p = 1u + p; p = p - me; me = p - a; }",
    "void w(int me) { char c; unsigned u; me = c << u; u = u >> c; me = -c + ~u + +me; c = (char) 300; }",
    "void w(int me) { int *p; int *q; me = p == q; me = p != 0; me = 0x0 == p; me = (0) != p; me = 1u == me; }",
    "void w(int me) { int *p; int *q; me = p < q; me = p >= q; me = me <= 1u; me = p && me || !p; me = !me; }",
    "void w(int me) { int *p; char c; p = me ? p : 0; p = p ? 0 : p; me = p ? c : 1u; }",
    "void w(int me) { int *p; int a[3]; me = *p + p[me] + a[0] + *a; p = &me; p = &a[3]; p = &p[1]; *(p + 1) = 2; }",
    // Globals by name and by index, as values and as targets.
    "lock L; shared(L) char g; shared(L) short a[3]; const int t[2] = { 1 }; void w(int me) { lock(L); g = a[t[0]] + t[1]; a[g] += 1; unlock(L); }",
    // Values are converted to what takes them.
    "char f(short a, int *p) { return a; } void w(int me) { char c; c = f(4u, 0); c = f(me, &me); f(1, 0); }",
    "int *f(void) { return 0; } int g(void) { return; } void w(int me) { int *p = f(); int i = g(); return; }",
    // An inner name hides an outer one; a name is visible to the end of its block.
    "void w(int me) { { int *me; me = 0; } me = 1; { char me; me = 1; } { int *me; me = 0; } }",
    "lock L; shared(L) int g; void w(int me) { int *g; g = 0; { int g; g = 1; } g = 0; }",
    "void w(int me) { for (int me = 0; me < 1; me++) { int *me; me = 0; } me = 1; for (int i = 0; i < 1; i++) ; int *i; i = 0; }",
    "void w(int w) { int x = x; w = 1; { int w = w; } }",
    // Declarations of one name that are equal, and a definition among them.
    "void f(int a); void f(int b); void f(int c) { } void f(int); void w(int me) { f(me); }",
    "lock L; lock M; void f(void) holds(L, M); void f(void) holds(M, L) { } extern lock L; extern lock L;",
    "extern lock L; extern shared(L) int g[3]; lock L; shared(L) int g[3] = { 1, 2, 3 }; extern shared(L) int g[3];",
    "int r(int n) { int x; if (n == 0) { return 0; } x = r(n - 1); return x + 1; }",
    // Loops.
    "void w(int me) { while (1) { if (me) break; else continue; } do { break; } while (0); for (;;) { { continue; } } }",
];

// Each text has its fault, which begins with its line and column.
fn assert_untyped<R: Abort + Threads + Sync>(
    rt: &R,
    alloc: Global,
    rows: &[(&str, &str)],
) -> Result<(), AllocError> {
    for (text, fault) in rows {
        let line = format!(in alloc; "m.c:{fault}\n")?;
        assert_module(rt, alloc, text, wanted(1, "", line.as_str()))?;
    }
    Ok(())
}

// Each body of `w` has its fault.
fn assert_bodies<R: Abort + Threads + Sync>(
    rt: &R,
    alloc: Global,
    rows: &[(&str, &str)],
) -> Result<(), AllocError> {
    for (body, fault) in rows {
        let text = format!(in alloc; "void w(int me) {{ {body} }}")?;
        assert_untyped(rt, alloc, &[(text.as_str(), *fault)])?;
    }
    Ok(())
}

#[test]
fn untyped_modules_are_refused(rt: HostRuntime) -> Result<(), Fail> {
    let alloc = rt.alloc();
    for bodies in [NAMES, TYPES, OTHERS, ORDER] {
        assert_bodies(&rt, alloc, bodies)?;
    }
    for texts in [
        NAMES_ELSEWHERE,
        TYPES_ELSEWHERE,
        OTHERS_ELSEWHERE,
        ORDER_ELSEWHERE,
    ] {
        assert_untyped(&rt, alloc, texts)?;
    }
    Ok(())
}

#[test]
fn typed_modules_of_other_forms_are_refused(rt: HostRuntime) -> Result<(), Fail> {
    let alloc = rt.alloc();
    for text in TYPED {
        assert_module(&rt, alloc, text, wanted(1, "", REFUSED))?;
    }
    Ok(())
}

// Functions `f0`, `f1`, .. with empty bodies.
fn functions(alloc: Global, count: u32) -> Result<String, AllocError> {
    let mut text = String::new(alloc);
    for number in 0..count {
        let function = format!(in alloc; "void f{number}(void) {{ }}\n")?;
        text.push_str(function.as_str())?;
    }
    Ok(text)
}

#[test]
fn counts_have_limits(rt: HostRuntime) -> Result<(), Fail> {
    let alloc = rt.alloc();
    let statements = repeated(alloc, ";", 65_536)?;
    let most_nodes = format!(in alloc; "void w(int me) {{ {statements} }}")?;
    let more_nodes = format!(in alloc; "void w(int me) {{ {statements}; }}")?;
    let cells_and_nodes = format!(in alloc; "void w(int me) {{ int a[4096]; {statements} }}")?;
    let most_functions = functions(alloc, 1024)?;
    let more_functions = functions(alloc, 1025)?;
    let fifteen = repeated(alloc, "int, ", 15)?;
    let most_parameters = format!(in alloc; "void f({fifteen}int);")?;
    let more_parameters = format!(in alloc; "void f({fifteen}int, int);")?;
    let typed = [
        most_nodes.as_str(),
        most_functions.as_str(),
        most_parameters.as_str(),
        "void w(int me) { int a[4095]; print(1); }",
        "lock L; shared(L) int a[65535]; extern shared(L) int b[65535];",
    ];
    for text in typed {
        assert_module(&rt, alloc, text, wanted(1, "", REFUSED))?;
    }
    let rows = [
        (more_nodes.as_str(), "m.c:1:6: T8 nodes 65537\n"),
        (cells_and_nodes.as_str(), "m.c:1:6: T8 cells 4097\n"),
        (more_functions.as_str(), "m.c:1025:6: T8 functions 1025\n"),
        (more_parameters.as_str(), "m.c:1:6: T8 parameters 17\n"),
        (
            "void w(int me) { int a[4096]; }",
            "m.c:1:6: T8 cells 4097\n",
        ),
        (
            "void w(int me) { { int a[2048]; } { int a[2048]; } }",
            "m.c:1:6: T8 cells 4097\n",
        ),
        (
            "lock L; shared(L) int a[65536];",
            "m.c:1:23: T8 words 65537\n",
        ),
        (
            "void w(int me) { int a[4294967295]; int b[4294967295]; }",
            "m.c:1:6: T8 cells 8589934591\n",
        ),
    ];
    for (text, refusal) in rows {
        assert_module(&rt, alloc, text, wanted(1, "", refusal))?;
    }
    Ok(())
}
