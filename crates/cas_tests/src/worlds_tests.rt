//! What `world` answers of modules of one thread: what it puts out and stands at. The wanted lines are those that
//! the rules of the language give (`docs/LANGUAGE.md`).

use crate::calls::{WORLD, assert_words, wanted};
use std::test::Fail;

// Modules of one thread, and what it prints.
const MODULES: &[(&str, &str)] = &[
    // No statement.
    ("void w(int me) { }", "thread 0 ended\n"),
    // A name goes back to the local that was hidden, behind each block.
    (
        "void w(int me) { int x = 1; { int y = 2; int *x = &y; { char x = 3; print(x); } print(*x); { int y = 4; int z = y; print(z); } print(y); } print(x); }",
        "0 3\n0 2\n0 4\n0 2\n0 1\nthread 0 ended\n",
    ),
    (
        "void w(int me) { int y = 0; { int y = 1; { int y = 2; { int y = 3; print(y); } print(y); } print(y); int x = 9; print(x); } print(y); }",
        "0 3\n0 2\n0 1\n0 9\n0 0\nthread 0 ended\n",
    ),
    // Places on later lines.
    (
        "void w(int me) {\n  int x; int d;\n  x = -2147483647 - 1; d = -1;\n  print(x / d); }",
        "thread 0 bad division out of range m.c:4:3\n",
    ),
    (
        "void w(int me) { int a[3]; int i;\n  i = 3;\n  a[i] = 1; }",
        "thread 0 bad index out of range m.c:3:3\n",
    ),
    (
        "void w(int me) { int a[3]; int i;\n  i = 2;\n  a[i] = 1; }",
        "thread 0 ended\n",
    ),
    // Statements.
    (
        "void w(int me) { ; { } { ; } print(me); }",
        "0 0\nthread 0 ended\n",
    ),
    (
        "void w(int me) { int x, y = 3; char c = 200; int *p; int a[2]; print(x); print(y); print(c); print(a[1]); print(p == 0); }",
        "0 0\n0 3\n0 -56\n0 0\n0 1\nthread 0 ended\n",
    ),
    (
        "void w(int me) { int x; x = 7; x += 3; x -= 1; x *= 4; x /= 5; x %= 4; x <<= 3; x >>= 1; x |= 5; x &= 12; x ^= 3; x++; x--; ++x; --x; print(x); }",
        "0 15\nthread 0 ended\n",
    ),
    (
        "void w(int me) { if (me) print(1); else print(2); if (!me) print(3); if (me) { } }",
        "0 2\n0 3\nthread 0 ended\n",
    ),
    (
        "void w(int me) { while (me < 3) { me++; print(me); } do { me -= 2; print(me); } while (me > 0); }",
        "0 1\n0 2\n0 3\n0 1\n0 -1\nthread 0 ended\n",
    ),
    (
        "void w(int me) { int i; for (i = 0; i < 2; i++) print(i); for (int k = 5; k; ) k--; for (;;) { me++; if (me == 3) break; } print(me); }",
        "0 0\n0 1\n0 3\nthread 0 ended\n",
    ),
    (
        "void w(int me) { int i; for (i = 0; i < 4; i++) { if (i == 1) { continue; } print(i); } i = 0; while (i < 4) { i++; if (i == 2) { continue; } print(i); } do { i--; if (i == 1) continue; print(i); } while (i); }",
        "0 0\n0 2\n0 3\n0 1\n0 3\n0 4\n0 3\n0 2\n0 0\nthread 0 ended\n",
    ),
    (
        "void w(int me) { int i; for (i = 0; i < 3; i++) { while (1) { if (i) break; print(7); break; } do { if (i == 1) continue; print(i); } while (0); } }",
        "0 7\n0 0\n0 2\nthread 0 ended\n",
    ),
    (
        "void w(int me) { print(1); return; }",
        "0 1\nthread 0 ended\n",
    ),
    (
        "int f(int a, int b) { return a - b; } void g(int a) { print(a); return; } void w(int me) { int x = f(9, 2); g(x); me = f(x, 10); g(me); f(1, 2); }",
        "0 7\n0 -3\nthread 0 ended\n",
    ),
    (
        "int f(void) { } int *g(void) { } void h(void) { } int k(void) { return; } void w(int me) { int x = 5; int *p = &x; x = f(); p = g(); h(); me = k(); print(x); print(p == 0); print(me); }",
        "0 0\n0 1\n0 0\nthread 0 ended\n",
    ),
    (
        "void w(int me) { int i; int n = 10; for (i = 0; i < 3; i++) { int n; n += 1; print(n); } print(n); }",
        "0 1\n0 2\n0 3\n0 10\nthread 0 ended\n",
    ),
    (
        "lock L; shared(L) int g[2] = {4}; shared(L) unsigned char c = 250; const short t[3] = {-1, 2}; void w(int me) { lock(L); g[1] = g[0] + t[0]; g[0] *= 2; c += 10; print(g[0]); print(g[1]); print(c); print(t[2]); unlock(L); lock(L); unlock(L); }",
        "0 8\n0 3\n0 4\n0 0\nthread 0 ended\n",
    ),
    // Operations.
    (
        "void w(int me) { print(6 & 3); print(6 | 3); print(6 ^ 3); print(~6); print(-6); print(+6); print(!6); print(!0); }",
        "0 2\n0 7\n0 5\n0 -7\n0 -6\n0 6\n0 0\n0 1\nthread 0 ended\n",
    ),
    (
        "void w(int me) { print(6 == 6); print(6 != 6); print(6 < 7); print(7 <= 6); print(6 > 7); print(7 >= 7); }",
        "0 1\n0 0\n0 1\n0 0\n0 0\n0 1\nthread 0 ended\n",
    ),
    (
        "void w(int me) { print(1 << 4); print(-16 >> 2); print(6 + 3); print(6 - 9); print(6 * 3); print(6 / 4); print(6 % 4); }",
        "0 16\n0 -4\n0 9\n0 -3\n0 18\n0 1\n0 2\nthread 0 ended\n",
    ),
    (
        "void w(int me) { print(me && 1 / me); print(1 || 1 / me); print(2 && 3); print(0 || 0); print(me ? 2 : 3); print(1 ? 2 : 1 / me); }",
        "0 0\n0 1\n0 1\n0 0\n0 3\n0 2\nthread 0 ended\n",
    ),
    (
        "void w(int me) { print((char) 200); print((unsigned char) -1); print((short) 40000); print((unsigned short) -1); print((unsigned) -1 >> 31); print((int) 4294967295u); }",
        "0 -56\n0 255\n0 -25536\n0 65535\n0 1\n0 -1\nthread 0 ended\n",
    ),
    (
        "void w(int me) { print(2147483647 + 1); print(2147483648); print(4294967295 >> 31); print(-8 >> 1); }",
        "0 -2147483648\n0 -2147483648\n0 1\n0 -4\nthread 0 ended\n",
    ),
    (
        "void w(int me) { print(-7 / 2); print(-7 % 2); print(4294967295u / 2u); }",
        "0 -3\n0 -1\n0 2147483647\nthread 0 ended\n",
    ),
    (
        "void w(int me) { char c; print(1 << 33); c = 200; print(c); }",
        "0 2\n0 -56\nthread 0 ended\n",
    ),
    (
        "const int t[3] = {5, -6, 7}; void w(int me) { print(t[1]); print(-1 < 1u); }",
        "0 -6\n0 0\nthread 0 ended\n",
    ),
    (
        "void w(int me) { print(2147483648u / 4294967295u); print(2147483648u % 4294967295u); print(7u % 4u); }",
        "0 0\n0 -2147483648\n0 3\nthread 0 ended\n",
    ),
    // Pointers.
    (
        "void swap(int *p, int *q) { int t; t = *p; *p = *q; *q = t; } void w(int me) { int x; int y; x = 3; y = 4; swap(&x, &y); print(x); print(y); }",
        "0 4\n0 3\nthread 0 ended\n",
    ),
    (
        "void w(int me) { int a[3]; int *p = a; int *q = &a[3]; p[1] = 5; *(p + 2) = 6; *p += 4; print(a[0]); print(a[1]); print(*(q - 1)); print(q - p); print(p - q); print(p < q); print(q <= p); print(p + 3 == q); print(1 + p != q); print(p > a); print(p >= a); }",
        "0 4\n0 5\n0 6\n0 3\n0 -3\n0 1\n0 0\n0 1\n0 1\n0 0\n0 1\nthread 0 ended\n",
    ),
    (
        "void w(int me) { int x; int y; int *p; int *q = &x; print(p == 0); print(q == 0); print(q != p); print(&x == &y); print(&x == q); print(!p); print(!q); print(p || q); if (q) print(8); q = me ? q : 0; print(q == 0); }",
        "0 1\n0 0\n0 1\n0 0\n0 1\n0 1\n0 0\n0 1\n0 8\n0 1\nthread 0 ended\n",
    ),
    (
        "int *f(void) { int x; return &x; } int *g(int *p) { return p; } void w(int me) { int *p; int *q; p = f(); q = p; q = g(p); q = &me; *q = 9; print(me); }",
        "0 9\nthread 0 ended\n",
    ),
    // Calls in calls.
    (
        "int r(int n) { int x; if (n == 0) { return 0; } x = r(n - 1); return x + 1; } void w(int me) { int y; print(1); y = r(1000); print(y); }",
        "0 1\n0 1000\nthread 0 ended\n",
    ),
    (
        "int r(int n) { int x; if (n == 0) { return 0; } x = r(n - 1); return x + 1; } void w(int me) { int y; y = r(10000); print(y); }",
        "0 10000\nthread 0 ended\n",
    ),
    (
        "char f(int a) { return a; } void w(int me) { unsigned char c = f(200); print(c); }",
        "0 200\nthread 0 ended\n",
    ),
];

// Modules of one thread that comes to a Bad step, and what the thread stands at. Each text stands behind `HELPERS`.
const BAD: &[(&str, &str)] = &[
    (
        "void w(int me) { print(1 / me); }",
        "division by zero m.c:2:18",
    ),
    (
        "void w(int me) { me = 1 % me; }",
        "division by zero m.c:2:18",
    ),
    (
        "void w(int me) { unsigned u; u = 5u / u; }",
        "division by zero m.c:2:30",
    ),
    ("void w(int me) { me /= 0; }", "division by zero m.c:2:18"),
    (
        "void w(int me) { int d = -1; int x = (-2147483647 - 1) / d; }",
        "division out of range m.c:2:34",
    ),
    (
        "void w(int me) { print((-2147483647 - 1) % -1); }",
        "division out of range m.c:2:18",
    ),
    (
        "void w(int me) { int *p; print(*p); }",
        "null pointer m.c:2:26",
    ),
    (
        "void w(int me) { int *p; *p = 1; }",
        "null pointer m.c:2:26",
    ),
    (
        "void w(int me) { int *p; p[0] += 1; }",
        "null pointer m.c:2:26",
    ),
    (
        "void w(int me) { int *p; print(p[9]); }",
        "null pointer m.c:2:26",
    ),
    (
        "void w(int me) { int *p; p = p + 1; }",
        "null pointer m.c:2:26",
    ),
    (
        "void w(int me) { int *p; p = p - 0; }",
        "null pointer m.c:2:26",
    ),
    (
        "void w(int me) { int *p; p = &p[0]; }",
        "null pointer m.c:2:26",
    ),
    (
        "void w(int me) { int *p; print(p - p); }",
        "null pointer m.c:2:26",
    ),
    (
        "void w(int me) { int *p; print(p < &me); }",
        "null pointer m.c:2:26",
    ),
    (
        "void w(int me) { int *p; print(&me >= p); }",
        "null pointer m.c:2:26",
    ),
    (
        "void w(int me) { int *p; p = f(); print(*p); }",
        "dead local m.c:2:35",
    ),
    (
        "void w(int me) { int *p; p = f(); *p = 1; }",
        "dead local m.c:2:35",
    ),
    (
        "void w(int me) { int *p; p = f(); print(p[9]); }",
        "dead local m.c:2:35",
    ),
    (
        "void w(int me) { int *p; p = f(); p = p + 9; }",
        "dead local m.c:2:35",
    ),
    (
        "void w(int me) { int *p; p = f(); p = &p[0]; }",
        "dead local m.c:2:35",
    ),
    (
        "void w(int me) { int *p; p = f(); print(p - p); }",
        "dead local m.c:2:35",
    ),
    (
        "void w(int me) { int *p; p = f(); print(&me < p); }",
        "dead local m.c:2:35",
    ),
    (
        "void w(int me) { int *p; p = f(); print(p == 0); }",
        "dead local m.c:2:35",
    ),
    (
        "void w(int me) { int *p; p = f(); print(&me != p); }",
        "dead local m.c:2:35",
    ),
    (
        "void w(int me) { int *p; p = f(); if (p) print(1); }",
        "dead local m.c:2:35",
    ),
    (
        "void w(int me) { int *p; p = f(); while (p) print(1); }",
        "dead local m.c:2:35",
    ),
    (
        "void w(int me) { int *p; p = f(); print(!p); }",
        "dead local m.c:2:35",
    ),
    (
        "void w(int me) { int *p; p = f(); print(1 && p); }",
        "dead local m.c:2:35",
    ),
    (
        "void w(int me) { int *p; p = f(); print(p ? 1 : 2); }",
        "dead local m.c:2:35",
    ),
    (
        "void w(int me) { int x; print(&x - &me); }",
        "pointers across objects m.c:2:25",
    ),
    (
        "void w(int me) { int x; print(&x > &me); }",
        "pointers across objects m.c:2:25",
    ),
    (
        "void w(int me) { int x; print(&x + 1 == &me); }",
        "pointers across objects m.c:2:25",
    ),
    (
        "void w(int me) { int a[2]; print(&me != a + 2); }",
        "pointers across objects m.c:2:28",
    ),
    (
        "void w(int me) { int a[3]; int i = 3; a[i] = 1; }",
        "index out of range m.c:2:39",
    ),
    (
        "void w(int me) { int a[3]; a[-1] = 1 / me; }",
        "index out of range m.c:2:28",
    ),
    (
        "void w(int me) { int a[3]; print(a[3u]); }",
        "index out of range m.c:2:28",
    ),
    (
        "void w(int me) { print(t[2]); }",
        "index out of range m.c:2:18",
    ),
    (
        "void w(int me) { lock(L); print(h[me - 1]); unlock(L); }",
        "index out of range m.c:2:27",
    ),
    (
        "void w(int me) { lock(L); h[4] = 1; unlock(L); }",
        "index out of range m.c:2:27",
    ),
    (
        "void w(int me) { int a[3]; print(*(a + 3)); }",
        "index out of range m.c:2:28",
    ),
    (
        "void w(int me) { int a[3]; int *p; p = a + 4; }",
        "index out of range m.c:2:36",
    ),
    (
        "void w(int me) { int a[3]; int *p; p = a - 1; }",
        "index out of range m.c:2:36",
    ),
    (
        "void w(int me) { int a[3]; int *p; p = &a[4]; }",
        "index out of range m.c:2:36",
    ),
    (
        "void w(int me) { int *p = &me; *(p + 1) = 2; }",
        "index out of range m.c:2:32",
    ),
    // The order of causes.
    (
        "void w(int me) { int *p; int *q; q = f(); print(p - q); }",
        "null pointer m.c:2:43",
    ),
    (
        "void w(int me) { int *p; int *q; q = f(); print(q < p); }",
        "null pointer m.c:2:43",
    ),
    (
        "void w(int me) { int *p; p = f(); print(p - &me); }",
        "dead local m.c:2:35",
    ),
    (
        "void w(int me) { int *p; int *q; p = f(); q = f(); print(p == q); }",
        "dead local m.c:2:52",
    ),
    (
        "void w(int me) { int a[3]; a[3] = 1 / 0; }",
        "index out of range m.c:2:28",
    ),
    (
        "void w(int me) { print(1 / 0 + t[2]); }",
        "division by zero m.c:2:18",
    ),
    // In a called function, in a condition, in the parts of a loop, and in arguments.
    (
        "int k(int a) { return 1 / a; } void w(int me) { me = k(me); }",
        "division by zero m.c:2:16",
    ),
    (
        "void w(int me) { if (1 / me) print(1); }",
        "division by zero m.c:2:18",
    ),
    (
        "void w(int me) { do ; while (1 / me); }",
        "division by zero m.c:2:18",
    ),
    (
        "void w(int me) { for (; 1 / me; ) ; }",
        "division by zero m.c:2:18",
    ),
    (
        "void w(int me) { for (;; me /= 0) ; }",
        "division by zero m.c:2:26",
    ),
    (
        "void k(int a, int b) { } void w(int me) { k(1 / me, 2); }",
        "division by zero m.c:2:43",
    ),
];

// A function whose result is dead, a table, and an array that a lock guards.
const HELPERS: &str =
    "int *f(void) { int x; return &x; } const int t[2]; lock L; shared(L) int h[4];\n";

#[test]
fn worlds_of_one_thread(rt: HostRuntime) -> Result<(), Fail> {
    let alloc = rt.alloc();
    for (text, out) in MODULES {
        assert_words(&rt, alloc, WORLD, &[("m.c", text)], wanted(0, out, ""))?;
    }
    for (text, state) in BAD {
        let whole = format!(in alloc; "{HELPERS}{text}")?;
        let out = format!(in alloc; "thread 0 bad {state}\n")?;
        let texts = [("m.c", whole.as_str())];
        assert_words(&rt, alloc, WORLD, &texts, wanted(0, out.as_str(), ""))?;
    }
    Ok(())
}
