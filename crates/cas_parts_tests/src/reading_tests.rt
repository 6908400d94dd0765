//! Rows of texts, each with the number of its items or its first fault. (`printing_tests` has what statements are read
//! as.)

use cas_base::Place;
use cas_read::{ReadFault, read_module};
use std::alloc::{AllocError, Global};
use std::fmt::Write;
use std::process::Abort;
use std::test::Fail;

// The number of a module's items, or the fault.
fn shown(alloc: Global, text: &[u8]) -> Result<String, AllocError> {
    let mut shown = String::new(alloc);
    if text.len() > 10000 {
        shown.push_str("too long a row")?;
        return Ok(shown);
    }
    match read_module(alloc, text) {
        Ok(module) => write!(shown, "{}", module.items.as_slice().len())?,
        Err(ReadFault::At { code, place }) => {
            let Place { line, col } = place;
            write!(shown, "{line}:{col} {code:?}")?;
        }
        Err(ReadFault::Memory) => shown.push_str("memory")?,
    }
    Ok(shown)
}

fn assert_row(rt: &impl Abort, alloc: Global, text: &str, wanted: &str) -> Result<(), AllocError> {
    let found = shown(alloc, text.as_bytes())?;
    assert_eq!(rt; found.as_str(), wanted, "at {text}");
    Ok(())
}

#[test]
fn each_item_is_read(rt: HostRuntime) -> Result<(), Fail> {
    let items = [
        ("", "0"),
        ("lock L; extern lock M;", "2"),
        (
            "shared(L) int x; shared(L) unsigned char y = 3; extern shared(L) short int z[4];",
            "3",
        ),
        (
            "const int t[3] = { 1, -2, 3u, }; const short u = -1; extern const signed v;",
            "3",
        ),
        (
            "int f(void); int *g(int, char *p) holds(L, M); void h(); extern unsigned short k(unsigned);",
            "4",
        ),
        ("void w(int me) { }", "1"),
        (
            "signed char f(signed short a, unsigned int b, signed int *c) holds(L) { return; }",
            "1",
        ),
        ("@", "1:1 R1"),
        ("lock", "1:5 R6"),
        ("lock 3;", "1:6 R5"),
        ("lock L", "1:7 R6"),
        ("int x;", "1:6 R7"),
        ("int x = 3;", "1:7 R7"),
        ("int **f();", "1:6 R7"),
        ("int f(int a[]);", "1:12 R7"),
        ("int f(int[3]);", "1:10 R7"),
        ("int f(int **a);", "1:12 R7"),
        ("extern shared(L) int x = 1;", "1:24 R5"),
        ("extern const int t[1] = { 1 };", "1:23 R5"),
        ("shared(L) int x[2][3];", "1:19 R7"),
        ("const int t[1] = { };", "1:20 R5"),
        ("const int t[1] = 1;", "1:18 R5"),
        ("extern void f() { }", "1:17 R5"),
        ("void f(int) { }", "1:13 R5"),
        ("void f(void, int);", "1:12 R5"),
        ("void f(int,);", "1:12 R5"),
        ("void f() holds();", "1:16 R5"),
        ("void *f();", "1:6 R5"),
        ("f();", "1:1 R5"),
    ];
    for (text, wanted) in items {
        assert_row(&rt, rt.alloc(), text, wanted)?;
    }
    Ok(())
}

#[test]
fn each_fault_at_its_place(rt: HostRuntime) -> Result<(), Fail> {
    let rows = [
        ("x = f(x) + 1;", "1:21 R5"),
        ("x = 1 + f(x);", "1:21 R7"),
        ("x = &f(x);", "1:18 R7"),
        ("x = (f(x));", "1:18 R7"),
        ("int a[2] = 1;", "1:21 R7"),
        ("int a[2][3];", "1:20 R7"),
        ("int *a[2];", "1:18 R7"),
        ("int **a;", "1:17 R7"),
        ("const int a;", "1:12 R7"),
        ("x = const;", "1:16 R7"),
        ("if x;", "1:15 R5"),
        ("else ;", "1:12 R5"),
        ("while (x) int y;", "1:22 R5"),
        ("for (int a, b;;) ;", "1:22 R5"),
        ("x", "1:14 R5"),
        ("x = ;", "1:16 R5"),
        ("x = 1", "1:18 R5"),
        ("x == 1;", "1:14 R5"),
        ("(x) = 1;", "1:12 R5"),
        ("a ? b : c;", "1:14 R5"),
        ("x = a ? b;", "1:21 R5"),
        ("int signed a;", "1:16 R5"),
        ("unsigned unsigned a;", "1:21 R5"),
        ("do ; while x;", "1:23 R5"),
        ("lock(1);", "1:17 R5"),
        ("print();", "1:18 R5"),
        ("{", "1:15 R6"),
        ("f(,);", "1:14 R5"),
        ("f(1,);", "1:16 R5"),
        ("x[1] = f(1);", "1:20 R7"),
        ("+x = 1;", "1:12 R5"),
    ];
    for (text, wanted) in rows {
        let text = format!(in rt.alloc(); "void w() {{ {text} }}")?;
        assert_row(&rt, rt.alloc(), text.as_str(), wanted)?;
    }
    Ok(())
}

// So many times one text, between two others.
fn repeated(
    alloc: Global,
    before: &str,
    text: &str,
    count: usize,
    behind: &str,
) -> Result<String, AllocError> {
    let mut whole = String::new(alloc);
    whole.push_str(before)?;
    for _ in 0..count {
        whole.push_str(text)?;
    }
    whole.push_str(behind)?;
    Ok(whole)
}

#[test]
fn limits_are_at_their_tokens(rt: HostRuntime) -> Result<(), Fail> {
    let rows = [
        ("void w(){", "{", 199, ";", "1:210 R6"),
        ("void w(){", "{", 200, ";", "1:210 R8"),
        ("void w(){", "{", 200, "}", "1:211 R6"),
        ("void w(){", "{", 200, "const", "1:210 R7"),
        ("void w(){", "{", 201, "", "1:210 R8"),
        ("void w(){x=", "~", 999, "1;}", "1"),
        ("void w(){x=", "~", 1000, "1;}", "1:1012 R8"),
        ("void w(){x=", "~", 1000, ";}", "1:1012 R5"),
        ("void w(){x=1", "+1", 499, ";}", "1"),
        ("void w(){x=1", "+1", 500, ";}", "1:1012 R8"),
    ];
    for (before, text, count, behind, wanted) in rows {
        let text = repeated(rt.alloc(), before, text, count, behind)?;
        assert_row(&rt, rt.alloc(), text.as_str(), wanted)?;
    }
    Ok(())
}
