//! Objects texts: one with every kind of line, texts of one change each, and what is printed of what is read.

use cas_object::{ObjectCode, ObjectFault, read_objects};
use cas_object_print::print_object;
use std::alloc::Global;
use std::test::Fail;

// The most bytes of an objects text.
const TEXT_LIMIT: usize = 16_777_216;

// Two objects, with every kind of line outside functions. The first ends at line 24.
const WHOLE: &str = "object 1\nextern lock M\nextern shared a u8[4] M\nextern const b i16\n\
     extern function g int 2 int u16* 1 M\nlock L\nshared x int L -5\n\
     shared y unsigned[3] L 0 2147483647 -2147483648\nconst t i8[2] -128 127\nconst u u16 65535\n\
     function f i8* 3 int unsigned i16* 2 L M\n.0\nmov eax, [@x+ecx*4-8]\njle .0\njmp .4294967295\n\
     .4294967295\nret\nend\nfunction w void 1 int 0\ncall @f\nout eax\nret\nend\nend object\nobject 1\n\
     end object\n";

// The number of its last line, and that of the first line of its second object.
const LAST_LINE: u32 = 26;

const SECOND_OBJECT: u32 = 25;

fn is_read(alloc: Global, text: &str) -> bool {
    let bytes = text.as_bytes();
    bytes.len() <= TEXT_LIMIT && read_objects(alloc, bytes).is_ok()
}

fn is_refused(alloc: Global, text: &str, code: ObjectCode, line: u32) -> bool {
    let bytes = text.as_bytes();
    if bytes.len() > TEXT_LIMIT {
        return false;
    }
    match read_objects(alloc, bytes) {
        Ok(_) => false,
        Err(fault) => fault == ObjectFault::At { code, line },
    }
}

// The text that is printed of the objects of a text.
fn printed(alloc: Global, text: &str) -> Result<String, Fail> {
    let mut all = String::new(alloc);
    let bytes = text.as_bytes();
    if bytes.len() <= TEXT_LIMIT {
        for object in &read_objects(alloc, bytes)? {
            all.push_str(print_object(alloc, object)?.as_str())?;
        }
    }
    Ok(all)
}

// The lines before one with this number, and perhaps that line, with `ending` in place of its end.
fn cut(alloc: Global, number: u32, ending: Option<&str>) -> Result<String, Fail> {
    let mut text = String::new(alloc);
    let mut next = 1;
    for line in WHOLE.lines() {
        if next < number {
            text.push_str(line)?;
            text.push_str("\n")?;
        } else if next == number
            && let Some(ending) = ending
        {
            text.push_str(line)?;
            text.push_str(ending)?;
        }
        next = next.wrapping_add(1);
    }
    Ok(text)
}

// The text with a word in place of the line with this number.
fn with_line(alloc: Global, number: u32, word: &str) -> Result<String, Fail> {
    let mut text = String::new(alloc);
    let mut next: u32 = 1;
    for line in WHOLE.lines() {
        text.push_str(if next == number { word } else { line })?;
        text.push_str("\n")?;
        next = next.wrapping_add(1);
    }
    Ok(text)
}

#[test]
fn objects_are_read_and_printed(rt: HostRuntime) -> Result<(), Fail> {
    let alloc: Global = rt.alloc();
    assert_eq!(rt; printed(alloc, WHOLE)?.as_str(), WHOLE);
    Ok(())
}

// A hundred texts of one change each: cut before a line, cut in it, with a space after it, with another word for it.
#[test]
fn broken_texts(rt: HostRuntime) -> Result<(), Fail> {
    let alloc: Global = rt.alloc();
    for number in 1..LAST_LINE + 1 {
        if number != SECOND_OBJECT {
            let text = cut(alloc, number, None)?;
            assert!(rt;
                is_refused(alloc, text.as_str(), ObjectCode::B4, number),
                "before {number}"
            );
        }
        let text = cut(alloc, number, Some(""))?;
        assert!(rt;
            is_refused(alloc, text.as_str(), ObjectCode::B2, number),
            "in {number}"
        );
        let text = cut(alloc, number, Some(" \n"))?;
        assert!(rt;
            is_refused(alloc, text.as_str(), ObjectCode::B2, number),
            "after {number}"
        );
        let text = with_line(alloc, number, "nop")?;
        assert!(rt;
            is_refused(alloc, text.as_str(), ObjectCode::B2, number),
            "at {number}"
        );
    }
    Ok(())
}

#[test]
fn other_versions(rt: HostRuntime) -> Result<(), Fail> {
    let alloc: Global = rt.alloc();
    let texts = [
        ("object 2\nend object\n", 1),
        ("object 0\n", 1),
        ("object 1\nend object\nobject 18446744073709551617\n", 3),
    ];
    for (text, line) in texts {
        assert!(rt; is_refused(alloc, text, ObjectCode::B1, line), "at {text}");
    }
    Ok(())
}

#[test]
fn lines_that_may_not_stand(rt: HostRuntime) -> Result<(), Fail> {
    let alloc: Global = rt.alloc();
    let texts = [
        "object 01",
        "object",
        "object 1 ",
        "object 1\nobject 1",
        "object 1\nend",
        "object 1\nret",
        "object 1\nlock",
        "object 1\nlock 1",
        "object 1\nlock L M",
        "object 1\nlock L\r",
        "object 1\nextern lock",
        "object 1\nextern lock L 0",
        "object 1\nextern extern lock L",
        "object 1\nshared x int",
        "object 1\nshared x int L",
        "object 1\nshared x int L 0 0",
        "object 1\nshared x int[2] L 0",
        "object 1\nshared x int* L 0",
        "object 1\nshared x void L 0",
        "object 1\nshared x int[02] L 0 0",
        "object 1\nshared x int[0] L 0",
        "object 1\nconst t int 00",
        "object 1\nconst t int -0",
        "object 1\nconst t int +1",
        "object 1\nconst t int  1",
        "object 1\nconst t char 1",
        "object 1\nextern const t int 1",
        "object 1\nfunction f void 1 0",
        "object 1\nfunction f void 0 1",
        "object 1\nfunction f void 0 0 L",
        "object 1\nfunction f int[2] 0 0",
        "object 1\nfunction f void 1 void 0",
        "object 1\nfunction f void 1 int[1] 0",
        "object 1\nfunction f void 99999999999999999999 int 0",
    ];
    for text in texts {
        let mut ended = String::from_str(alloc, text)?;
        ended.push_str("\n")?;
        let line = if text.contains('\n') { 2 } else { 1 };
        assert!(rt;
            is_refused(alloc, ended.as_str(), ObjectCode::B2, line),
            "at {text}"
        );
    }
    assert!(rt;
        is_refused(
            alloc,
            "object 1\nfunction w void 1 int 0\nnop\n",
            ObjectCode::B2,
            3
        )
    );
    Ok(())
}

#[test]
fn numbers_and_labels(rt: HostRuntime) -> Result<(), Fail> {
    let alloc: Global = rt.alloc();
    let texts = [
        ("object 1\nextern const t int[0]\n", 2),
        ("object 1\nconst t int[0]\n", 2),
        ("object 1\nextern shared x int[65537] L\n", 2),
        ("object 1\nextern const t int[99999999999999999999]\n", 2),
        ("object 1\nconst t int 2147483648\n", 2),
        ("object 1\nconst t int[2] 0 -2147483649\n", 2),
        ("object 1\nfunction f void 0 0\n.4294967296\n", 3),
        ("object 1\nfunction f void 0 0\n.1\nret\n.1\n", 5),
        ("object 1\nfunction f void 0 0\njmp .1\nend\n", 4),
        ("object 1\nfunction f void 0 0\n.2\njle .1\nret\nend\n", 6),
    ];
    for (text, line) in texts {
        assert!(rt; is_refused(alloc, text, ObjectCode::B3, line), "at {text}");
    }
    assert!(rt;
        is_read(
            alloc,
            "object 1\nfunction f void 0 0\n.1\nend\nfunction g void 0 0\n.1\nend\nend object\n"
        ),
        "labels are of their function"
    );
    Ok(())
}

#[test]
fn cut_texts(rt: HostRuntime) -> Result<(), Fail> {
    let alloc: Global = rt.alloc();
    let texts = [
        ("", 1),
        ("object 1\n", 2),
        ("object 1\nfunction f void 0 0\nret\n", 4),
        ("object 1\nend object\nobject 1\nlock L\n", 5),
    ];
    for (text, line) in texts {
        assert!(rt; is_refused(alloc, text, ObjectCode::B4, line), "at {text}");
    }
    Ok(())
}

// A text, repeated.
fn push_times(text: &mut String, part: &str, times: u32) -> Result<(), Fail> {
    for _ in 0..times {
        text.push_str(part)?;
    }
    Ok(())
}

#[test]
fn large_objects(rt: HostRuntime) -> Result<(), Fail> {
    let alloc: Global = rt.alloc();
    let mut words = String::from_str(alloc, "object 1\nconst t int[65536]")?;
    push_times(&mut words, " 0", 65536)?;
    words.push_str("\nend object\n")?;
    assert!(rt; is_read(alloc, words.as_str()), "65536 words");

    let mut lock = String::from_str(alloc, "object 1\nconst t int[65536]")?;
    push_times(&mut lock, " 0", 65536)?;
    lock.push_str("\nextern lock M\nlock L\n")?;
    assert!(rt;
        is_refused(alloc, lock.as_str(), ObjectCode::B5, 4),
        "a lock is a word"
    );

    let mut tables = String::from_str(alloc, "object 1")?;
    for _ in 0..2 {
        tables.push_str("\nconst t int[40000]")?;
        push_times(&mut tables, " 7", 40000)?;
    }
    tables.push_str("\n")?;
    assert!(rt;
        is_refused(alloc, tables.as_str(), ObjectCode::B5, 3),
        "80000 words"
    );

    let mut functions = String::from_str(alloc, "object 1\n")?;
    push_times(&mut functions, "function f void 0 0\nend\n", 1024)?;
    functions.push_str("extern function g void 0 0\nend object\n")?;
    assert!(rt; is_read(alloc, functions.as_str()), "1024 functions");

    let mut another = String::from_str(alloc, "object 1\n")?;
    push_times(&mut another, "function f void 0 0\nend\n", 1024)?;
    another.push_str("function f void 0 0\n")?;
    assert!(rt;
        is_refused(alloc, another.as_str(), ObjectCode::B5, 2050),
        "1025 functions"
    );
    Ok(())
}
