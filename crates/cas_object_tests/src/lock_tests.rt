//! Lock texts: the accepted one, and texts of one change each.

use cas_lock::{LockFault, read_lock};
use std::alloc::Global;
use std::test::Fail;

// The most bytes of a lock text.
const TEXT_LIMIT: usize = 1_048_576;

const ACCEPTED: &str =
    "lock:\n  lock dec [eax]\n  jns enter\nspin:\n  cmp [eax], 0\n  jle spin\n  jmp lock\nenter:\n  ret\n\
     unlock:\n  mov [eax], 1\n  ret\n";

// Whether a text is accepted.
fn is_accepted(alloc: Global, text: &str) -> bool {
    let bytes = text.as_bytes();
    bytes.len() <= TEXT_LIMIT && read_lock(alloc, bytes).is_ok()
}

// Whether a text is refused with this fault.
fn is_refused(alloc: Global, text: &str, wanted: LockFault) -> bool {
    let bytes = text.as_bytes();
    if bytes.len() > TEXT_LIMIT {
        return false;
    }
    match read_lock(alloc, bytes) {
        Ok(_) => false,
        Err(fault) => fault == wanted,
    }
}

fn differs(instruction: u32) -> LockFault {
    LockFault::Body { instruction }
}

fn faulty(line: u32) -> LockFault {
    LockFault::Text { line }
}

#[test]
fn accepted_texts(rt: HostRuntime) -> Result<(), Fail> {
    let alloc: Global = rt.alloc();
    let texts = [
        ACCEPTED,
        "lock: ; taken\nlock  dec[eax]\n\tjns over\nagain:\ncmp [ eax ] ,00\njle again\njmp lock\nover:\n\
         ret\nunlock:\nmov [eax],01\nret",
        "lock:\nfirst:\nlock dec [eax]\njns b\na:\ncmp [eax], 0\njle a\njmp lock\nb:\nret\nunlock:\n\
         mov [eax], 1\nret\nunlock:\n",
    ];
    for text in texts {
        assert!(rt; is_accepted(alloc, text), "at {text}");
    }
    Ok(())
}

// The first instruction that differs.
#[test]
fn differing_bodies(rt: HostRuntime) -> Result<(), Fail> {
    let alloc: Global = rt.alloc();
    let texts = [
        ("", 1),
        ("lock dec [eax]\n", 1),
        ("lock:\nlock dec [ecx]\n", 1),
        (
            "lock:\nlock dec [eax]\njns enter\njmp lock\nenter:\nret\nunlock:\nmov [eax], 1\nret\n",
            2,
        ),
        ("lock:\nlock dec [eax]\njns enter\nspin:\ncmp [eax], 1\n", 2),
        (
            "lock:\n  lock dec [eax]\n  jns enter\nspin:\n  jmp lock\nenter:\n  ret\nunlock:\n\
               mov [eax], 1\n  ret\n",
            2,
        ),
        (
            "lock:\nlock dec [eax]\njns e\ns:\ncmp [eax], 1\njle s\njmp lock\ne:\nret\nunlock:\nmov [eax], 1\nret\n",
            3,
        ),
        (
            "lock:\nlock dec [eax]\njns e\ns:\ncmp [eax], 0\njl s\njmp lock\ne:\nret\nunlock:\nmov [eax], 1\nret\n",
            4,
        ),
        (
            "lock:\nlock dec [eax]\njns e\ns:\ncmp [eax], 0\njle s\njmp s\ne:\nret\nunlock:\nmov [eax], 1\nret\n",
            5,
        ),
        (
            "lock:\nlock dec [eax]\njns e\ns:\ncmp [eax], 0\njle s\njmp lock\ne:\nret\nunlock:\n\
             mov [eax], 1\nret\nlock:\n",
            5,
        ),
        (
            "lock:\nlock dec [eax]\njns e\ns:\ncmp [eax], 0\njle s\njmp lock\ne:\nunlock:\nret\nmov [eax], 1\nret\n",
            6,
        ),
        (
            "lock:\nlock dec [eax]\njns e\ns:\ncmp [eax], 0\njle s\njmp lock\ne:\nret\nmov [eax], 1\nret\n",
            7,
        ),
        (
            "lock:\nlock dec [eax]\njns e\ns:\ncmp [eax], 0\njle s\njmp lock\ne:\nret\nunlock:\nmov [eax], 1\n",
            8,
        ),
        (
            "lock:\nlock dec [eax]\njns e\ns:\ncmp [eax], 0\njle s\njmp lock\ne:\nret\nunlock:\n\
             mov [eax], 1\nret\nret\n",
            9,
        ),
    ];
    for (text, instruction) in texts {
        assert!(rt; is_refused(alloc, text, differs(instruction)), "at {text}");
    }
    Ok(())
}

// The first line that is none of a lock text, though the body differs before it.
#[test]
fn faulty_lines(rt: HostRuntime) -> Result<(), Fail> {
    let alloc: Global = rt.alloc();
    let texts = [
        ("??", 1),
        ("ret\n\nret ret ret ret\n", 3),
        ("lock:\nlock dec [eax]\n??\n", 3),
        ("mov [eax], -1\n", 1),
        ("mov [eax] 1\n", 1),
        ("mov [x], 1\n", 1),
        ("Mov [eax], 1\n", 1),
        ("1:\n", 1),
        ("ret\r\n", 1),
        ("mov eax, ecx, edx\n", 1),
    ];
    for (text, line) in texts {
        assert!(rt; is_refused(alloc, text, faulty(line)), "at {text}");
    }
    Ok(())
}
