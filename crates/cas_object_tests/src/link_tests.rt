//! Linking: maps, images, and each refusal with its order. Objects are written as their texts.

ghost use Rattle.std.specs.Prelude.{◌<◌, ◌≤◌, ◌^◌, All, IfOk, length};
ghost use Rattle.cas_base.specs.Decl.{functions_of};
ghost use Rattle.cas_link.specs.Parts.{decls_in, units_of};
ghost use Rattle.cas_object_text.specs.Values.{AreWhole};

use cas_asm::{Callee, Cond, Image, Instr, Mem, Operation, Source, Target, Value};
use cas_base::{Name, Reg};
use cas_link::{link, link_map};
use cas_lock::{LockObject, read_lock};
use cas_object::read_objects;
use cas_object_text::Object;
use cas_settle::LinkFault;
use std::alloc::Global;
use std::fmt::Write;
use std::process::Abort;
use std::test::Fail;

// The most bytes of an objects text.
const TEXT_LIMIT: usize = 16_777_216;

// The most threads.
const ENTRY_LIMIT: usize = 64;

const LOCK: &str =
    "lock:\nlock dec [eax]\njns enter\nspin:\ncmp [eax], 0\njle spin\njmp lock\nenter:\nret\nunlock:\n\
     mov [eax], 1\nret\n";

// Two threads that each store to one word and load the other.
const STORE_BUFFER: &str =
    "object 1\nlock L\nshared x int L 0\nshared y int L 0\nfunction p void 1 int 0\nmov [@x], 1\n\
     mov eax, [@y]\nout eax\nret\nend\nfunction q void 1 int 0\nmov [@y], 1\nmov eax, [@x]\nout eax\n\
     ret\nend\nend object\n";

// The objects of a text.
#[tactic(auto, using(crate::proofs::Linkable::whole_of_read, crate::proofs::Linkable::few_of_read, crate::proofs::Linkable::functions_of_read))]
fn read_all(alloc: Global, text: &str) -> Result<Vec<Object>, Fail>
    ensures whole { IfOk result (λ objects. AreWhole (units_of objects.items)) }
    ensures few_units { IfOk result (λ objects. length objects.items ≤ 16777216) }
    ensures few_functions { IfOk result
        (λ objects. All (λ unit. length (functions_of unit) < 2 ^ 32) (decls_in objects.items)) }
{
    let bytes = text.as_bytes();
    if bytes.len() > TEXT_LIMIT {
        return Err(Fail::new("too long"));
    }
    Ok(read_objects(alloc, bytes)?)
}

// The objects of two texts.
#[tactic(auto, using(crate::proofs::Linkable::few_append))]
fn read_both(alloc: Global, first: &str, second: &str) -> Result<Vec<Object>, Fail>
    ensures few_units { IfOk result (λ objects. length objects.items < 2 ^ 32) }
    ensures few_functions { IfOk result
        (λ objects. All (λ unit. length (functions_of unit) < 2 ^ 32) (decls_in objects.items)) }
{
    let mut objects = read_all(alloc, first)?;
    let mut others = read_all(alloc, second)?;
    objects.append(&mut others)?;
    Ok(objects)
}

// The names between spaces.
fn names(alloc: Global, text: &str) -> Result<Vec<Name>, Fail>
    ensures { IfOk result (λ names. length names.items ≤ 64) }
{
    let mut names = Vec::new(alloc);
    for word in text.split_whitespace() {
        names.push(Name::new(alloc, word)?)?;
    }
    if names.len() > ENTRY_LIMIT {
        return Err(Fail::new("too many threads"));
    }
    Ok(names)
}

// A refusal, as a command prints it.
fn refusal(alloc: Global, fault: &LinkFault) -> Result<String, Fail> {
    Ok(match fault {
        LinkFault::Memory => String::from_str(alloc, "memory")?,
        LinkFault::NotDefined(name) => {
            let name = name.as_str();
            format!(in alloc; "L1 {name}")?
        }
        LinkFault::Twice(name) => {
            let name = name.as_str();
            format!(in alloc; "L2 {name}")?
        }
        LinkFault::Differ {
            name,
            defined,
            declared,
        } => {
            let name = name.as_str();
            format!(in alloc; "L3 {name}: {defined} | {declared}")?
        }
        LinkFault::Entry { name, found } => {
            let name = name.as_str();
            format!(in alloc; "L4 {name}: {found}")?
        }
        LinkFault::Limit { what, counted } => format!(in alloc; "L5 {what} {counted}")?,
    })
}

// The words of an image, each with `c` where it is constant and with its guard; the locks; the entries; and how many
// instructions there are.
fn image_text(alloc: Global, image: &Image) -> Result<String, Fail> {
    let mut text = String::new(alloc);
    let words = image.words.as_slice();
    let constant = image.constant.as_slice();
    let guards = image.guards.as_slice();
    for ((word, constant), guard) in words.iter().zip(constant).zip(guards) {
        write!(text, "{word}")?;
        if *constant {
            write!(text, "c")?;
        }
        if let Some(guard) = guard {
            write!(text, "/{guard}")?;
        }
        write!(text, " ")?;
    }
    for lock in image.locks.as_slice() {
        write!(text, "lock {lock} ")?;
    }
    for entry in image.entries.as_slice() {
        write!(text, "entry {entry} ")?;
    }
    let size = image.code.as_slice().len();
    write!(text, "code {size}")?;
    Ok(text)
}

// What `link` answers on the objects of a text and threads at these functions.
fn linked(alloc: Global, text: &str, entries: &str) -> Result<String, Fail> {
    let objects = read_all(alloc, text)?;
    let entries = names(alloc, entries)?;
    let lock = LockObject::accepted(alloc)?;
    match link(alloc, &objects, &lock, &entries) {
        Ok(image) => image_text(alloc, &image),
        Err(fault) => refusal(alloc, &fault),
    }
}

// What `link_map` answers.
fn mapped(alloc: Global, text: &str, entries: &str) -> Result<String, Fail> {
    let objects = read_all(alloc, text)?;
    let entries = names(alloc, entries)?;
    let lock = LockObject::accepted(alloc)?;
    match link_map(alloc, &objects, &lock, &entries) {
        Ok(text) => Ok(text),
        Err(fault) => refusal(alloc, &fault),
    }
}

// Two objects that use each other's names, with each operand that is resolved.
const PAIR: &str =
    "object 1\nlock L\nshared x int L -5\nconst t u8[2] 3 4\nfunction f void 0 0\n.1\nmov eax, [@x+4]\n\
     mov [@x], 7\nlea ecx, [@t+eax*4-4]\ncmp eax, [@t]\ncmp [@x+eax], 3\nadd eax, [@x]\nlockdec [@L]\n\
     jle .1\njmp .2\njmp @g\n.2\ncall @f\nret\nend\nextern function g void 1 int 0\nend object\n\
     object 1\nextern lock L\nextern shared x int L\nextern const t u8[2]\nshared y int[2] L 1 2\n\
     lock M\nshared z int M 9\nfunction g void 1 int 0\ncall lock\n.1\ncall unlock\njg .1\nret\nend\n\
     extern function f void 0 0\nend object\n";

#[test]
fn maps(rt: HostRuntime) -> Result<(), Fail> {
    let alloc: Global = rt.alloc();
    let rows = [
        (
            STORE_BUFFER,
            "p q",
            "data L 4096 1\ndata x 4100 1\ndata y 4104 1\nfunction p 8 4\nfunction q 12 4\nthreads 2\n",
        ),
        (
            PAIR,
            "g",
            "data L 4096 1\ndata x 4100 1\ndata t 4104 2\ndata y 4112 2\ndata M 4120 1\ndata z 4124 1\n\
             function f 8 12\nfunction g 20 4\nthreads 1\n",
        ),
        ("object 1\nend object\n", "", "threads 0\n"),
        // Data in the order of definitions, not of names; a function without an instruction.
        (
            "object 1\nconst z int 0\nconst a int 0\nfunction e void 0 0\nend\nfunction d void 0 0\nret\n\
             end\nend object\n",
            "",
            "data z 4096 1\ndata a 4100 1\nfunction e 8 0\nfunction d 8 1\nthreads 0\n",
        ),
    ];
    for (text, entries, wanted) in rows {
        assert_eq!(rt; mapped(alloc, text, entries)?.as_str(), wanted);
    }
    Ok(())
}

#[test]
fn images(rt: HostRuntime) -> Result<(), Fail> {
    let alloc: Global = rt.alloc();
    let rows = [
        (
            STORE_BUFFER,
            "p q",
            "1 0/0 0/0 lock 0 entry 8 entry 12 code 16",
        ),
        (
            PAIR,
            "g g",
            "1 4294967291/0 3c 4c 1/0 2/0 1 9/6 lock 0 lock 6 entry 20 entry 20 code 24",
        ),
        ("object 1\nend object\n", "", "code 8"),
        // A guard that is defined after its global, and one that is no lock.
        (
            "object 1\nshared a int L 5\nlock L\nshared b int a 6\nend object\n",
            "",
            "5/1 1 6 lock 1 code 8",
        ),
    ];
    for (text, entries, wanted) in rows {
        assert_eq!(rt; linked(alloc, text, entries)?.as_str(), wanted);
    }
    Ok(())
}

// The word at a symbol's address and a number.
fn at(address: u32, disp: i32) -> Mem<u32> {
    Mem {
        sym: Some(address),
        base: None,
        index: None,
        disp,
    }
}

// Whether a text and threads at these functions link to this code after the lock object's.
fn has_code(alloc: Global, text: &str, entries: &str, wanted: &[Instr<u32>]) -> Result<bool, Fail> {
    let objects = read_all(alloc, text)?;
    let entries = names(alloc, entries)?;
    let lock = read(alloc)?;
    let Ok(image) = link(alloc, &objects, &lock, &entries) else {
        return Ok(false);
    };
    let code = image.code.as_slice();
    let places = lock.code.as_slice();
    Ok(
        code.starts_with(places)
            && code.ends_with(wanted)
            && code.len() - places.len() == wanted.len(),
    )
}

// The lock object.
fn read(alloc: Global) -> Result<LockObject, Fail> {
    let bytes = LOCK.as_bytes();
    if bytes.len() > TEXT_LIMIT / 16 {
        return Err(Fail::new("too long"));
    }
    Ok(read_lock(alloc, bytes)?)
}

#[test]
fn names_and_labels_are_resolved(rt: HostRuntime) -> Result<(), Fail> {
    let wanted = [
        Instr::Mov(Reg::Eax, Source::Mem(at(4100, 4))),
        Instr::Store(at(4100, 0), Value::Num(7)),
        Instr::Lea(
            Reg::Ecx,
            Mem {
                index: Some((Reg::Eax, true)),
                ..at(4104, -4)
            },
        ),
        Instr::Cmp(Reg::Eax, Source::Mem(at(4104, 0))),
        Instr::CmpMem(
            Mem {
                base: Some(Reg::Eax),
                ..at(4100, 0)
            },
            3,
        ),
        Instr::Operate(Operation::Add, Reg::Eax, Source::Mem(at(4100, 0))),
        Instr::LockDec(at(4096, 0)),
        Instr::JumpIf(Cond::Le, 8),
        Instr::Jmp(Target::Label(18)),
        Instr::Jmp(Target::Function(20)),
        Instr::Call(Callee::Function(8)),
        Instr::Ret,
        Instr::Call(Callee::Lock),
        Instr::Call(Callee::Unlock),
        Instr::JumpIf(Cond::G, 21),
        Instr::Ret,
    ];
    assert!(rt; has_code(rt.alloc(), PAIR, "g", &wanted)?);
    Ok(())
}

// Each row: objects, threads, and the refusal of both calls.
fn check_refusals(rt: &impl Abort, alloc: Global, rows: &[(&str, &str, &str)]) -> Result<(), Fail> {
    for (text, entries, wanted) in rows {
        let by_link = linked(alloc, text, entries)?;
        let by_map = mapped(alloc, text, entries)?;
        assert_eq!(rt; by_link.as_str(), *wanted, "{text} with {entries}");
        assert_eq!(rt; by_map.as_str(), *wanted, "map of {text} with {entries}");
    }
    Ok(())
}

#[test]
fn not_defined(rt: HostRuntime) -> Result<(), Fail> {
    let rows = [
        // A declaration, even where no code uses it.
        ("object 1\nextern lock M\nend object\n", "", "L1 M"),
        (
            "object 1\nextern function g void 0 0\nextern const t int\nend object\n",
            "",
            "L1 g",
        ),
        // A name in code.
        (
            "object 1\nfunction w void 1 int 0\ncall @g\nmov eax, [@y]\nret\nend\nend object\n",
            "w",
            "L1 g",
        ),
        (
            "object 1\nfunction w void 1 int 0\nmov eax, [@y]\ncall @g\nret\nend\nend object\n",
            "w",
            "L1 y",
        ),
        (
            "object 1\nfunction w void 1 int 0\njmp @v\nend\nfunction v void 1 int 0\nlockdec [@M]\nret\n\
             end\nend object\n",
            "w",
            "L1 M",
        ),
        // A function in an operand, and a lock after `call`.
        (
            "object 1\nfunction w void 1 int 0\nlea eax, [@w]\nret\nend\nend object\n",
            "w",
            "L1 w",
        ),
        (
            "object 1\nlock L\nfunction w void 1 int 0\ncall @L\nret\nend\nend object\n",
            "w",
            "L1 L",
        ),
        // An entry.
        (STORE_BUFFER, "p r", "L1 r"),
    ];
    check_refusals(&rt, rt.alloc(), &rows)
}

#[test]
fn twice(rt: HostRuntime) -> Result<(), Fail> {
    let rows = [
        ("object 1\nlock L\nlock L\nend object\n", "", "L2 L"),
        (
            "object 1\nfunction f void 0 0\nend\nend object\nobject 1\nfunction f void 0 0\nend\nend object\n",
            "",
            "L2 f",
        ),
        (
            "object 1\nconst x int 1\nend object\nobject 1\nlock y\nfunction x void 0 0\nend\nlock y\nend object\n",
            "",
            "L2 x",
        ),
        // Before a declaration that no object defines, and before an unknown name in code.
        (
            "object 1\nextern lock M\nlock L\nlock L\nend object\n",
            "",
            "L2 L",
        ),
        (
            "object 1\nfunction w void 1 int 0\ncall @g\nend\nlock L\nlock L\nend object\n",
            "w",
            "L2 L",
        ),
    ];
    check_refusals(&rt, rt.alloc(), &rows)
}

#[test]
fn differ(rt: HostRuntime) -> Result<(), Fail> {
    let rows = [
        (
            "object 1\nlock L\nlock M\nshared g int L 0\nend object\nobject 1\nextern lock M\n\
             extern shared g int M\nend object\n",
            "",
            "L3 g: shared g int L | shared g int M",
        ),
        (
            "object 1\nextern const t int[3]\nend object\nobject 1\nconst t int[2] 0 0\nend object\n",
            "",
            "L3 t: const t int[2] | const t int[3]",
        ),
        (
            "object 1\nlock L\nfunction f void 0 1 L\nend\nend object\nobject 1\n\
             extern function f void 0 0\nend object\n",
            "",
            "L3 f: function f void 0 1 L | function f void 0 0",
        ),
        // Before an unknown name in code.
        (
            "object 1\nfunction w void 1 int 0\ncall @g\nend\nlock L\nextern const L u8\nend object\n",
            "w",
            "L3 L: lock L | const L u8",
        ),
    ];
    check_refusals(&rt, rt.alloc(), &rows)
}

#[test]
fn no_entries(rt: HostRuntime) -> Result<(), Fail> {
    let rows = [
        (
            "object 1\nfunction f int 1 int 0\nret\nend\nend object\n",
            "f",
            "L4 f: function f int 1 int 0",
        ),
        ("object 1\nlock L\nend object\n", "L", "L4 L: lock L"),
        (
            "object 1\nlock L\nfunction w void 1 int 0\nend\nfunction f void 1 int 1 L\nret\nend\nend object\n",
            "w f",
            "L4 f: function f void 1 int 1 L",
        ),
        // After an unknown name in code.
        (
            "object 1\nfunction f void 0 0\ncall @g\nend\nend object\n",
            "f",
            "L1 g",
        ),
    ];
    check_refusals(&rt, rt.alloc(), &rows)
}

// A part of a text, repeated.
fn push_times(text: &mut String, part: &str, times: u32) -> Result<(), Fail> {
    for _ in 0..times {
        text.push_str(part)?;
    }
    Ok(())
}

// An object with a table of so many words.
fn table(alloc: Global, name: &str, words: u32) -> Result<String, Fail> {
    let mut text = format!(in alloc; "object 1\nconst {name} int[{words}]")?;
    push_times(&mut text, " 0", words)?;
    text.push_str("\nend object\n")?;
    Ok(text)
}

#[test]
fn too_many_words(rt: HostRuntime) -> Result<(), Fail> {
    let alloc: Global = rt.alloc();
    let mut full = table(alloc, "t", 65535)?;
    full.push_str("object 1\nlock L\nfunction f void 0 0\nend\nend object\n")?;
    assert_eq!(rt;
        mapped(alloc, full.as_str(), "")?.as_str(),
        "data t 4096 65535\ndata L 266236 1\nfunction f 8 0\nthreads 0\n"
    );
    let mut lock = table(alloc, "t", 65536)?;
    lock.push_str("object 1\nlock L\nend object\n")?;
    let mut tables = table(alloc, "t", 40000)?;
    tables.push_str(table(alloc, "u", 40000)?.as_str())?;
    let mut entry = table(alloc, "t", 65536)?;
    entry.push_str(STORE_BUFFER)?;
    let rows = [
        (lock.as_str(), "", "L5 words 65537"),
        (tables.as_str(), "", "L5 words 80000"),
        (entry.as_str(), "q", "L5 words 65539"),
        // After an entry that is none.
        (entry.as_str(), "t", "L4 t: const t int[65536]"),
    ];
    check_refusals(&rt, alloc, &rows)
}

// An object with so many locks.
fn locks(alloc: Global, name: &str, number: u32) -> Result<String, Fail> {
    let mut text = String::from_str(alloc, "object 1\n")?;
    for lock in 0..number {
        writeln!(text, "lock {name}{lock}")?;
    }
    text.push_str("end object\n")?;
    Ok(text)
}

#[test]
fn too_many_locks(rt: HostRuntime) -> Result<(), Fail> {
    let alloc: Global = rt.alloc();
    let full = locks(alloc, "a", 256)?;
    let more = locks(alloc, "a", 257)?;
    let mut two = locks(alloc, "a", 200)?;
    two.push_str(locks(alloc, "b", 100)?.as_str())?;
    let mut words = table(alloc, "t", 65536)?;
    words.push_str(more.as_str())?;
    assert!(rt; mapped(alloc, full.as_str(), "")?.ends_with("data a255 5116 1\nthreads 0\n"));
    let rows = [
        (more.as_str(), "", "L5 locks 257"),
        (two.as_str(), "", "L5 locks 300"),
        (words.as_str(), "", "L5 words 65793"),
    ];
    check_refusals(&rt, alloc, &rows)
}

// An object with a function of so many instructions.
fn long(alloc: Global, name: &str, instructions: u32) -> Result<String, Fail> {
    let mut text = format!(in alloc; "object 1\nfunction {name} void 1 int 0\n")?;
    push_times(&mut text, "ret\n", instructions)?;
    text.push_str("end\nend object\n")?;
    Ok(text)
}

// The map of the objects of two texts, or the refusal.
fn mapped_both(alloc: Global, first: &str, second: &str) -> Result<String, Fail> {
    let objects = read_both(alloc, first, second)?;
    let lock = LockObject::accepted(alloc)?;
    match link_map(alloc, &objects, &lock, &[]) {
        Ok(text) => Ok(text),
        Err(fault) => refusal(alloc, &fault),
    }
}

#[test]
fn too_many_instructions(rt: HostRuntime) -> Result<(), Fail> {
    let alloc: Global = rt.alloc();
    let half = long(alloc, "f", 2_097_148)?;
    let full = long(alloc, "g", 2_097_148)?;
    let more = long(alloc, "g", 2_097_149)?;
    assert_eq!(rt;
        mapped_both(alloc, half.as_str(), full.as_str())?.as_str(),
        "function f 8 2097148\nfunction g 2097156 2097148\nthreads 0\n"
    );
    assert_eq!(rt;
        mapped_both(alloc, half.as_str(), more.as_str())?.as_str(),
        "L5 code 4194305"
    );
    assert_eq!(rt;
        mapped_both(alloc, more.as_str(), long(alloc, "h", 3_000_000)?.as_str())?.as_str(),
        "L5 code 5097157"
    );
    Ok(())
}
