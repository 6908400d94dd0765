//! Instructions that touch memory, the stack and the code's place, run by a processor on an image with four shared
//! words, of which the last is constant. Their addresses are 4096 to 4108; the stack's 16 words begin at 268435456.

ghost use Rattle.std.specs.Prelude.{◌≡◌, ◌≤◌, length, IfOk};

use cas_asm::{
    Ask, BadWhy, Callee, Cond, Core, Count, Cpu, Image, Instr, Mem, Operation, ShiftKind, Source,
    Target, Value, cpu_ask, cpu_step,
};
use cas_base::{NoMemory, Reg, Seq};
use std::alloc::Global;
use std::test::Fail;

// What a thread did until it ended, or at most 300 instructions.
#[derive(Drop)]
struct Run {
    core: Core,
    words: Vec<u32>,
    out: Vec<u32>,
    last: Ask,
}

fn image(alloc: Global, code: Vec<Instr<u32>>) -> Result<Image, NoMemory>
    requires { length code.items ≤ 4194304 }
    ensures { IfOk result (λ image. length image.entries ≡ 1) }
{
    Ok(Image {
        code: Seq::of(code),
        words: Seq::of(Vec::from_array(alloc, [10, 20, 30, 40])?),
        constant: Seq::of(Vec::from_array(alloc, [false, false, false, true])?),
        guards: Seq::of(Vec::from_array(alloc, [None, None, None, None])?),
        locks: Seq::of(Vec::new(alloc)),
        entries: Seq::of(Vec::from_array(alloc, [0])?),
    })
}

// Runs the code, with each store in memory at once.
fn ran(alloc: Global, code: Vec<Instr<u32>>) -> Result<Run, NoMemory>
    requires { length code.items ≤ 4194304 }
{
    let image = image(alloc, code)?;
    let mut cpu = Cpu::new(alloc, &image, 0, 16)?;
    let mut words = image.words.copy(alloc)?.into_vec();
    let mut out = Vec::new(alloc);
    let mut last = Ask::Plain;
    for _ in 0..300 {
        let loaded = match cpu_ask(&image, &cpu, None) {
            Ask::Load { at } | Ask::LockedDec { at } => words
                .get(at as usize)
                .copied()
                .unwrap_or(0),
            _ => 0,
        };
        last = cpu_ask(&image, &cpu, Some(loaded));
        match last {
            Ask::Stack | Ask::Bad(_) => break,
            Ask::Store { at, value } => put(&mut words, at, value),
            Ask::LockedDec { at } => put(&mut words, at, loaded.wrapping_sub(1)),
            Ask::Out { value } => out.push(value)?,
            _ => {}
        }
        cpu_step(&image, &mut cpu, loaded);
        if last == Ask::Finish {
            break;
        }
    }
    Ok(Run {
        core: cpu.core(),
        words,
        out,
        last,
    })
}

fn put(words: &mut Vec<u32>, at: u32, value: u32) {
    if let Some(word) = words.get_mut(at as usize) {
        *word = value;
    }
}

// The operand `[base + index * 4 + disp]`, after a symbol.
fn mem(sym: Option<u32>, base: Option<Reg>, index: Option<(Reg, bool)>, disp: i32) -> Mem<u32> {
    Mem {
        sym,
        base,
        index,
        disp,
    }
}

fn at(address: u32) -> Mem<u32> {
    mem(Some(address), None, None, 0)
}

fn number(to: Reg, word: u32) -> Instr<u32> {
    Instr::Mov(to, Source::Num(word))
}

#[test]
fn addresses(rt: HostRuntime) -> Result<(), Fail> {
    let alloc = rt.alloc();
    let code = [
        number(Reg::Ecx, 4096),
        number(Reg::Edx, 2),
        Instr::Lea(
            Reg::Ebx,
            mem(Some(4100), Some(Reg::Ecx), Some((Reg::Edx, true)), -8196),
        ),
        Instr::Mov(
            Reg::Esi,
            Source::Mem(mem(None, Some(Reg::Ecx), Some((Reg::Edx, true)), -4)),
        ),
        Instr::Mov(
            Reg::Edi,
            Source::Mem(mem(Some(4096), None, Some((Reg::Edx, true)), 0)),
        ),
        Instr::Store(mem(None, Some(Reg::Ecx), None, 4), Value::Num(7)),
        Instr::Store(at(4096), Value::Reg(Reg::Edx)),
        Instr::Operate(Operation::Add, Reg::Edx, Source::Mem(at(4108))),
        Instr::Ret,
    ];
    let ran = ran(alloc, Vec::from_array(alloc, code)?)?;
    assert_eq!(rt; ran.last, Ask::Finish);
    assert_eq!(rt; ran.core.regs.ebx, 8);
    assert_eq!(rt; ran.core.regs.esi, 20);
    assert_eq!(rt; ran.core.regs.edi, 30);
    assert_eq!(rt; ran.core.regs.edx, 42);
    assert_eq!(rt; ran.words.as_slice(), [2, 7, 30, 40].as_slice());
    Ok(())
}

#[test]
fn stack_and_calls(rt: HostRuntime) -> Result<(), Fail> {
    let alloc = rt.alloc();
    let code = [
        number(Reg::Ecx, 5),
        Instr::Push(Reg::Ecx),
        Instr::Push(Reg::Esp),
        Instr::Call(Callee::Function(8)),
        Instr::Pop(Reg::Ebx),
        Instr::Pop(Reg::Esi),
        Instr::Out,
        Instr::Ret,
        Instr::Mov(Reg::Eax, Source::Mem(mem(None, Some(Reg::Esp), None, 8))),
        Instr::Jmp(Target::Label(11)),
        Instr::Jmp(Target::Label(10)),
        Instr::Jmp(Target::Function(12)),
        Instr::Ret,
    ];
    let ran = ran(alloc, Vec::from_array(alloc, code)?)?;
    assert_eq!(rt; ran.last, Ask::Finish);
    assert_eq!(rt; ran.out.as_slice(), [5].as_slice());
    assert_eq!(rt; ran.core.regs.ebx, 268_435_512);
    assert_eq!(rt; ran.core.regs.esi, 5);
    assert_eq!(rt; ran.core.regs.esp, 268_435_520);
    assert_eq!(rt; ran.core.place, 4_294_967_295);
    Ok(())
}

#[test]
fn locked_decrements_and_comparisons(rt: HostRuntime) -> Result<(), Fail> {
    let alloc = rt.alloc();
    let code = [
        Instr::Store(at(4096), Value::Num(0x8000_0000)),
        number(Reg::Eax, 0),
        Instr::Cmp(Reg::Eax, Source::Num(1)),
        Instr::LockDec(at(4096)),
        Instr::Set(Cond::O, Reg::Ebx),
        Instr::Set(Cond::B, Reg::Ecx),
        Instr::CmpMem(at(4104), 30),
        Instr::Set(Cond::E, Reg::Edx),
        Instr::Cmp(Reg::Edx, Source::Mem(at(4104))),
        Instr::Set(Cond::L, Reg::Esi),
        Instr::Call(Callee::Lock),
    ];
    let ran = ran(alloc, Vec::from_array(alloc, code)?)?;
    assert_eq!(rt; ran.words.as_slice().first().copied(), Some(0x7fff_ffff));
    assert_eq!(rt; ran.core.regs.ebx, 1);
    assert_eq!(rt; ran.core.regs.ecx, 1);
    assert_eq!(rt; ran.core.regs.edx, 1);
    assert_eq!(rt; ran.core.regs.esi, 1);
    assert_eq!(rt; ran.last, Ask::Stack);
    Ok(())
}

// How the code ends.
fn end(alloc: Global, instr: Instr<u32>) -> Result<Ask, NoMemory> {
    let code = [
        Instr::Shift(ShiftKind::Shl, Reg::Eax, Count::Fixed(1)),
        instr,
    ];
    let ran = ran(alloc, Vec::from_array(alloc, code)?)?;
    Ok(ran.last)
}

#[test]
fn bad_steps(rt: HostRuntime) -> Result<(), Fail> {
    let alloc = rt.alloc();
    let stack_top = 268_435_516;
    assert_eq!(rt;
        end(alloc, Instr::Idiv(Reg::Ecx))?,
        Ask::Bad(BadWhy::Divide)
    );
    assert_eq!(rt;
        end(alloc, Instr::Mov(Reg::Eax, Source::Mem(at(4097))))?,
        Ask::Bad(BadWhy::Address)
    );
    assert_eq!(rt;
        end(alloc, Instr::Store(at(4112), Value::Num(1)))?,
        Ask::Bad(BadWhy::Address)
    );
    assert_eq!(rt;
        end(alloc, Instr::LockDec(at(stack_top)))?,
        Ask::Bad(BadWhy::Address)
    );
    assert_eq!(rt;
        end(alloc, Instr::Store(at(4108), Value::Num(1)))?,
        Ask::Bad(BadWhy::ConstWrite)
    );
    assert_eq!(rt;
        end(alloc, Instr::LockDec(at(4108)))?,
        Ask::Bad(BadWhy::ConstWrite)
    );
    assert_eq!(rt;
        end(alloc, Instr::Jmp(Target::Label(9)))?,
        Ask::Bad(BadWhy::CodePlace)
    );
    assert_eq!(rt; end(alloc, number(Reg::Esp, 268_435_455))?, Ask::Stack);
    assert_eq!(rt; end(alloc, Instr::Out)?, Ask::Bad(BadWhy::CodePlace));
    Ok(())
}
