//! Lines of functions: each mnemonic in each of its forms, and lines of one change each.

use cas_asm::{Callee, Cond, Instr, Line, Mem, Operation, Source, Target};
use cas_base::{Name, Reg};
use cas_object_line::{CodeLine, LineFault, Tables, code_line};
use cas_pieces::split;
use std::alloc::Global;
use std::test::Fail;

fn read(alloc: Global, text: &str) -> Result<CodeLine, LineFault> {
    let mut pieces = Vec::new(alloc);
    split(&mut pieces, text.as_bytes())?;
    code_line(alloc, &Tables::new(), &pieces)
}

fn is_instruction(alloc: Global, text: &str) -> bool {
    matches!(read(alloc, text), Ok(CodeLine::Code(Line::Run(_))))
}

fn is_read_as(alloc: Global, text: &str, wanted: &Instr) -> bool {
    match read(alloc, text) {
        Ok(CodeLine::Code(Line::Run(instr))) => instr == *wanted,
        _ => false,
    }
}

fn is_refused(alloc: Global, text: &str, wanted: LineFault) -> bool {
    match read(alloc, text) {
        Ok(_) => false,
        Err(fault) => fault == wanted,
    }
}

#[test]
fn each_form_is_read(rt: HostRuntime) -> Result<(), Fail> {
    let alloc: Global = rt.alloc();
    let texts = [
        "mov eax, ecx",
        "mov eax, -2147483648",
        "mov eax, [@x]",
        "mov [@x], eax",
        "mov [eax], 1",
        "movsx8 eax, ecx",
        "movsx16 eax, ecx",
        "movzx8 eax, ecx",
        "movzx16 eax, ecx",
        "lea edx, [@t+ecx*4]",
        "add eax, ecx",
        "add eax, 1",
        "add eax, [esp+4]",
        "sub eax, ecx",
        "sub eax, 1",
        "sub eax, [esp]",
        "cmp eax, ecx",
        "cmp eax, 0",
        "cmp eax, [0]",
        "cmp [eax], 0",
        "and eax, ecx",
        "and eax, 255",
        "and eax, [@x]",
        "or eax, ecx",
        "or eax, 1",
        "or eax, [@x]",
        "xor eax, eax",
        "xor eax, 1",
        "xor eax, [@x]",
        "test eax, eax",
        "test eax, 1",
        "neg eax",
        "not eax",
        "imul eax, ecx",
        "imul eax, 3",
        "imul eax, [@x]",
        "shl eax, 31",
        "shl eax, ecx",
        "shr eax, 0",
        "shr eax, ecx",
        "sar eax, 1",
        "sar eax, ecx",
        "cdq",
        "idiv ecx",
        "div ecx",
        "push ebp",
        "pop ebp",
        "jmp .0",
        "jmp @f",
        "call @f",
        "call lock",
        "call unlock",
        "ret",
        "out eax",
        "lockdec [eax]",
        "set le, eax",
        "jo .1",
        "jno .1",
        "jb .1",
        "jae .1",
        "je .1",
        "jne .1",
        "jbe .1",
        "ja .1",
        "js .1",
        "jns .1",
        "jp .1",
        "jnp .1",
        "jl .1",
        "jge .1",
        "jle .1",
        "jg .4294967295",
    ];
    for text in texts {
        assert!(rt; is_instruction(alloc, text), "at {text}");
    }
    Ok(())
}

#[test]
fn operands_are_told_apart(rt: HostRuntime) -> Result<(), Fail> {
    let alloc: Global = rt.alloc();
    let place = Mem {
        sym: Some(Name::new(alloc, "x")?),
        base: Some(Reg::Ebx),
        index: Some((Reg::Esi, false)),
        disp: -8,
    };
    assert!(rt;
        is_read_as(
            alloc,
            "sub edi, [@x+ebx+esi*1-8]",
            &Instr::Operate(Operation::Sub, Reg::Edi, Source::Mem(place)),
        )
    );
    assert!(rt;
        is_read_as(
            alloc,
            "mov eax, -1",
            &Instr::Mov(Reg::Eax, Source::Num(4294967295))
        )
    );
    assert!(rt; is_read_as(alloc, "jle .7", &Instr::JumpIf(Cond::Le, 7)));
    assert!(rt; is_read_as(alloc, "jmp .7", &Instr::Jmp(Target::Label(7))));
    assert!(rt; is_read_as(alloc, "call unlock", &Instr::Call(Callee::Unlock)));
    assert!(rt; is_read_as(alloc, "set g, ecx", &Instr::Set(Cond::G, Reg::Ecx)));
    Ok(())
}

// No second spelling is read.
#[test]
fn other_spellings_are_refused(rt: HostRuntime) -> Result<(), Fail> {
    let alloc: Global = rt.alloc();
    let texts = [
        "",
        "nop",
        "ret ",
        " ret",
        "mov eax,ecx",
        "mov eax , ecx",
        "mov  eax, ecx",
        "mov eax, ecx, edx",
        "mov eax",
        "mov eax, 01",
        "mov eax, -0",
        "mov eax, +1",
        "mov eax, []",
        "mov eax, [eax+0]",
        "mov eax, [@x+0]",
        "mov eax, [eax+@x]",
        "mov eax, [4+eax]",
        "mov eax, [eax*1]",
        "mov eax, [@x+eax*1]",
        "mov eax, [eax*2]",
        "mov eax, [eax+ecx]",
        "mov eax, [eax+esp*4]",
        "mov eax, [eax+-4]",
        "mov eax, [eax-0]",
        "mov eax, [eax+4-4]",
        "mov eax, [@9]",
        "mov eax, @x",
        "mov 1, eax",
        "mov [eax], [ecx]",
        "out ecx",
        "call eax",
        "call .1",
        "call 1",
        "jmp 1",
        "jmp .01",
        "jle @f",
        ".-1",
        ".01",
        ".",
        "shl eax, edx",
        "shl eax, [eax]",
        "set eax, ecx",
        "set le",
        "test eax, [eax]",
        "neg 1",
        "lockdec eax",
        "lea eax, ecx",
        "cdq eax",
        "MOV eax, ecx",
        "end end",
        "mov eax, [@x+99999999999], 01",
        "neg [eax+99999999999]",
        "shl eax, [@x+99999999999]",
    ];
    for text in texts {
        assert!(rt; is_refused(alloc, text, LineFault::Form), "at {text}");
    }
    Ok(())
}

#[test]
fn numbers_out_of_range(rt: HostRuntime) -> Result<(), Fail> {
    let alloc: Global = rt.alloc();
    let texts = [
        "mov eax, 2147483648",
        "mov eax, -2147483649",
        "mov eax, 99999999999999999999999999",
        "mov eax, [2147483648]",
        "mov [@x-2147483649], 1",
        "shl eax, 32",
        "shl eax, -1",
        ".4294967296",
        "jmp .18446744073709551616",
        "je .4294967296",
    ];
    for text in texts {
        assert!(rt; is_refused(alloc, text, LineFault::Range), "at {text}");
    }
    Ok(())
}
