//! Each instruction on registers, by values worked out from IA-32's rules. Flags are letters: `c` carry, `z` zero, `s`
//! sign, `o` overflow, `p` parity. `bench/processor.py` compares these rows with the processor.

use cas_asm::{
    Cond, Core, Count, Extension, Flags, Instr, Operation, Regs, ShiftKind, Source, Value,
};
use cas_base::Reg;
use std::test::Fail;

// The registers, with these words in eax and ecx.
fn with_operands(a: u32, b: u32) -> Regs {
    Regs {
        eax: a,
        ecx: b,
        edx: 11,
        ebx: 12,
        esp: 400,
        ebp: 13,
        esi: 14,
        edi: 15,
    }
}

// All flags set.
const ALL: Flags = Flags {
    carry: true,
    zero: true,
    sign: true,
    overflow: true,
    parity: true,
};

// The core after an instruction at place 7, with these flags before.
fn after_flags(instr: Instr<u32>, regs: Regs, flags: Flags, read: u32) -> Core {
    let core = Core {
        regs,
        flags,
        place: 7,
    };
    instr.effect().after(core, read)
}

// The same with all flags set before.
fn after(instr: Instr<u32>, regs: Regs, read: u32) -> Core {
    after_flags(instr, regs, ALL, read)
}

// Whether exactly the flags with these letters are set.
fn are(flags: Flags, letters: &str) -> bool {
    let letters = letters.as_bytes();
    flags.carry == letters.contains(&b'c')
        && flags.zero == letters.contains(&b'z')
        && flags.sign == letters.contains(&b's')
        && flags.overflow == letters.contains(&b'o')
        && flags.parity == letters.contains(&b'p')
}

const OPERATIONS: &[(Operation, u32, u32, u32, &str)] = &[
    (Operation::Add, 5, 6, 11, ""),
    (Operation::Add, 1, 2, 3, "p"),
    (Operation::Add, 200, 100, 300, ""),
    (Operation::Add, 0x7fff_ffff, 1, 0x8000_0000, "sop"),
    (Operation::Add, 0xffff_ffff, 1, 0, "czp"),
    (Operation::Add, 0x8000_0000, 0x8000_0000, 0, "czop"),
    (Operation::Sub, 6, 5, 1, ""),
    (Operation::Sub, 7, 7, 0, "zp"),
    (Operation::Sub, 5, 6, 0xffff_ffff, "csp"),
    (Operation::Sub, 0x8000_0000, 1, 0x7fff_ffff, "op"),
    (Operation::Sub, 0, 0x8000_0000, 0x8000_0000, "csop"),
    (
        Operation::Sub,
        0x7fff_ffff,
        0xffff_ffff,
        0x8000_0000,
        "csop",
    ),
    (Operation::And, 0xff00_ff00, 0x0ff0_0ff0, 0x0f00_0f00, "p"),
    (Operation::And, 0x8000_0001, 0xffff_ffff, 0x8000_0001, "s"),
    (Operation::And, 6, 9, 0, "zp"),
    (Operation::Or, 0x10, 1, 0x11, "p"),
    (Operation::Or, 0x8000_0000, 1, 0x8000_0001, "s"),
    (Operation::Xor, 0xf0f0_f0f0, 0xf0f0_f0f0, 0, "zp"),
    (Operation::Xor, 0x8000_0000, 1, 0x8000_0001, "s"),
    (Operation::Imul, 65537, 65537, 0x0002_0001, ""),
    (Operation::Imul, 0xffff_ffff, 7, 0xffff_fff9, ""),
];

const SHIFTS: &[(ShiftKind, u32, u32, u32)] = &[
    (ShiftKind::Shl, 3, 0, 3),
    (ShiftKind::Shl, 1, 31, 0x8000_0000),
    (ShiftKind::Shl, 0x8000_0001, 1, 2),
    (ShiftKind::Shr, 0x8000_0000, 31, 1),
    (ShiftKind::Shr, 0xffff_fff9, 1, 0x7fff_fffc),
    (ShiftKind::Sar, 0x8000_0000, 31, 0xffff_ffff),
    (ShiftKind::Sar, 0xffff_fff9, 1, 0xffff_fffc),
    (ShiftKind::Sar, 0x7fff_ffff, 30, 1),
];

const EXTENSIONS: &[(Extension, u32, u32)] = &[
    (Extension::Sign8, 0x80, 0xffff_ff80),
    (Extension::Sign8, 0x17f, 0x7f),
    (Extension::Sign16, 0x8000, 0xffff_8000),
    (Extension::Sign16, 0x1_7fff, 0x7fff),
    (Extension::Zero8, 0xfff, 0xff),
    (Extension::Zero16, 0x1234_5678, 0x5678),
];

// Edx, eax, the divisor, and the quotient and the remainder, if there are any.
const UNSIGNED_DIVISIONS: &[(u32, u32, u32, Option<(u32, u32)>)] = &[
    (0, 7, 2, Some((3, 1))),
    (1, 0, 2, Some((0x8000_0000, 0))),
    (
        0xffff_fffe,
        0xffff_ffff,
        0xffff_ffff,
        Some((0xffff_ffff, 0xffff_fffe)),
    ),
    (1, 0, 1, None),
    (0, 5, 0, None),
];

const SIGNED_DIVISIONS: &[(u32, u32, u32, Option<(u32, u32)>)] = &[
    (
        0xffff_ffff,
        0xffff_fff9,
        2,
        Some((0xffff_fffd, 0xffff_ffff)),
    ),
    (0, 7, 0xffff_fffe, Some((0xffff_fffd, 1))),
    (0xffff_ffff, 0x8000_0000, 1, Some((0x8000_0000, 0))),
    (0, 0x8000_0000, 0xffff_ffff, Some((0x8000_0000, 0))),
    (0, 0x8000_0000, 1, None),
    (0xffff_ffff, 0x8000_0000, 0xffff_ffff, None),
    (0, 5, 0, None),
];

const NEGATIONS: &[(u32, u32, &str)] = &[
    (5, 0xffff_fffb, "cs"),
    (0, 0, "zp"),
    (0x8000_0000, 0x8000_0000, "csop"),
];

const CONDITIONS: &[(Cond, &str)] = &[
    (Cond::O, "o"),
    (Cond::No, "no"),
    (Cond::B, "b"),
    (Cond::Ae, "ae"),
    (Cond::E, "e"),
    (Cond::Ne, "ne"),
    (Cond::Be, "be"),
    (Cond::A, "a"),
    (Cond::S, "s"),
    (Cond::Ns, "ns"),
    (Cond::P, "p"),
    (Cond::Np, "np"),
    (Cond::L, "l"),
    (Cond::Ge, "ge"),
    (Cond::Le, "le"),
    (Cond::G, "g"),
];

// The conditions that hold after `cmp`.
const COMPARISONS: &[(u32, u32, &str)] = &[
    (1, 2, "no b ne be s p l le"),
    (7, 7, "no ae e be ns p ge le"),
    (0x8000_0000, 1, "o ae ne a ns p l le"),
    (0x7fff_ffff, 0xffff_ffff, "o b ne be s p ge g"),
    (3, 1, "no ae ne a ns np ge g"),
];

#[test]
fn operations(rt: HostRuntime) -> Result<(), Fail> {
    for (operation, a, b, value, letters) in OPERATIONS {
        let regs = with_operands(*a, *b);
        let by_register = after(
            Instr::Operate(*operation, Reg::Eax, Source::Reg(Reg::Ecx)),
            regs,
            0,
        );
        let by_number = after(
            Instr::Operate(*operation, Reg::Eax, Source::Num(*b)),
            regs,
            0,
        );
        assert_eq!(rt; by_register.regs.eax, *value, "{operation:?} {a} {b}");
        assert_eq!(rt; by_register.regs.ecx, *b);
        assert_eq!(rt; by_register.place, 8);
        assert!(rt; are(by_register.flags, letters), "{operation:?} {a} {b}");
        assert_eq!(rt; by_number, by_register);
    }
    Ok(())
}

#[test]
fn shifts(rt: HostRuntime) -> Result<(), Fail> {
    for (kind, a, count, value) in SHIFTS {
        let regs = with_operands(*a, *count ^ 0x1234_5660);
        let by_number = after(Instr::Shift(*kind, Reg::Eax, Count::Fixed(*count)), regs, 0);
        assert_eq!(rt; by_number.regs.eax, *value, "{kind:?} {a} {count}");
        assert!(rt; are(by_number.flags, ""));
        assert_eq!(rt;
            after(Instr::Shift(*kind, Reg::Eax, Count::Ecx), regs, 0),
            by_number
        );
    }
    Ok(())
}

#[test]
fn extensions_complements_and_signs(rt: HostRuntime) -> Result<(), Fail> {
    for (extension, a, value) in EXTENSIONS {
        let core = after(
            Instr::Extend(*extension, Reg::Eax, Reg::Ecx),
            with_operands(9, *a),
            0,
        );
        assert_eq!(rt; core.regs.eax, *value, "{extension:?} {a}");
        assert!(rt; are(core.flags, "czsop"));
    }
    for (a, value, letters) in NEGATIONS {
        let core = after(Instr::Neg(Reg::Eax), with_operands(*a, 0), 0);
        assert_eq!(rt; core.regs.eax, *value);
        assert!(rt; are(core.flags, letters), "neg {a}");
    }
    let complement = after(Instr::Not(Reg::Eax), with_operands(0x0f0f_0f0f, 0), 0);
    assert_eq!(rt; complement.regs.eax, 0xf0f0_f0f0);
    assert!(rt; are(complement.flags, "czsop"));
    assert_eq!(rt;
        after(Instr::Cdq, with_operands(0x8000_0000, 0), 0).regs.edx,
        0xffff_ffff
    );
    assert_eq!(rt;
        after(Instr::Cdq, with_operands(0x7fff_ffff, 0), 0).regs.edx,
        0
    );
    Ok(())
}

// Divides, and says what is in eax and edx afterwards, if there is a result.
fn divided(signed: bool, high: u32, low: u32, by: u32) -> Option<(u32, u32)> {
    let regs = Regs {
        edx: high,
        ..with_operands(low, by)
    };
    let instr: Instr<u32> = if signed {
        Instr::Idiv(Reg::Ecx)
    } else {
        Instr::Div(Reg::Ecx)
    };
    let core = Core {
        regs,
        flags: Flags::CLEARED,
        place: 7,
    };
    if instr.effect().faults(core) {
        return None;
    }
    let regs = after(instr, regs, 0).regs;
    Some((regs.eax, regs.edx))
}

#[test]
fn divisions(rt: HostRuntime) -> Result<(), Fail> {
    for (high, low, by, result) in UNSIGNED_DIVISIONS {
        assert_eq!(rt;
            divided(false, *high, *low, *by),
            *result,
            "div {high} {low} {by}"
        );
    }
    for (high, low, by, result) in SIGNED_DIVISIONS {
        assert_eq!(rt;
            divided(true, *high, *low, *by),
            *result,
            "idiv {high} {low} {by}"
        );
    }
    Ok(())
}

// Whether `set` and a jump to place 40 take the condition as holding, or not.
fn take(compared: Core, condition: Cond, holds: bool) -> bool {
    let set = after_flags(
        Instr::Set(condition, Reg::Ebx),
        compared.regs,
        compared.flags,
        0,
    );
    let jump = after_flags(
        Instr::JumpIf(condition, 40),
        compared.regs,
        compared.flags,
        0,
    );
    let place = if holds { 40 } else { 8 };
    set.regs.ebx == u32::from(holds) && jump.place == place && jump.flags == compared.flags
}

#[test]
fn conditions(rt: HostRuntime) -> Result<(), Fail> {
    for (a, b, held) in COMPARISONS {
        let compared = after(
            Instr::Cmp(Reg::Eax, Source::Reg(Reg::Ecx)),
            with_operands(*a, *b),
            0,
        );
        for (condition, name) in CONDITIONS {
            let holds = held.split(' ').any(|other| other == *name);
            assert!(rt; take(compared, *condition, holds), "{name} {a} {b}");
        }
    }
    Ok(())
}

#[test]
fn comparisons_write_nothing(rt: HostRuntime) -> Result<(), Fail> {
    let regs = with_operands(5, 6);
    let compared = after(Instr::Cmp(Reg::Eax, Source::Num(6)), regs, 0);
    assert_eq!(rt; compared.regs, regs);
    assert!(rt; are(compared.flags, "csp"));
    let tested = after(Instr::Test(Reg::Eax, Value::Reg(Reg::Ecx)), regs, 0);
    assert_eq!(rt; tested.regs, regs);
    assert!(rt; are(tested.flags, ""));
    assert!(rt;
        are(
            after(Instr::Test(Reg::Eax, Value::Num(10)), regs, 0).flags,
            "zp"
        )
    );
    Ok(())
}
