//! The words of mnemonics, conditions and registers.

ghost use Rattle.std.specs.Prelude.{◌≡◌};
ghost use Rattle.cas_object_print.specs.Words as spec;

use cas_asm::{Cond, Extension, Operation, ShiftKind};
use cas_base::Reg;

/// The name of a register.
pub fn register(reg: Reg) -> &'static str
    ensures { result.now ≡ spec.register reg }
{
    match reg {
        Reg::Eax => "eax",
        Reg::Ecx => "ecx",
        Reg::Edx => "edx",
        Reg::Ebx => "ebx",
        Reg::Esp => "esp",
        Reg::Ebp => "ebp",
        Reg::Esi => "esi",
        Reg::Edi => "edi",
    }
}

/// The text of a condition.
pub fn condition(cond: Cond) -> &'static str
    ensures { result.now ≡ spec.condition cond }
{
    match cond {
        Cond::O => "o",
        Cond::No => "no",
        Cond::B => "b",
        Cond::Ae => "ae",
        Cond::E => "e",
        Cond::Ne => "ne",
        Cond::Be => "be",
        Cond::A => "a",
        Cond::S => "s",
        Cond::Ns => "ns",
        Cond::P => "p",
        Cond::Np => "np",
        Cond::L => "l",
        Cond::Ge => "ge",
        Cond::Le => "le",
        Cond::G => "g",
    }
}

/// The mnemonic of an operation.
pub fn operation(operation: Operation) -> &'static str
    ensures { result.now ≡ spec.operation operation }
{
    match operation {
        Operation::Add => "add",
        Operation::Sub => "sub",
        Operation::And => "and",
        Operation::Or => "or",
        Operation::Xor => "xor",
        Operation::Imul => "imul",
    }
}

/// The mnemonic of an extension.
pub fn extension(extension: Extension) -> &'static str
    ensures { result.now ≡ spec.extension extension }
{
    match extension {
        Extension::Sign8 => "movsx8",
        Extension::Sign16 => "movsx16",
        Extension::Zero8 => "movzx8",
        Extension::Zero16 => "movzx16",
    }
}

/// The mnemonic of a shift.
pub fn shift(shift: ShiftKind) -> &'static str
    ensures { result.now ≡ spec.shift shift }
{
    match shift {
        ShiftKind::Shl => "shl",
        ShiftKind::Shr => "shr",
        ShiftKind::Sar => "sar",
    }
}
