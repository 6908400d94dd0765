//! Groups of mnemonics.

ghost use Rattle.std.specs.Prelude.{◌≡◌};
ghost use Rattle.cas_object_line.specs.Groups as spec;

use crate::mnemonic::Mnemonic;
use cas_asm::{Cond, Extension, Operation, ShiftKind};

/// The condition of a jump.
pub fn jump_condition(mnemonic: Mnemonic) -> Option<Cond>
    ensures { result ≡ spec.jump_condition mnemonic }
{
    match mnemonic {
        Mnemonic::Jo => Some(Cond::O),
        Mnemonic::Jno => Some(Cond::No),
        Mnemonic::Jb => Some(Cond::B),
        Mnemonic::Jae => Some(Cond::Ae),
        Mnemonic::Je => Some(Cond::E),
        Mnemonic::Jne => Some(Cond::Ne),
        Mnemonic::Jbe => Some(Cond::Be),
        Mnemonic::Ja => Some(Cond::A),
        Mnemonic::Js => Some(Cond::S),
        Mnemonic::Jns => Some(Cond::Ns),
        Mnemonic::Jp => Some(Cond::P),
        Mnemonic::Jnp => Some(Cond::Np),
        Mnemonic::Jl => Some(Cond::L),
        Mnemonic::Jge => Some(Cond::Ge),
        Mnemonic::Jle => Some(Cond::Le),
        Mnemonic::Jg => Some(Cond::G),
        _ => None,
    }
}

/// The operation of a mnemonic of arithmetic or logic.
pub fn operation_of(mnemonic: Mnemonic) -> Option<Operation>
    ensures { result ≡ spec.operation_of mnemonic }
{
    match mnemonic {
        Mnemonic::Add => Some(Operation::Add),
        Mnemonic::Sub => Some(Operation::Sub),
        Mnemonic::And => Some(Operation::And),
        Mnemonic::Or => Some(Operation::Or),
        Mnemonic::Xor => Some(Operation::Xor),
        Mnemonic::Imul => Some(Operation::Imul),
        _ => None,
    }
}

/// How a mnemonic extends.
pub fn extension_of(mnemonic: Mnemonic) -> Option<Extension>
    ensures { result ≡ spec.extension_of mnemonic }
{
    match mnemonic {
        Mnemonic::Movsx8 => Some(Extension::Sign8),
        Mnemonic::Movsx16 => Some(Extension::Sign16),
        Mnemonic::Movzx8 => Some(Extension::Zero8),
        Mnemonic::Movzx16 => Some(Extension::Zero16),
        _ => None,
    }
}

/// How a mnemonic shifts.
pub fn shift_of(mnemonic: Mnemonic) -> Option<ShiftKind>
    ensures { result ≡ spec.shift_of mnemonic }
{
    match mnemonic {
        Mnemonic::Shl => Some(ShiftKind::Shl),
        Mnemonic::Shr => Some(ShiftKind::Shr),
        Mnemonic::Sar => Some(ShiftKind::Sar),
        _ => None,
    }
}
