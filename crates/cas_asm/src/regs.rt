//! The words of the eight registers, and what an instruction changes apart from memory.

ghost use Rattle.std.specs.Prelude.{◌≡◌};
ghost use Rattle.cas_asm.specs.Registers.{reg, with_reg, no_regs};

use crate::flags::Flags;
use cas_base::Reg;

/// The words of the eight registers.
#[derive(Clone, Copy, Debug, PartialEq, Eq)]
pub struct Regs {
    /// eax.
    pub eax: u32,
    /// ecx.
    pub ecx: u32,
    /// edx.
    pub edx: u32,
    /// ebx.
    pub ebx: u32,
    /// esp.
    pub esp: u32,
    /// ebp.
    pub ebp: u32,
    /// esi.
    pub esi: u32,
    /// edi.
    pub edi: u32,
}

impl Regs {
    /// All registers 0.
    pub fn zero() -> Regs
        ensures { result ≡ no_regs }
    {
        Regs {
            eax: 0,
            ecx: 0,
            edx: 0,
            ebx: 0,
            esp: 0,
            ebp: 0,
            esi: 0,
            edi: 0,
        }
    }

    /// The word of a register.
    pub fn get(self, of: Reg) -> u32
        ensures { result ≡ reg self of }
    {
        match of {
            Reg::Eax => self.eax,
            Reg::Ecx => self.ecx,
            Reg::Edx => self.edx,
            Reg::Ebx => self.ebx,
            Reg::Esp => self.esp,
            Reg::Ebp => self.ebp,
            Reg::Esi => self.esi,
            Reg::Edi => self.edi,
        }
    }

    /// The registers with another word in one of them.
    pub fn with(self, to: Reg, value: u32) -> Regs
        ensures { result ≡ with_reg self to value }
    {
        match to {
            Reg::Eax => Regs { eax: value, ..self },
            Reg::Ecx => Regs { ecx: value, ..self },
            Reg::Edx => Regs { edx: value, ..self },
            Reg::Ebx => Regs { ebx: value, ..self },
            Reg::Esp => Regs { esp: value, ..self },
            Reg::Ebp => Regs { ebp: value, ..self },
            Reg::Esi => Regs { esi: value, ..self },
            Reg::Edi => Regs { edi: value, ..self },
        }
    }
}

/// The registers, the flags and the place of the next instruction.
#[derive(Clone, Copy, Debug, PartialEq, Eq)]
pub struct Core {
    /// The registers.
    pub regs: Regs,
    /// The flags.
    pub flags: Flags,
    /// The place of the next instruction.
    pub place: u32,
}

/// A store.
#[derive(Clone, Copy, Debug, PartialEq, Eq)]
pub struct Write {
    /// The address.
    pub at: u32,
    /// The stored word.
    pub value: u32,
}
