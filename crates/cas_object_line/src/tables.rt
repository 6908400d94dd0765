//! The tables of words: mnemonics, conditions and registers.

ghost use Rattle.std.specs.Prelude.{◌≡◌, slice_get};
ghost use Rattle.cas_object_line.specs.Tables as spec;

use crate::mnemonic::Mnemonic;
use cas_asm::Cond;
use cas_base::{Names, Reg, cases};

const MNEMONIC_COUNT: usize = 46;

const MNEMONICS: &str =
    "mov movsx8 movsx16 movzx8 movzx16 lea add sub cmp and or xor test neg not imul shl shr sar cdq idiv div push pop jmp call ret out lockdec set jo jno jb jae je jne jbe ja js jns jp jnp jl jge jle jg";

const CONDITION_COUNT: usize = 16;

const CONDITIONS: &str = "o no b ae e ne be a s ns p np l ge le g";

const REGISTER_COUNT: usize = 8;

const REGISTERS: &str = "eax ecx edx ebx esp ebp esi edi";

macro_rules! mnemonics {
    ($direction:ident $of:expr) => {
        cases!($direction $of;
            0 => Mnemonic::Mov,
            1 => Mnemonic::Movsx8,
            2 => Mnemonic::Movsx16,
            3 => Mnemonic::Movzx8,
            4 => Mnemonic::Movzx16,
            5 => Mnemonic::Lea,
            6 => Mnemonic::Add,
            7 => Mnemonic::Sub,
            8 => Mnemonic::Cmp,
            9 => Mnemonic::And,
            10 => Mnemonic::Or,
            11 => Mnemonic::Xor,
            12 => Mnemonic::Test,
            13 => Mnemonic::Neg,
            14 => Mnemonic::Not,
            15 => Mnemonic::Imul,
            16 => Mnemonic::Shl,
            17 => Mnemonic::Shr,
            18 => Mnemonic::Sar,
            19 => Mnemonic::Cdq,
            20 => Mnemonic::Idiv,
            21 => Mnemonic::Div,
            22 => Mnemonic::Push,
            23 => Mnemonic::Pop,
            24 => Mnemonic::Jmp,
            25 => Mnemonic::Call,
            26 => Mnemonic::Ret,
            27 => Mnemonic::Out,
            28 => Mnemonic::Lockdec,
            29 => Mnemonic::Set,
            30 => Mnemonic::Jo,
            31 => Mnemonic::Jno,
            32 => Mnemonic::Jb,
            33 => Mnemonic::Jae,
            34 => Mnemonic::Je,
            35 => Mnemonic::Jne,
            36 => Mnemonic::Jbe,
            37 => Mnemonic::Ja,
            38 => Mnemonic::Js,
            39 => Mnemonic::Jns,
            40 => Mnemonic::Jp,
            41 => Mnemonic::Jnp,
            42 => Mnemonic::Jl,
            43 => Mnemonic::Jge,
            44 => Mnemonic::Jle,
            45 => Mnemonic::Jg,
        )
    };
}

macro_rules! conditions {
    ($direction:ident $of:expr) => {
        cases!($direction $of;
            0 => Cond::O,
            1 => Cond::No,
            2 => Cond::B,
            3 => Cond::Ae,
            4 => Cond::E,
            5 => Cond::Ne,
            6 => Cond::Be,
            7 => Cond::A,
            8 => Cond::S,
            9 => Cond::Ns,
            10 => Cond::P,
            11 => Cond::Np,
            12 => Cond::L,
            13 => Cond::Ge,
            14 => Cond::Le,
            15 => Cond::G,
        )
    };
}

macro_rules! registers {
    ($direction:ident $of:expr) => {
        cases!($direction $of;
            0 => Reg::Eax,
            1 => Reg::Ecx,
            2 => Reg::Edx,
            3 => Reg::Ebx,
            4 => Reg::Esp,
            5 => Reg::Ebp,
            6 => Reg::Esi,
            7 => Reg::Edi,
        )
    };
}

/// The tables of words of an objects text.
#[derive(Debug, Drop)]
pub struct Tables {
    mnemonics: Names<'static, MNEMONIC_COUNT>,
    conditions: Names<'static, CONDITION_COUNT>,
    registers: Names<'static, REGISTER_COUNT>,
    ghost mnemonic_rows: { mnemonics ≡ spec.mnemonic_rows },
    ghost condition_rows: { conditions ≡ spec.condition_rows },
    ghost register_rows: { registers ≡ spec.register_rows },
}

fn mnemonic_table() -> Names<'static, MNEMONIC_COUNT>
    ensures { result ≡ spec.mnemonic_rows }
{
    match Names::new(MNEMONICS) {
        Some(names) => names,
        None => unreachable!(),
    }
}

fn condition_table() -> Names<'static, CONDITION_COUNT>
    ensures { result ≡ spec.condition_rows }
{
    match Names::new(CONDITIONS) {
        Some(names) => names,
        None => unreachable!(),
    }
}

fn register_table() -> Names<'static, REGISTER_COUNT>
    ensures { result ≡ spec.register_rows }
{
    match Names::new(REGISTERS) {
        Some(names) => names,
        None => unreachable!(),
    }
}

impl Tables {
    /// The tables.
    pub fn new() -> Tables {
        Tables {
            mnemonics: mnemonic_table(),
            conditions: condition_table(),
            registers: register_table(),
        }
    }

    /// The mnemonic with this text.
    pub fn mnemonic(&self, text: &str) -> Option<Mnemonic>
        ensures { result ≡ spec.mnemonic_of text.now }
    {
        match self.mnemonics.find(text) {
            Some(row) => mnemonic_at(row),
            None => None,
        }
    }

    /// The condition with this text.
    pub fn condition(&self, text: &str) -> Option<Cond>
        ensures { result ≡ spec.condition_of text.now }
    {
        match self.conditions.find(text) {
            Some(row) => condition_at(row),
            None => None,
        }
    }

    /// The register with this text.
    pub fn register(&self, text: &str) -> Option<Reg>
        ensures { result ≡ spec.register_of text.now }
    {
        match self.registers.find(text) {
            Some(row) => register_at(row),
            None => None,
        }
    }
}

fn mnemonic_at(row: usize) -> Option<Mnemonic>
    ensures { result ≡ slice_get spec.mnemonics row }
{
    mnemonics!(case_at row)
}

fn condition_at(row: usize) -> Option<Cond>
    ensures { result ≡ slice_get spec.conditions row }
{
    conditions!(case_at row)
}

fn register_at(row: usize) -> Option<Reg>
    ensures { result ≡ slice_get spec.registers row }
{
    registers!(case_at row)
}
