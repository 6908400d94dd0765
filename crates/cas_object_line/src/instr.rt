//! Instructions: a mnemonic and its operands.

ghost use Rattle.std.specs.Prelude.{◌≡◌};
ghost use Rattle.cas_object_line.specs.Answers.{IsAnswer};
ghost use Rattle.cas_object_line.specs.Instructions as spec;

use crate::fault::LineFault;
use crate::group::{extension_of, jump_condition, operation_of, shift_of};
use crate::mnemonic::Mnemonic;
use crate::number::{count_of, displacement_of, label_of, word_of};
use crate::operand::{Address, Numeral, Operand};
use crate::tables::Tables;
use cas_asm::{Callee, Cond, Count, Instr, Mem, ShiftKind, Source, Target, Value};
use cas_base::{Name, NameFault, Reg};
use cas_pieces::Word;
use std::alloc::Global;

/// An instruction without operands.
pub fn bare(mnemonic: Mnemonic) -> Result<Instr, LineFault>
    ensures { result ≡ spec.bare mnemonic }
{
    match mnemonic {
        Mnemonic::Cdq => Ok(Instr::Cdq),
        Mnemonic::Ret => Ok(Instr::Ret),
        _ => Err(LineFault::Form),
    }
}

/// An instruction with one operand.
pub fn unary(alloc: Global, mnemonic: Mnemonic, operand: &Operand) -> Result<Instr, LineFault>
    ensures { IsAnswer result (spec.unary mnemonic operand.now) }
{
    match operand {
        Operand::Reg(reg) => of_register(mnemonic, *reg),
        Operand::Label(label) => to_label(mnemonic, label),
        Operand::Symbol(symbol) => to_symbol(alloc, mnemonic, symbol),
        Operand::Memory(address) => of_memory(alloc, mnemonic, address),
        Operand::Word(word) => of_word(mnemonic, word),
        Operand::Number(_) => Err(LineFault::Form),
    }
}

/// An instruction with two operands.
pub fn binary(
    alloc: Global,
    tables: &Tables,
    mnemonic: Mnemonic,
    first: &Operand,
    second: &Operand,
) -> Result<Instr, LineFault>
    ensures { IsAnswer result (spec.binary mnemonic first.now second.now) }
{
    match first {
        Operand::Reg(reg) => into_register(alloc, mnemonic, *reg, second),
        Operand::Memory(address) => into_memory(alloc, mnemonic, address, second),
        Operand::Word(word) => by_condition(mnemonic, tables.condition(word.as_str()), second),
        _ => Err(LineFault::Form),
    }
}

fn of_register(mnemonic: Mnemonic, reg: Reg) -> Result<Instr, LineFault>
    ensures { result ≡ spec.of_register mnemonic reg }
{
    match mnemonic {
        Mnemonic::Neg => Ok(Instr::Neg(reg)),
        Mnemonic::Not => Ok(Instr::Not(reg)),
        Mnemonic::Idiv => Ok(Instr::Idiv(reg)),
        Mnemonic::Div => Ok(Instr::Div(reg)),
        Mnemonic::Push => Ok(Instr::Push(reg)),
        Mnemonic::Pop => Ok(Instr::Pop(reg)),
        Mnemonic::Out => out(reg),
        _ => Err(LineFault::Form),
    }
}

fn out(reg: Reg) -> Result<Instr, LineFault>
    ensures { result ≡ spec.out reg }
{
    match reg {
        Reg::Eax => Ok(Instr::Out),
        _ => Err(LineFault::Form),
    }
}

fn to_label(mnemonic: Mnemonic, digits: &Word) -> Result<Instr, LineFault>
    ensures { result ≡ spec.to_label mnemonic digits.now }
{
    match mnemonic {
        Mnemonic::Jmp => match label_of(digits) {
            Ok(label) => Ok(Instr::Jmp(Target::Label(label))),
            Err(fault) => Err(fault),
        },
        _ => match jump_condition(mnemonic) {
            Some(on) => jump_if(on, digits),
            None => Err(LineFault::Form),
        },
    }
}

fn jump_if(on: Cond, digits: &Word) -> Result<Instr, LineFault>
    ensures { result ≡ spec.jump_if on digits.now }
{
    match label_of(digits) {
        Ok(label) => Ok(Instr::JumpIf(on, label)),
        Err(fault) => Err(fault),
    }
}

fn to_symbol(alloc: Global, mnemonic: Mnemonic, symbol: &Word) -> Result<Instr, LineFault>
    ensures { IsAnswer result (spec.to_symbol mnemonic symbol.now) }
{
    match mnemonic {
        Mnemonic::Jmp => match name_of(alloc, symbol) {
            Ok(name) => Ok(Instr::Jmp(Target::Function(name))),
            Err(fault) => Err(fault),
        },
        Mnemonic::Call => match name_of(alloc, symbol) {
            Ok(name) => Ok(Instr::Call(Callee::Function(name))),
            Err(fault) => Err(fault),
        },
        _ => Err(LineFault::Form),
    }
}

/// The name that a word is.
pub fn name_of(alloc: Global, word: &Word) -> Result<Name, LineFault>
    ensures { IsAnswer result (spec.name_of word.now) }
{
    match Name::new(alloc, word.as_str()) {
        Ok(name) => Ok(name),
        Err(NameFault::Shape) => Err(LineFault::Form),
        Err(NameFault::Memory) => Err(LineFault::Memory),
    }
}

fn of_word(mnemonic: Mnemonic, word: &Word) -> Result<Instr, LineFault>
    ensures { result ≡ spec.of_word mnemonic word.now }
{
    match mnemonic {
        Mnemonic::Call => to_lock_object(word),
        _ => Err(LineFault::Form),
    }
}

fn to_lock_object(word: &Word) -> Result<Instr, LineFault>
    ensures { result ≡ spec.to_lock_object word.now }
{
    if word.as_str() == "lock" {
        Ok(Instr::Call(Callee::Lock))
    } else if word.as_str() == "unlock" {
        Ok(Instr::Call(Callee::Unlock))
    } else {
        Err(LineFault::Form)
    }
}

fn of_memory(alloc: Global, mnemonic: Mnemonic, address: &Address) -> Result<Instr, LineFault>
    ensures { IsAnswer result (spec.of_memory mnemonic address.now) }
{
    match mnemonic {
        Mnemonic::Lockdec => match mem_of(alloc, address) {
            Ok(mem) => Ok(Instr::LockDec(mem)),
            Err(fault) => Err(fault),
        },
        _ => Err(LineFault::Form),
    }
}

// The place in memory that an operand is.
fn mem_of(alloc: Global, address: &Address) -> Result<Mem, LineFault>
    ensures { IsAnswer result (spec.mem_of address.now) }
{
    match displacement_of(&address.number) {
        Ok(disp) => mem_with(alloc, address, disp),
        Err(fault) => Err(fault),
    }
}

fn mem_with(alloc: Global, address: &Address, disp: i32) -> Result<Mem, LineFault>
    ensures { IsAnswer result (spec.mem_with address.now disp) }
{
    match &address.symbol {
        None => Ok(Mem {
            sym: None,
            base: address.base,
            index: address.index,
            disp,
        }),
        Some(symbol) => match name_of(alloc, symbol) {
            Ok(name) => Ok(Mem {
                sym: Some(name),
                base: address.base,
                index: address.index,
                disp,
            }),
            Err(fault) => Err(fault),
        },
    }
}

fn into_register(
    alloc: Global,
    mnemonic: Mnemonic,
    reg: Reg,
    from: &Operand,
) -> Result<Instr, LineFault>
    ensures { IsAnswer result (spec.into_register mnemonic reg from.now) }
{
    match from {
        Operand::Reg(from) => from_register(mnemonic, reg, *from),
        Operand::Number(numeral) => from_number(mnemonic, reg, numeral),
        Operand::Memory(address) => from_memory(alloc, mnemonic, reg, address),
        _ => Err(LineFault::Form),
    }
}

fn from_register(mnemonic: Mnemonic, reg: Reg, from: Reg) -> Result<Instr, LineFault>
    ensures { result ≡ spec.from_register mnemonic reg from }
{
    match mnemonic {
        Mnemonic::Mov => Ok(Instr::Mov(reg, Source::Reg(from))),
        Mnemonic::Cmp => Ok(Instr::Cmp(reg, Source::Reg(from))),
        Mnemonic::Test => Ok(Instr::Test(reg, Value::Reg(from))),
        _ => grouped(mnemonic, reg, from),
    }
}

fn grouped(mnemonic: Mnemonic, reg: Reg, from: Reg) -> Result<Instr, LineFault>
    ensures { result ≡ spec.grouped mnemonic reg from }
{
    if let Some(operation) = operation_of(mnemonic) {
        return Ok(Instr::Operate(operation, reg, Source::Reg(from)));
    }
    if let Some(extension) = extension_of(mnemonic) {
        return Ok(Instr::Extend(extension, reg, from));
    }
    match shift_of(mnemonic) {
        Some(shift) => by_ecx(shift, reg, from),
        None => Err(LineFault::Form),
    }
}

fn by_ecx(shift: ShiftKind, reg: Reg, from: Reg) -> Result<Instr, LineFault>
    ensures { result ≡ spec.by_ecx shift reg from }
{
    match from {
        Reg::Ecx => Ok(Instr::Shift(shift, reg, Count::Ecx)),
        _ => Err(LineFault::Form),
    }
}

fn from_number(mnemonic: Mnemonic, reg: Reg, numeral: &Numeral) -> Result<Instr, LineFault>
    ensures { result ≡ spec.from_number mnemonic reg numeral.now }
{
    match shift_of(mnemonic) {
        Some(shift) => match count_of(numeral) {
            Ok(count) => Ok(Instr::Shift(shift, reg, Count::Fixed(count))),
            Err(fault) => Err(fault),
        },
        None => match with_word(mnemonic, reg, 0) {
            Ok(_) => immediate(mnemonic, reg, numeral),
            Err(fault) => Err(fault),
        },
    }
}

fn immediate(mnemonic: Mnemonic, reg: Reg, numeral: &Numeral) -> Result<Instr, LineFault>
    ensures { result ≡ spec.immediate mnemonic reg numeral.now }
{
    match word_of(numeral) {
        Ok(word) => with_word(mnemonic, reg, word),
        Err(fault) => Err(fault),
    }
}

fn with_word(mnemonic: Mnemonic, reg: Reg, word: u32) -> Result<Instr, LineFault>
    ensures { result ≡ spec.with_word mnemonic reg word }
{
    match mnemonic {
        Mnemonic::Mov => Ok(Instr::Mov(reg, Source::Num(word))),
        Mnemonic::Cmp => Ok(Instr::Cmp(reg, Source::Num(word))),
        Mnemonic::Test => Ok(Instr::Test(reg, Value::Num(word))),
        _ => match operation_of(mnemonic) {
            Some(operation) => Ok(Instr::Operate(operation, reg, Source::Num(word))),
            None => Err(LineFault::Form),
        },
    }
}

fn from_memory(
    alloc: Global,
    mnemonic: Mnemonic,
    reg: Reg,
    address: &Address,
) -> Result<Instr, LineFault>
    ensures { IsAnswer result (spec.from_memory mnemonic reg address.now) }
{
    if !takes_memory(mnemonic) {
        return Err(LineFault::Form);
    }
    match mem_of(alloc, address) {
        Ok(mem) => with_mem(mnemonic, reg, mem),
        Err(fault) => Err(fault),
    }
}

// Whether a mnemonic has a form with a register and a place in memory.
fn takes_memory(mnemonic: Mnemonic) -> bool
    ensures { result ≡ spec.takes_memory mnemonic }
{
    match mnemonic {
        Mnemonic::Mov | Mnemonic::Lea | Mnemonic::Cmp => true,
        _ => operation_of(mnemonic).is_some(),
    }
}

fn with_mem(mnemonic: Mnemonic, reg: Reg, mem: Mem) -> Result<Instr, LineFault>
    ensures { result ≡ spec.with_mem mnemonic reg mem }
{
    match mnemonic {
        Mnemonic::Mov => Ok(Instr::Mov(reg, Source::Mem(mem))),
        Mnemonic::Lea => Ok(Instr::Lea(reg, mem)),
        Mnemonic::Cmp => Ok(Instr::Cmp(reg, Source::Mem(mem))),
        _ => match operation_of(mnemonic) {
            Some(operation) => Ok(Instr::Operate(operation, reg, Source::Mem(mem))),
            None => Err(LineFault::Form),
        },
    }
}

fn into_memory(
    alloc: Global,
    mnemonic: Mnemonic,
    address: &Address,
    from: &Operand,
) -> Result<Instr, LineFault>
    ensures { IsAnswer result (spec.into_memory mnemonic address.now from.now) }
{
    match from {
        Operand::Reg(reg) => store_register(alloc, mnemonic, address, *reg),
        Operand::Number(numeral) => number_with_memory(alloc, mnemonic, address, numeral),
        _ => Err(LineFault::Form),
    }
}

fn store_register(
    alloc: Global,
    mnemonic: Mnemonic,
    address: &Address,
    reg: Reg,
) -> Result<Instr, LineFault>
    ensures { IsAnswer result (spec.store_register mnemonic address.now reg) }
{
    match mnemonic {
        Mnemonic::Mov => match mem_of(alloc, address) {
            Ok(mem) => Ok(Instr::Store(mem, Value::Reg(reg))),
            Err(fault) => Err(fault),
        },
        _ => Err(LineFault::Form),
    }
}

fn number_with_memory(
    alloc: Global,
    mnemonic: Mnemonic,
    address: &Address,
    numeral: &Numeral,
) -> Result<Instr, LineFault>
    ensures { IsAnswer result (spec.number_with_memory mnemonic address.now numeral.now) }
{
    match mnemonic {
        Mnemonic::Mov | Mnemonic::Cmp => match word_of(numeral) {
            Ok(word) => word_with_memory(alloc, mnemonic, address, word),
            Err(fault) => Err(fault),
        },
        _ => Err(LineFault::Form),
    }
}

fn word_with_memory(
    alloc: Global,
    mnemonic: Mnemonic,
    address: &Address,
    word: u32,
) -> Result<Instr, LineFault>
    ensures { IsAnswer result (spec.word_with_memory mnemonic address.now word) }
{
    match mem_of(alloc, address) {
        Ok(mem) => word_with_mem(mnemonic, mem, word),
        Err(fault) => Err(fault),
    }
}

fn word_with_mem(mnemonic: Mnemonic, mem: Mem, word: u32) -> Result<Instr, LineFault>
    ensures { result ≡ spec.word_with_mem mnemonic mem word }
{
    match mnemonic {
        Mnemonic::Mov => Ok(Instr::Store(mem, Value::Num(word))),
        Mnemonic::Cmp => Ok(Instr::CmpMem(mem, word)),
        _ => Err(LineFault::Form),
    }
}

// `set` with a condition and a register.
fn by_condition(mnemonic: Mnemonic, on: Option<Cond>, operand: &Operand) -> Result<Instr, LineFault>
    ensures { result ≡ spec.by_condition mnemonic on operand.now }
{
    match mnemonic {
        Mnemonic::Set => match on {
            Some(on) => set(on, operand),
            None => Err(LineFault::Form),
        },
        _ => Err(LineFault::Form),
    }
}

fn set(on: Cond, operand: &Operand) -> Result<Instr, LineFault>
    ensures { result ≡ spec.set on operand.now }
{
    match operand {
        Operand::Reg(reg) => Ok(Instr::Set(on, *reg)),
        _ => Err(LineFault::Form),
    }
}
