//! Instructions.

ghost use Rattle.std.specs.Prelude.{◌≡◌, ℕ, IfOk, List};
ghost use Rattle.cas_object_print.specs.Instructions as spec;
ghost use Rattle.cas_object_print.specs.Page.{followed_by};

use crate::mnemonic::{condition, extension, operation, register, shift};
use crate::operand::{count, label, mem, named, source, value, word};
use crate::page::Page;
use cas_asm::{Callee, Instr, Line, Mem, Target};
use cas_base::{NoMemory, Reg};

/// Writes a line of a function.
pub fn line(page: &mut Page, line: &Line) -> Result<(), NoMemory>
    ensures { (rest : List ℕ)
        → IfOk result (λ _. followed_by page.new rest ≡ followed_by page.old (spec.line line.now rest)) }
{
    match line {
        Line::Label(number) => label(page, *number)?,
        Line::Run(instr) => self::instr(page, instr)?,
    }
    page.text("\n")
}

/// Writes an instruction.
pub fn instr(page: &mut Page, instr: &Instr) -> Result<(), NoMemory>
    ensures { (rest : List ℕ)
        → IfOk result (λ _. followed_by page.new rest ≡ followed_by page.old (spec.instr instr.now rest)) }
{
    match instr {
        Instr::Mov(reg, from) => {
            into_register(page, "mov", *reg)?;
            source(page, from)
        }
        Instr::Store(to, from) => {
            into_memory(page, "mov", to)?;
            value(page, *from)
        }
        Instr::Extend(how, reg, from) => two_registers(page, extension(*how), *reg, *from),
        Instr::Lea(reg, from) => {
            into_register(page, "lea", *reg)?;
            mem(page, from)
        }
        Instr::Operate(what, reg, from) => {
            into_register(page, operation(*what), *reg)?;
            source(page, from)
        }
        Instr::Cmp(reg, with) => {
            into_register(page, "cmp", *reg)?;
            source(page, with)
        }
        Instr::CmpMem(place, number) => {
            into_memory(page, "cmp", place)?;
            word(page, *number)
        }
        Instr::Test(reg, with) => {
            into_register(page, "test", *reg)?;
            value(page, *with)
        }
        Instr::Neg(reg) => of_register(page, "neg", *reg),
        Instr::Not(reg) => of_register(page, "not", *reg),
        Instr::Shift(how, reg, by) => {
            into_register(page, shift(*how), *reg)?;
            count(page, *by)
        }
        Instr::Cdq => page.text("cdq"),
        Instr::Idiv(reg) => of_register(page, "idiv", *reg),
        Instr::Div(reg) => of_register(page, "div", *reg),
        Instr::Push(reg) => of_register(page, "push", *reg),
        Instr::Pop(reg) => of_register(page, "pop", *reg),
        Instr::Jmp(to) => {
            page.text("jmp ")?;
            target(page, to)
        }
        Instr::JumpIf(on, to) => {
            page.text("j")?;
            page.text(condition(*on))?;
            page.text(" ")?;
            label(page, *to)
        }
        Instr::Call(whom) => {
            page.text("call ")?;
            callee(page, whom)
        }
        Instr::Ret => page.text("ret"),
        Instr::Out => page.text("out eax"),
        Instr::LockDec(place) => {
            page.text("lockdec ")?;
            mem(page, place)
        }
        Instr::Set(on, reg) => {
            page.text("set ")?;
            page.text(condition(*on))?;
            page.text(", ")?;
            page.text(register(*reg))
        }
    }
}

// Writes a mnemonic and a register.
fn of_register(page: &mut Page, mnemonic: &str, reg: Reg) -> Result<(), NoMemory>
    ensures { (rest : List ℕ)
        → IfOk result (λ _. followed_by page.new rest ≡ followed_by page.old (spec.of_register mnemonic.now reg rest)) }
{
    page.text(mnemonic)?;
    page.text(" ")?;
    page.text(register(reg))
}

// Writes a mnemonic, a register and what is before a second operand.
fn into_register(page: &mut Page, mnemonic: &str, reg: Reg) -> Result<(), NoMemory>
    ensures { (rest : List ℕ)
        → IfOk result (λ _. followed_by page.new rest
        ≡ followed_by page.old (spec.into_register mnemonic.now reg rest)) }
{
    of_register(page, mnemonic, reg)?;
    page.text(", ")
}

// Writes a mnemonic and two registers.
fn two_registers(page: &mut Page, mnemonic: &str, reg: Reg, from: Reg) -> Result<(), NoMemory>
    ensures { (rest : List ℕ)
        → IfOk result (λ _. followed_by page.new rest
        ≡ followed_by page.old (spec.two_registers mnemonic.now reg from rest)) }
{
    into_register(page, mnemonic, reg)?;
    page.text(register(from))
}

// Writes a mnemonic, a place in memory and what is before a second operand.
fn into_memory(page: &mut Page, mnemonic: &str, place: &Mem) -> Result<(), NoMemory>
    ensures { (rest : List ℕ)
        → IfOk result (λ _. followed_by page.new rest
        ≡ followed_by page.old (spec.into_memory mnemonic.now place.now rest)) }
{
    page.text(mnemonic)?;
    page.text(" ")?;
    mem(page, place)?;
    page.text(", ")
}

fn target(page: &mut Page, target: &Target) -> Result<(), NoMemory>
    ensures { (rest : List ℕ)
        → IfOk result (λ _. followed_by page.new rest ≡ followed_by page.old (spec.target target.now rest)) }
{
    match target {
        Target::Label(number) => label(page, *number),
        Target::Function(name) => named(page, name),
    }
}

fn callee(page: &mut Page, callee: &Callee) -> Result<(), NoMemory>
    ensures { (rest : List ℕ)
        → IfOk result (λ _. followed_by page.new rest ≡ followed_by page.old (spec.callee callee.now rest)) }
{
    match callee {
        Callee::Lock => page.text("lock"),
        Callee::Unlock => page.text("unlock"),
        Callee::Function(name) => named(page, name),
    }
}
