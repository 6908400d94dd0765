//! Operands.

ghost use Rattle.std.specs.Prelude.{◌≡◌, ℕ, IfOk, List};
ghost use Rattle.cas_base.specs.Word.{signed};
ghost use Rattle.cas_object_print.specs.Operands as spec;
ghost use Rattle.cas_object_print.specs.Page.{followed_by};

use crate::mnemonic::register;
use crate::page::Page;
use cas_asm::{Count, Mem, Source, Value};
use cas_base::{Name, NoMemory, Reg};

/// Writes a memory operand.
pub fn mem(page: &mut Page, mem: &Mem) -> Result<(), NoMemory>
    ensures { (rest : List ℕ)
        → IfOk result (λ _. followed_by page.new rest ≡ followed_by page.old (spec.mem mem.now rest)) }
{
    page.text("[")?;
    symbol(page, &mem.sym)?;
    base_onwards(page, mem)?;
    page.text("]")
}

// Writes the base, the index and the displacement.
fn base_onwards(page: &mut Page, mem: &Mem) -> Result<(), NoMemory>
    ensures { (rest : List ℕ)
        → IfOk result (λ _. followed_by page.new rest ≡ followed_by page.old (spec.base_onwards mem.now rest)) }
{
    base(page, is_there(&mem.sym), mem.base)?;
    index_onwards(page, mem)
}

// Writes the index and the displacement.
fn index_onwards(page: &mut Page, mem: &Mem) -> Result<(), NoMemory>
    ensures { (rest : List ℕ)
        → IfOk result (λ _. followed_by page.new rest ≡ followed_by page.old (spec.index_onwards mem.now rest)) }
{
    index(page, has_base(mem), mem.index)?;
    number(page, has_index(mem), &mem.disp)
}

// Whether a symbol or a base is there.
fn has_base(mem: &Mem) -> bool
    ensures { result ≡ spec.has_base mem.now }
{
    is_there(&mem.sym) || is_there(&mem.base)
}

// Whether a symbol, a base or an index is there.
fn has_index(mem: &Mem) -> bool
    ensures { result ≡ spec.has_index mem.now }
{
    has_base(mem) || is_there(&mem.index)
}

// Whether a part is there.
fn is_there<T>(part: &Option<T>) -> bool
    ensures { result ≡ spec.is_there part.now }
{
    match part {
        None => false,
        Some(_) => true,
    }
}

fn symbol(page: &mut Page, symbol: &Option<Name>) -> Result<(), NoMemory>
    ensures { (rest : List ℕ)
        → IfOk result (λ _. followed_by page.new rest ≡ followed_by page.old (spec.symbol_part symbol.now rest)) }
{
    match symbol {
        None => Ok(()),
        Some(name) => named(page, name),
    }
}

/// Writes a symbol.
pub fn named(page: &mut Page, name: &Name) -> Result<(), NoMemory>
    ensures { (rest : List ℕ)
        → IfOk result (λ _. followed_by page.new rest ≡ followed_by page.old (spec.named name.now rest)) }
{
    page.text("@")?;
    page.text(name.as_str())
}

// Writes what is between two parts.
fn joint(page: &mut Page, after_part: bool) -> Result<(), NoMemory>
    ensures { (rest : List ℕ)
        → IfOk result (λ _. followed_by page.new rest ≡ followed_by page.old (spec.joint after_part rest)) }
{
    if after_part { page.text("+") } else { Ok(()) }
}

fn base(page: &mut Page, after_part: bool, base: Option<Reg>) -> Result<(), NoMemory>
    ensures { (rest : List ℕ)
        → IfOk result (λ _. followed_by page.new rest ≡ followed_by page.old (spec.base_part after_part base rest)) }
{
    match base {
        None => Ok(()),
        Some(reg) => {
            joint(page, after_part)?;
            page.text(register(reg))
        }
    }
}

fn index(page: &mut Page, after_part: bool, index: Option<(Reg, bool)>) -> Result<(), NoMemory>
    ensures { (rest : List ℕ)
        → IfOk result (λ _. followed_by page.new rest ≡ followed_by page.old (spec.index_part after_part index rest)) }
{
    match index {
        None => Ok(()),
        Some((reg, by_four)) => {
            joint(page, after_part)?;
            page.text(register(reg))?;
            page.text(scale(by_four))
        }
    }
}

fn scale(by_four: bool) -> &'static str
    ensures { result.now ≡ spec.scale by_four }
{
    if by_four { "*4" } else { "*1" }
}

fn number(page: &mut Page, after_part: bool, disp: &i32) -> Result<(), NoMemory>
    ensures { (rest : List ℕ)
        → IfOk result (λ _. followed_by page.new rest
        ≡ followed_by page.old (spec.number_part after_part disp.now rest)) }
{
    if is_joined(after_part, disp) {
        page.integer(disp)
    } else if *disp == 0 {
        Ok(())
    } else {
        page.text("+")?;
        page.integer(disp)
    }
}

// Whether a number stands without `+`.
fn is_joined(after_part: bool, disp: &i32) -> bool
    ensures { result ≡ spec.is_joined after_part disp.now }
{
    !after_part || *disp < 0
}

/// Writes a word by its signed reading.
pub fn word(page: &mut Page, word: u32) -> Result<(), NoMemory>
    ensures { (rest : List ℕ)
        → IfOk result (λ _. followed_by page.new rest ≡ followed_by page.old (spec.word word rest)) }
{
    let value = signed(word);
    page.integer(&value)
}

fn signed(word: u32) -> i32
    ensures { result ≡ signed word }
{
    word.cast_signed()
}

/// Writes a register or a number.
pub fn value(page: &mut Page, value: Value) -> Result<(), NoMemory>
    ensures { (rest : List ℕ)
        → IfOk result (λ _. followed_by page.new rest ≡ followed_by page.old (spec.value value rest)) }
{
    match value {
        Value::Reg(reg) => page.text(register(reg)),
        Value::Num(number) => word(page, number),
    }
}

/// Writes a register, a number or a memory operand.
pub fn source(page: &mut Page, source: &Source) -> Result<(), NoMemory>
    ensures { (rest : List ℕ)
        → IfOk result (λ _. followed_by page.new rest ≡ followed_by page.old (spec.source source.now rest)) }
{
    match source {
        Source::Reg(reg) => page.text(register(*reg)),
        Source::Num(number) => word(page, *number),
        Source::Mem(place) => mem(page, place),
    }
}

/// Writes by how much a shift shifts.
pub fn count(page: &mut Page, count: Count) -> Result<(), NoMemory>
    ensures { (rest : List ℕ)
        → IfOk result (λ _. followed_by page.new rest ≡ followed_by page.old (spec.count count rest)) }
{
    match count {
        Count::Fixed(number) => page.number(number),
        Count::Ecx => page.text("ecx"),
    }
}

/// Writes a label.
pub fn label(page: &mut Page, label: u32) -> Result<(), NoMemory>
    ensures { (rest : List ℕ)
        → IfOk result (λ _. followed_by page.new rest ≡ followed_by page.old (spec.label label rest)) }
{
    page.text(".")?;
    page.number(label)
}
