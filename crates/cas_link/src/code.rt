//! Resolved code.

ghost use Rattle.std.specs.Prelude.{◌≡◌, ◌+◌, ◌*◌, ◌<◌, ◌≤◌, ◌^◌, ◌++◌, [], ◌∷◌, map, length, count_by, IfOk, OnOk};
ghost use Rattle.std.specs.Option.{option_map};
ghost use Rattle.cas_asm.specs.Resolve.{resolved, resolved_mem, resolved_source, resolved_target, resolved_callee};
ghost use Rattle.cas_link.specs.Rows.{FindSame, FindSameNumber, found, found_number, or_zero};
ghost use Rattle.cas_link.specs.Parts.{is_run, size_of, sizes_of};
ghost use Rattle.cas_link.specs.Code.{address_of, addresses_of, places_from, labels_from, links_by, code_of, code_from};

use crate::parts::size_of;
use crate::table::{Labels, Symbols};
use cas_asm::{AsmFun, Callee, Instr, Line, Mem, Source, Target, WORD_BASE};
use cas_base::{Name, NoMemory, add, mul};
use cas_settle::CellRow;
use std::alloc::Global;

/// Where names are: the addresses of globals and locks, and the places of functions.
#[derive(Drop)]
pub(crate) struct Tables<'a> {
    /// The addresses.
    pub addresses: Symbols<'a>,
    /// The places.
    pub places: Symbols<'a>,
}

fn number_of(symbols: &Symbols, name: &Name) -> u32
    ensures { result ≡ or_zero (found symbols.now name.now) }
{
    symbols.find(name.as_str()).unwrap_or(0)
}

fn place_of(labels: &Labels, label: u32) -> u32
    ensures { result ≡ or_zero (found_number labels.now label) }
{
    labels.find(label).unwrap_or(0)
}

fn symbol(tables: &Tables, sym: &Option<Name>) -> Option<u32>
    ensures { result ≡ option_map (λ name. or_zero (found tables.now.addresses name)) sym.now }
{
    match sym {
        Some(name) => Some(number_of(&tables.addresses, name)),
        None => None,
    }
}

fn resolved_mem(tables: &Tables, labels: &Labels, mem: &Mem) -> Mem<u32>
    ensures { result ≡ resolved_mem (links_by tables.now.addresses tables.now.places labels.now) mem.now }
{
    Mem {
        sym: symbol(tables, &mem.sym),
        base: mem.base,
        index: mem.index,
        disp: mem.disp,
    }
}

fn resolved_source(tables: &Tables, labels: &Labels, source: &Source) -> Source<u32>
    ensures { result ≡ resolved_source (links_by tables.now.addresses tables.now.places labels.now) source.now }
{
    match source {
        Source::Reg(reg) => Source::Reg(*reg),
        Source::Num(number) => Source::Num(*number),
        Source::Mem(mem) => Source::Mem(resolved_mem(tables, labels, mem)),
    }
}

fn resolved_target(tables: &Tables, labels: &Labels, target: &Target) -> Target<u32>
    ensures { result ≡ resolved_target (links_by tables.now.addresses tables.now.places labels.now) target.now }
{
    match target {
        Target::Label(label) => Target::Label(place_of(labels, *label)),
        Target::Function(name) => Target::Function(number_of(&tables.places, name)),
    }
}

fn resolved_callee(tables: &Tables, labels: &Labels, callee: &Callee) -> Callee<u32>
    ensures { result ≡ resolved_callee (links_by tables.now.addresses tables.now.places labels.now) callee.now }
{
    match callee {
        Callee::Lock => Callee::Lock,
        Callee::Unlock => Callee::Unlock,
        Callee::Function(name) => Callee::Function(number_of(&tables.places, name)),
    }
}

/// The instruction with addresses and places.
fn resolved(tables: &Tables, labels: &Labels, instr: &Instr) -> Instr<u32>
    ensures { result ≡ resolved (links_by tables.now.addresses tables.now.places labels.now) instr.now }
{
    match instr {
        Instr::Mov(to, from) => Instr::Mov(*to, resolved_source(tables, labels, from)),
        Instr::Store(to, from) => Instr::Store(resolved_mem(tables, labels, to), *from),
        Instr::Extend(how, to, from) => Instr::Extend(*how, *to, *from),
        Instr::Lea(to, mem) => Instr::Lea(*to, resolved_mem(tables, labels, mem)),
        Instr::Operate(what, to, from) => Instr::Operate(
            *what,
            *to,
            resolved_source(tables, labels, from),
        ),
        Instr::Cmp(left, right) => Instr::Cmp(*left, resolved_source(tables, labels, right)),
        Instr::CmpMem(left, right) => Instr::CmpMem(resolved_mem(tables, labels, left), *right),
        Instr::Test(left, right) => Instr::Test(*left, *right),
        Instr::Neg(to) => Instr::Neg(*to),
        Instr::Not(to) => Instr::Not(*to),
        Instr::Shift(how, to, by) => Instr::Shift(*how, *to, *by),
        Instr::Cdq => Instr::Cdq,
        Instr::Idiv(by) => Instr::Idiv(*by),
        Instr::Div(by) => Instr::Div(*by),
        Instr::Push(from) => Instr::Push(*from),
        Instr::Pop(to) => Instr::Pop(*to),
        Instr::Jmp(to) => Instr::Jmp(resolved_target(tables, labels, to)),
        Instr::JumpIf(on, to) => Instr::JumpIf(*on, place_of(labels, *to)),
        Instr::Call(of) => Instr::Call(resolved_callee(tables, labels, of)),
        Instr::Ret => Instr::Ret,
        Instr::Out => Instr::Out,
        Instr::LockDec(at) => Instr::LockDec(resolved_mem(tables, labels, at)),
        Instr::Set(on, to) => Instr::Set(*on, *to),
    }
}

// The resolved instructions of lines, at the end.
fn push_code(
    code: &mut Vec<Instr<u32>>,
    tables: &Tables,
    labels: &Labels,
    lines: &[Line],
) -> Result<(), NoMemory>
    ensures { OnOk result (code.new.items ≡ code.old.items ++ code_of
        (links_by tables.now.addresses tables.now.places labels.now) lines.now) }
{
    let mut rest = lines;
    'lines: while let Some((line, others)) = rest.split_first() {
        if let Line::Run(instr) = line {
            code.push(resolved(tables, labels, instr))?;
        }
        rest = others;
    }
    Ok(())
}

// A row for each label of lines that begin at a place.
fn add_labels(labels: &mut Labels, place: u32, lines: &[Line]) -> Result<(), NoMemory>
    requires { place + count_by is_run lines.now < 2 ^ 32 }
    ensures { OnOk result (FindSameNumber labels.new (labels.old ++ labels_from place lines.now)) }
{
    let mut at = place;
    let mut rest = lines;
    'lines: while let Some((line, others)) = rest.split_first() {
        match line {
            Line::Label(label) => labels.add(*label, at)?,
            Line::Run(_) => at += 1,
        }
        rest = others;
    }
    Ok(())
}

// The resolved instructions of a function that begins at a place, at the end.
fn push_function(
    alloc: Global,
    code: &mut Vec<Instr<u32>>,
    tables: &Tables,
    place: u32,
    fun: &AsmFun,
) -> Result<(), NoMemory>
    requires { place + size_of fun.now < 2 ^ 32 }
    ensures { OnOk result (code.new.items ≡ code.old.items ++ code_of (links_by tables.now.addresses tables.now.places
        (labels_from place fun.now.lines)) fun.now.lines) }
{
    let mut labels = Labels::new(alloc);
    add_labels(&mut labels, place, fun.lines.as_slice())?;
    push_code(code, tables, &labels, fun.lines.as_slice())
}

/// The resolved instructions of functions, the first of which begins at a place, at the end.
pub(crate) fn push_functions(
    alloc: Global,
    code: &mut Vec<Instr<u32>>,
    tables: &Tables,
    place: u32,
    funs: &[&AsmFun],
) -> Result<(), NoMemory>
    requires { place + sizes_of (map (λ f. f.now) funs.now) < 2 ^ 32 }
    ensures { OnOk result (code.new.items ≡ code.old.items ++ code_from tables.now.addresses tables.now.places place
        (map (λ f. f.now) funs.now)) }
{
    let mut at = place;
    for fun in funs {
        push_function(alloc, code, tables, at, fun)?;
        at += size_of(fun) as u32;
    }
    Ok(())
}

/// A row for each function's place, the first at a place.
pub(crate) fn add_places<'a>(
    places: &mut Symbols<'a>,
    place: u32,
    funs: &[&'a AsmFun],
) -> Result<(), NoMemory>
    requires { place + sizes_of (map (λ f. f.now) funs.now) < 2 ^ 32 }
    ensures { OnOk result (FindSame places.new (places.old ++ places_from place (map (λ f. f.now) funs.now))) }
{
    let mut at = place;
    for fun in funs {
        places.add(&fun.name, at)?;
        at += size_of(fun) as u32;
    }
    Ok(())
}

/// The address of a word.
pub(crate) fn address_of(word: u32) -> u32
    ensures { result ≡ address_of word }
{
    add(WORD_BASE, mul(4, word))
}

/// A row for the address of each cell.
pub(crate) fn add_addresses<'a>(
    addresses: &mut Symbols<'a>,
    cells: &'a [CellRow],
) -> Result<(), NoMemory>
    ensures { OnOk result (FindSame addresses.new (addresses.old ++ addresses_of cells.now)) }
{
    let mut rest = cells;
    'cells: while let Some((cell, others)) = rest.split_first() {
        addresses.add(&cell.name, address_of(cell.first))?;
        rest = others;
    }
    Ok(())
}
