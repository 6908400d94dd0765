//! Names in code: each is a function's after `call` and `jmp`, and a global's or a lock's in an operand.

ghost use Rattle.std.specs.Prelude.{◌≡◌, ◌++◌, is_some, map, IfOk, OnOk};
ghost use Rattle.std.specs.Option.{option_map};
ghost use Rattle.cas_settle.specs.declared.link.LinkFault.TheVariants.{NotDefined};
ghost use Rattle.cas_settle.specs.Refusal.{IsRefusedBy};
ghost use Rattle.cas_link.specs.Rows.{FindSame, found};
ghost use Rattle.cas_link.specs.Refusal.{source_symbol, data_name, function_name, unless, unknown_in, unknown_in_lines, unknown_in_functions};
ghost use Rattle.cas_link.specs.Known.{data_rows, function_rows};

use crate::table::Symbols;
use cas_asm::{AsmFun, Callee, Instr, Line, Source, Target};
use cas_base::{Global as Datum, Name, NoMemory};
use cas_settle::LinkFault;
use std::alloc::Global;

// One row for each global and lock.
fn add_data<'a>(cells: &mut Symbols<'a>, globals: &[&'a Datum]) -> Result<(), NoMemory>
    ensures { OnOk result (FindSame cells.new (cells.old ++ data_rows (map (λ g. g.now) globals.now))) }
{
    for global in globals {
        cells.add(&global.decl.name, 0)?;
    }
    Ok(())
}

// One row for each function.
fn add_functions<'a>(functions: &mut Symbols<'a>, funs: &[&'a AsmFun]) -> Result<(), NoMemory>
    ensures { OnOk result (FindSame functions.new (functions.old ++ function_rows (map (λ f. f.now) funs.now))) }
{
    for fun in funs {
        functions.add(&fun.name, 0)?;
    }
    Ok(())
}

fn source_symbol(source: &Source) -> Option<&Name>
    ensures { option_map (λ name. name.now) result ≡ source_symbol source.now }
{
    match source {
        Source::Mem(mem) => mem.sym.as_ref(),
        _ => None,
    }
}

// The name of a global or lock in an operand.
fn data_name(instr: &Instr) -> Option<&Name>
    ensures { option_map (λ name. name.now) result ≡ data_name instr.now }
{
    match instr {
        Instr::Mov(_, from) | Instr::Operate(_, _, from) | Instr::Cmp(_, from) => source_symbol(
            from,
        ),
        Instr::Store(mem, _) | Instr::Lea(_, mem) | Instr::CmpMem(mem, _) | Instr::LockDec(mem) =>
            mem.sym.as_ref(),
        _ => None,
    }
}

// The name of a function after `call` or `jmp`.
fn function_name(instr: &Instr) -> Option<&Name>
    ensures { option_map (λ name. name.now) result ≡ function_name instr.now }
{
    match instr {
        Instr::Jmp(Target::Function(name)) | Instr::Call(Callee::Function(name)) => Some(name),
        _ => None,
    }
}

// The name, if there is one that has no row.
fn unless<'a>(known: &Symbols, name: Option<&'a Name>) -> Option<&'a Name>
    ensures { option_map (λ name. name.now) result ≡ unless (λ name. is_some (found known.now name)) (option_map
        (λ name. name.now) name.entry) }
{
    match name {
        Some(name) if !known.has(name.as_str()) => Some(name),
        _ => None,
    }
}

// The unknown name of a line.
fn unknown_in<'a>(cells: &Symbols, functions: &Symbols, line: &'a Line) -> Option<&'a Name>
    ensures { option_map (λ name. name.now) result ≡ unknown_in (λ name. is_some (found cells.now name))
        (λ name. is_some (found functions.now name)) line.now }
{
    let Line::Run(instr) = line else {
        return None;
    };
    match unless(cells, data_name(instr)) {
        Some(name) => Some(name),
        None => unless(functions, function_name(instr)),
    }
}

// The first unknown name of lines.
fn unknown_in_lines<'a>(cells: &Symbols, functions: &Symbols, lines: &'a [Line]) -> Option<&'a Name>
    ensures { option_map (λ name. name.now) result ≡ unknown_in_lines (λ name. is_some (found cells.now name))
        (λ name. is_some (found functions.now name)) lines.now }
{
    let mut rest = lines;
    'lines: while let Some((line, others)) = rest.split_first() {
        if let Some(name) = unknown_in(cells, functions, line) {
            return Some(name);
        }
        rest = others;
    }
    None
}

// The first unknown name of functions.
fn unknown_in_functions<'a>(
    cells: &Symbols,
    functions: &Symbols,
    funs: &[&'a AsmFun],
) -> Option<&'a Name>
    ensures { option_map (λ name. name.now) result ≡ unknown_in_functions (λ name. is_some (found cells.now name))
        (λ name. is_some (found functions.now name)) (map (λ f. f.now) funs.now) }
{
    for fun in funs {
        if let Some(name) = unknown_in_lines(cells, functions, fun.lines.as_slice()) {
            return Some(name);
        }
    }
    None
}

/// Checks the names in the code of these functions.
pub(crate) fn check_names(
    alloc: Global,
    globals: &[&Datum],
    funs: &[&AsmFun],
) -> Result<(), LinkFault>
    ensures { IsRefusedBy result (option_map NotDefined (unknown_in_functions
        (λ name. is_some (found (data_rows (map (λ g. g.now) globals.now)) name))
        (λ name. is_some (found (function_rows (map (λ f. f.now) funs.now)) name))
        (map (λ f. f.now) funs.now))) }
{
    let mut cells = Symbols::new(alloc);
    add_data(&mut cells, globals)?;
    let mut functions = Symbols::new(alloc);
    add_functions(&mut functions, funs)?;
    match unknown_in_functions(&cells, &functions, funs) {
        Some(name) => Err(LinkFault::NotDefined(name.copy(alloc)?)),
        None => Ok(()),
    }
}
