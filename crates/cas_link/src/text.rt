//! The text of a map.

ghost use Rattle.std.specs.Prelude.{◌≡◌, ◌+◌, ◌<◌, ◌^◌, ◌++◌, map, length, IfOk, OnOk, string_bytes};
ghost use Rattle.cas_link.specs.Parts.{size_of, sizes_of};
ghost use Rattle.cas_link.specs.Map.{data_line, data_lines, function_line, function_lines, threads_line};

use crate::code::address_of;
use crate::parts::size_of;
use cas_asm::AsmFun;
use cas_base::NoMemory;
use cas_settle::CellRow;
use std::alloc::Global;

// `data NAME ADDRESS WORDS`.
fn data_line(alloc: Global, cell: &CellRow) -> Result<String, NoMemory>
    ensures { IfOk result (λ line. string_bytes line ≡ data_line cell.now) }
{
    let name = cell.name.as_str();
    let address = address_of(cell.first);
    let words = cell.len;
    Ok(format!(in alloc; "data {name} {address} {words}\n")?)
}

/// A line for each global and lock, after this text.
pub(crate) fn put_data(alloc: Global, cells: &[CellRow], text: &mut String) -> Result<(), NoMemory>
    ensures { OnOk result (string_bytes text.new ≡ string_bytes text.old ++ data_lines cells.now) }
{
    let mut rest = cells;
    'cells: while let Some((cell, others)) = rest.split_first() {
        let line = data_line(alloc, cell)?;
        text.push_str(line.as_str())?;
        rest = others;
    }
    Ok(())
}

// `function NAME PLACE LENGTH`.
fn function_line(alloc: Global, place: u32, fun: &AsmFun) -> Result<String, NoMemory>
    ensures { IfOk result (λ line. string_bytes line ≡ function_line place fun.now) }
{
    let name = fun.name.as_str();
    let size = size_of(fun);
    Ok(format!(in alloc; "function {name} {place} {size}\n")?)
}

/// A line for each function, the first of which begins at a place, after this text.
pub(crate) fn put_functions(
    alloc: Global,
    place: u32,
    funs: &[&AsmFun],
    text: &mut String,
) -> Result<(), NoMemory>
    requires { place + sizes_of (map (λ f. f.now) funs.now) < 2 ^ 32 }
    ensures { OnOk result (string_bytes text.new
        ≡ string_bytes text.old ++ function_lines place (map (λ f. f.now) funs.now)) }
{
    let mut at = place;
    for fun in funs {
        let line = function_line(alloc, at, fun)?;
        text.push_str(line.as_str())?;
        at += size_of(fun) as u32;
    }
    Ok(())
}

/// `threads N`, after this text.
pub(crate) fn put_threads(alloc: Global, threads: usize, text: &mut String) -> Result<(), NoMemory>
    ensures { OnOk result (string_bytes text.new ≡ string_bytes text.old ++ threads_line threads) }
{
    let line = format!(in alloc; "threads {threads}\n")?;
    text.push_str(line.as_str())?;
    Ok(())
}
