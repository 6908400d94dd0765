//! The image of settled objects.

ghost use Rattle.std.specs.Prelude.{◌≡◌, ◌+◌, ◌*◌, ◌<◌, ◌≤◌, ◌^◌, ◌++◌, [], ◌∷◌, All, map, length, replicate, if◌then◌else◌, IfOk, OnOk};
ghost use Rattle.cas_link.specs.Rows.{FindSame, found, or_zero};
ghost use Rattle.cas_link.specs.Code.{addresses_of};
ghost use Rattle.cas_link.specs.Image_of.{first_words, words_in, constants_in, guards_in, locks_in};

use crate::table::Symbols;
use cas_base::{Global as Datum, Name, NoMemory};
use cas_settle::CellRow;
use std::alloc::Global;

// A value so many times at the end.
fn push_repeated<T: Copy>(items: &mut Vec<T>, value: T, times: u32) -> Result<(), NoMemory>
    ensures { OnOk result (items.new.items ≡ items.old.items ++ replicate times value) }
{
    let mut left = times;
    while left > 0 {
        items.push(value)?;
        left -= 1;
    }
    Ok(())
}

// The initial words of a global at the end.
fn push_words(words: &mut Vec<u32>, global: &Datum) -> Result<(), NoMemory>
    ensures { OnOk result (words.new.items ≡ words.old.items ++ first_words global.now) }
{
    if global.decl.form.is_lock() {
        words.push(1)?;
    } else {
        words.extend_from_slice(global.values.as_slice())?;
    }
    Ok(())
}

/// The initial words of globals.
pub(crate) fn words_of(alloc: Global, globals: &[&Datum]) -> Result<Vec<u32>, NoMemory>
    ensures { IfOk result (λ words. words.items ≡ words_in (map (λ g. g.now) globals.now)) }
{
    let mut words = Vec::new(alloc);
    for global in globals {
        push_words(&mut words, global)?;
    }
    Ok(words)
}

/// Whether each word of the cells is constant.
pub(crate) fn constants_of(alloc: Global, cells: &[CellRow]) -> Result<Vec<bool>, NoMemory>
    ensures { IfOk result (λ constants. constants.items ≡ constants_in cells.now) }
{
    let mut constants = Vec::new(alloc);
    let mut rest = cells;
    'cells: while let Some((cell, others)) = rest.split_first() {
        push_repeated(&mut constants, cell.constant, cell.len)?;
        rest = others;
    }
    Ok(constants)
}

/// The guard of each word of the cells.
pub(crate) fn guards_of(alloc: Global, cells: &[CellRow]) -> Result<Vec<Option<u32>>, NoMemory>
    ensures { IfOk result (λ guards. guards.items ≡ guards_in cells.now) }
{
    let mut guards = Vec::new(alloc);
    let mut rest = cells;
    'cells: while let Some((cell, others)) = rest.split_first() {
        push_repeated(&mut guards, cell.guard, cell.len)?;
        rest = others;
    }
    Ok(guards)
}

/// The words of the locks among the cells.
pub(crate) fn locks_of(alloc: Global, cells: &[CellRow]) -> Result<Vec<u32>, NoMemory>
    ensures { IfOk result (λ locks. locks.items ≡ locks_in cells.now) }
{
    let mut locks = Vec::new(alloc);
    let mut rest = cells;
    'cells: while let Some((cell, others)) = rest.split_first() {
        if cell.lock {
            locks.push(cell.first)?;
        }
        rest = others;
    }
    Ok(locks)
}

/// The numbers of these names.
pub(crate) fn numbers_of(
    alloc: Global,
    symbols: &Symbols,
    names: &[Name],
) -> Result<Vec<u32>, NoMemory>
    ensures { IfOk result (λ numbers. numbers.items ≡ map (λ name. or_zero (found symbols.now name)) names.now) }
{
    let mut numbers = Vec::new(alloc);
    let mut rest = names;
    'names: while let Some((name, others)) = rest.split_first() {
        numbers.push(symbols.find(name.as_str()).unwrap_or(0))?;
        rest = others;
    }
    Ok(numbers)
}
