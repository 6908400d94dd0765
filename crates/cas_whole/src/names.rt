//! What names stand for: tables of a program's globals and locks, and of its functions.

ghost use Rattle.std.specs.Prelude.{◌≡◌, ℕ, ◌+◌, ◌^◌, ◌<◌, List, [], ◌∷◌, Some, None, length, position, if◌then◌else◌, IfOk, OnOk};
ghost use Rattle.std.specs.List.{find, position_from};
ghost use Rattle.std.specs.Option.{option_map, option_or};
ghost use Rattle.std.specs.Str.{bytes_eq};
ghost use Rattle.cas_base.specs.Decl.{functions_of, is_named};
ghost use Rattle.cas_settle.specs.Settle.{place_of};
ghost use Rattle.cas_memory.specs.Entities.{entity_of};
ghost use Rattle.cas_program.specs.Program.{entity_of_cell, function_entity};
ghost use Rattle.cas_typed.specs.Modules.{decls_of_items};
ghost use Rattle.cas_whole.specs.Names.{HaveFewFunctions, named, units_in};

use cas_base::{Decl, NoMemory};
use cas_memory::Entity;
use cas_settle::CellRow;
use cas_syntax::Item;
use cas_typed::{Typed, declared};
use indexmap::IndexMap;
use std::alloc::Global;

// Puts what a name stands for into a table, if it has none for the name.
fn put<'a>(
    table: &mut IndexMap<&'a str, Entity>,
    name: &'a str,
    entity: Entity,
) -> Result<(), NoMemory>
    ensures { OnOk result ((q : List ℕ) → named table.new.entries q ≡ option_or (named table.old.entries q)
        (if bytes_eq q name.now then Some (entity_of entity) else None)) }
{
    if !table.contains_key(name) {
        table.insert(name, entity)?;
    }
    Ok(())
}

// What a global or a lock with this row stands for.
fn cell_entity(row: &CellRow) -> Entity
    ensures { entity_of result ≡ entity_of_cell row.now }
{
    if row.lock {
        Entity::Lock(row.first)
    } else if row.constant {
        Entity::Table {
            first: row.first,
            length: row.len,
        }
    } else {
        Entity::Shared {
            first: row.first,
            length: row.len,
            guard: row.guard,
        }
    }
}

/// What the names of these globals and locks stand for.
pub(crate) fn cells_by_name<'a>(
    alloc: Global,
    cells: &'a [CellRow],
) -> Result<IndexMap<&'a str, Entity>, NoMemory>
    ensures { IfOk result (λ table. (q : List ℕ) →
        named table.entries q ≡ option_map entity_of_cell (find (λ row. bytes_eq q row.name) cells.now)) }
{
    let mut table = IndexMap::new(alloc);
    let mut rest = cells;
    'cells: while let Some((row, others)) = rest.split_first() {
        put(&mut table, row.name.as_str(), cell_entity(row))?;
        rest = others;
    }
    Ok(table)
}

// Puts the function that a declaration defines into a table, if it defines one, and answers how many functions its
// module defines then. Before it there are `place`.
fn put_function<'a>(
    table: &mut IndexMap<&'a str, Entity>,
    decl: &'a Decl,
    unit: u32,
    place: u32,
) -> Result<u32, NoMemory>
    requires { place + length (functions_of (decl.now ∷ [])) < 2 ^ 32 }
    ensures next { IfOk result (λ next. next ≡ place + length (functions_of (decl.now ∷ []))) }
    ensures put { OnOk result ((q : List ℕ) → named table.new.entries q ≡ option_or (named table.old.entries q)
        (option_map (λ n. function_entity (unit, n)) (position_from (is_named q) place
        (functions_of (decl.now ∷ []))))) }
{
    if decl.defined && decl.form.is_function() {
        put(table, decl.name.as_str(), Entity::Function { unit, place })?;
        Ok(place + 1)
    } else {
        Ok(place)
    }
}

// Puts the functions of a module's items into a table.
fn put_functions<'a>(
    table: &mut IndexMap<&'a str, Entity>,
    items: &'a [Item],
    unit: u32,
) -> Result<(), NoMemory>
    requires { length (functions_of (decls_of_items items.now)) < 2 ^ 32 }
    ensures { OnOk result ((q : List ℕ) → named table.new.entries q ≡ option_or (named table.old.entries q)
        (option_map (λ n. function_entity (unit, n)) (position (is_named q)
        (functions_of (decls_of_items items.now))))) }
{
    let mut place = 0;
    let mut rest = items;
    'items: while let Some((item, others)) = rest.split_first() {
        place = put_function(table, declared(item), unit, place)?;
        rest = others;
    }
    Ok(())
}

/// Where the functions of these modules stand, by their names.
pub(crate) fn functions_by_name<'a>(
    alloc: Global,
    modules: &'a [Typed],
) -> Result<IndexMap<&'a str, Entity>, NoMemory>
    requires few_modules { length modules.now < 2 ^ 32 }
    requires few_functions { HaveFewFunctions (units_in modules.now) }
    ensures { IfOk result (λ table. (q : List ℕ) →
        named table.entries q ≡ option_map function_entity (place_of (units_in modules.now) q)) }
{
    let mut table = IndexMap::new(alloc);
    let mut unit = 0;
    let mut rest = modules;
    'modules: while let Some((module, others)) = rest.split_first() {
        put_functions(&mut table, module.module().items.as_slice(), unit)?;
        unit += 1;
        rest = others;
    }
    Ok(table)
}
