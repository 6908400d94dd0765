//! What the items of a program's modules stand for.

ghost use Rattle.std.specs.Prelude.{◌≡◌, ℕ, ◌^◌, ◌<◌, List, map, length, slice_get, IfOk};
ghost use Rattle.std.specs.Option.{option_map};
ghost use Rattle.cas_settle.specs.Settle.{cells_of};
ghost use Rattle.cas_memory.specs.Entities.{entity_of};
ghost use Rattle.cas_program.specs.Program.{item_entity};
ghost use Rattle.cas_typed.specs.Modules.{decls_of_items};
ghost use Rattle.cas_whole.specs.Names.{HaveFewFunctions, meant, meant_by, units_in};
ghost use Rattle.cas_whole.specs.Whole.{entity_at};

use crate::names::{cells_by_name, functions_by_name};
use cas_base::{Decl, Form, NoMemory, Seq};
use cas_memory::Entity;
use cas_settle::CellRow;
use cas_syntax::Item;
use cas_typed::{Typed, declared};
use indexmap::IndexMap;
use std::alloc::Global;

/// What names stand for.
#[derive(Drop)]
struct Names<'a> {
    functions: IndexMap<&'a str, Entity>,
    /// The globals and locks.
    cells: IndexMap<&'a str, Entity>,
}

impl Names<'_> {
    // What a declaration stands for.
    fn meant(&self, decl: &Decl) -> Option<Entity>
        ensures { option_map entity_of result ≡ meant_by self.now.functions.entries self.now.cells.entries decl.now }
    {
        let name = decl.name.as_str();
        match &decl.form {
            Form::Function { .. } => self.functions.get(name).copied(),
            Form::Lock | Form::Shared { .. } | Form::Table { .. } => self.cells.get(name).copied(),
        }
    }

    // What the items of a module stand for.
    fn row(&self, alloc: Global, items: &[Item]) -> Result<Seq<Option<Entity>>, NoMemory>
        ensures { IfOk result (λ row. map (option_map entity_of) row ≡ map
            (meant_by self.now.functions.entries self.now.cells.entries) (decls_of_items items.now)) }
    {
        let mut row = Vec::new(alloc);
        let mut rest = items;
        'items: while let Some((item, others)) = rest.split_first() {
            row.push(self.meant(declared(item)))?;
            rest = others;
        }
        Ok(Seq::of(row))
    }

    // What the items of the modules stand for.
    fn rows(&self, alloc: Global, modules: &[Typed]) -> Result<Seq<Seq<Option<Entity>>>, NoMemory>
        ensures { IfOk result (λ rows. map (map (option_map entity_of)) rows ≡ map
            (map (meant_by self.now.functions.entries self.now.cells.entries)) (units_in modules.now)) }
    {
        let mut rows = Vec::new(alloc);
        let mut rest = modules;
        'modules: while let Some((module, others)) = rest.split_first() {
            rows.push(self.row(alloc, module.module().items.as_slice())?)?;
            rest = others;
        }
        Ok(Seq::of(rows))
    }
}

/// What the items of these modules stand for in a program with these globals and locks.
pub(crate) fn items_of(
    alloc: Global,
    cells: &[CellRow],
    modules: &[Typed],
) -> Result<Seq<Seq<Option<Entity>>>, NoMemory>
    requires few_modules { length modules.now < 2 ^ 32 }
    requires few_functions { HaveFewFunctions (units_in modules.now) }
    requires cells { cells.now ≡ cells_of (units_in modules.now) }
    ensures rows { IfOk result (λ items. map length items ≡ map length (units_in modules.now)) }
    ensures entities { IfOk result (λ items. (unit item : ℕ) →
        entity_at items unit item ≡ item_entity (units_in modules.now) item (slice_get (units_in modules.now) unit)) }
{
    let names = Names {
        functions: functions_by_name(alloc, modules)?,
        cells: cells_by_name(alloc, cells)?,
    };
    names.rows(alloc, modules)
}
