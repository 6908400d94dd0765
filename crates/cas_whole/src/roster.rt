//! The declarations of modules, as a roster.

ghost use Rattle.std.specs.Prelude.{◌≡◌, ◌<◌, List, [], ◌∷◌, ◌++◌, length, IfOk, OnOk};
ghost use Rattle.cas_base.specs.declared.decl.Decl.{Decl};
ghost use Rattle.cas_settle.specs.Roster.{add_to_last};
ghost use Rattle.cas_syntax.specs.Tree.{item_tree};
ghost use Rattle.cas_typed.specs.Modules.{decl_of, decls_of_items};
ghost use Rattle.cas_whole.specs.Names.{units_in};

use cas_base::NoMemory;
use cas_settle::Roster;
use cas_syntax::Item;
use cas_typed::{Typed, declared};
use std::alloc::Global;

// The declaration of an item at the end of the last unit.
fn add_item(units: &mut Roster, item: &Item) -> Result<(), NoMemory>
    requires { 0 < length units.old }
    ensures added { OnOk result (units.new ≡ add_to_last units.old (decl_of (item_tree item.now))) }
    ensures count { length units.new ≡ length units.old }
{
    units.add(declared(item))
}

// The declarations of these items at the end of the last unit.
fn add_items(units: &mut Roster, items: &[Item]) -> Result<(), NoMemory>
    requires { 0 < length units.old }
    ensures { (front : List (List Decl)) (unit : List Decl) → units.old ≡ front ++ unit ∷ [] →
        OnOk result (units.new ≡ front ++ (unit ++ decls_of_items items.now) ∷ []) }
{
    let mut rest = items;
    'items: while let Some((item, others)) = rest.split_first() {
        add_item(units, item)?;
        rest = others;
    }
    Ok(())
}

// One more unit, with the declarations of these items.
fn add_unit(units: &mut Roster, items: &[Item]) -> Result<(), NoMemory>
    ensures { OnOk result (units.new ≡ units.old ++ decls_of_items items.now ∷ []) }
{
    units.unit()?;
    add_items(units, items)
}

/// The declarations of the modules, a unit for each.
pub(crate) fn roster_of(alloc: Global, modules: &[Typed]) -> Result<Roster, NoMemory>
    ensures { IfOk result (λ units. units ≡ units_in modules.now) }
{
    let mut units = Roster::new(alloc);
    let mut rest = modules;
    'modules: while let Some((module, others)) = rest.split_first() {
        add_unit(&mut units, module.module().items.as_slice())?;
        rest = others;
    }
    Ok(units)
}
