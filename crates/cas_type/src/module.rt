//! Modules: their items one after another, and then the values of their variables filled up with zeros.

ghost use Rattle.std.specs.Prelude.{◌≡◌, ◌++◌, ◌∷◌, [], ◌-◌, IfOk, IfErr, OnOk, length, map, replicate};
ghost use Rattle.cas_base.specs.declared.decl.Decl.{Decl};
ghost use Rattle.cas_syntax.specs.Tree.{item_tree, module_tree};
ghost use Rattle.cas_type.specs.Answer.{Fails};
ghost use Rattle.cas_type.specs.Whole_walk.{GivesFunctions, GivesInto, GivesOptional, HasFault, walk_one, walk_step};
ghost use Rattle.cas_type.specs.Parts.{capped};
ghost use Rattle.cas_typed.specs.Counts as c;
ghost use Rattle.cas_typed.specs.Formed.{IsFormed};
ghost use Rattle.cas_typed.specs.Modules as m;
ghost use Rattle.std.specs.Option.{option_to_list};
ghost use Rattle.cas_typed.specs.Resolved.{TypedModuleTree};
ghost use Rattle.cas_typed.specs.Typed_as.{IsTypedAs};
ghost use Rattle.cas_typed.specs.Types as y;
ghost use Rattle.cas_typed.specs.Walk as w;

use crate::counts::Totals;
use crate::fault::TypeFault;
use crate::function::function;
use crate::item::check_item;
use crate::scope::{Scopes, variable_ty};
use cas_base::{Decl, NoMemory, Seq};
use cas_syntax::{Item, Module};
use cas_typed::{Typed, TypedFun, declared};
use std::alloc::Global;

// The function that an item has, which is declared here.
fn walk_one<'a>(
    alloc: Global,
    scopes: &mut Scopes<'a>,
    item: &'a Item,
) -> Result<Option<TypedFun>, TypeFault>
    ensures walked { GivesOptional result (walk_one scopes.old.decls (item_tree item.now)) }
    ensures decls { OnOk result (scopes.new.decls ≡ scopes.old.decls ++ m.decl_of (item_tree item.now) ∷ []) }
{
    match item {
        Item::Global { decl, .. } => {
            scopes.item(decl)?;
            Ok(None)
        }
        Item::Prototype { decl, .. } => {
            scopes.item(decl)?;
            Ok(None)
        }
        Item::Define(fun) => match function(alloc, scopes, fun) {
            Ok(function) => Ok(Some(function)),
            Err(fault) => Err(fault),
        },
    }
}

// An item behind others, whose declarations have these totals: its first fault, or the function that it has.
#[tactic(auto, using(crate::proofs::By_parts::fails_unless))]
fn walk_step<'a>(
    alloc: Global,
    scopes: &mut Scopes<'a>,
    totals: Totals,
    item: &'a Item,
) -> Result<Option<TypedFun>, TypeFault>
    requires functions { totals.functions ≡ capped (c.function_count scopes.old.decls) }
    requires words { totals.words ≡ capped (c.word_count scopes.old.decls) }
    ensures walked { GivesOptional result (walk_step scopes.old.decls (item_tree item.now)) }
    ensures decls { OnOk result (scopes.new.decls ≡ scopes.old.decls ++ m.decl_of (item_tree item.now) ∷ []) }
{
    check_item(alloc, scopes.symbols(), totals, item)?;
    walk_one(alloc, scopes, item)
}

// One more function, if there is one.
fn add(functions: &mut Vec<TypedFun>, function: Option<TypedFun>) -> Result<(), NoMemory>
    ensures { OnOk result (functions.new.items ≡ functions.old.items ++ option_to_list function) }
{
    if let Some(function) = function {
        functions.push(function)?;
    }
    Ok(())
}

// The items of a module, one after another: each is declared, and its function, if it has one, is added.
fn walk_each<'a>(
    alloc: Global,
    scopes: &mut Scopes<'a>,
    functions: &mut Vec<TypedFun>,
    items: &'a [Item],
) -> Result<(), TypeFault>
    requires scopes { scopes.old.decls ≡ [] }
    requires functions { functions.old.items ≡ [] }
    ensures { GivesInto functions.new.items result (w.walk_items [] (map item_tree items.now)) }
{
    let mut totals = Totals::none();
    for item in items {
        let function = walk_step(alloc, scopes, totals, item)?;
        add(functions, function)?;
        totals = totals.with(declared(item));
    }
    Ok(())
}

// The functions of the items of a module.
fn walk(alloc: Global, items: &[Item]) -> Result<Seq<TypedFun>, TypeFault>
    ensures { GivesFunctions result (w.walk_items [] (map item_tree items.now)) }
{
    let mut scopes = Scopes::new(alloc);
    let mut functions = Vec::new(alloc);
    match walk_each(alloc, &mut scopes, &mut functions, items) {
        Ok(()) => Ok(Seq::of(functions)),
        Err(fault) => Err(fault),
    }
}

// These values, and zeros up to so many.
fn filled_values(values: Seq<u32>, elements: usize) -> Result<Seq<u32>, NoMemory>
    ensures { IfOk result (λ filled. filled ≡ values ++ replicate (elements - length values) 0) }
{
    let mut filled = values.into_vec();
    'more: while filled.len() < elements {
        filled.push(0)?;
    }
    Ok(Seq::of(filled))
}

// An item with the values of its variable filled up.
fn filled_item(item: Item) -> Result<Item, NoMemory>
    ensures { IfOk result (λ filled. item_tree filled ≡ m.filled_item (item_tree item)) }
{
    match item {
        Item::Global {
            decl,
            values,
            place,
        } => {
            let values = if decl.defined {
                filled_values(values, elements_of(&decl))?
            } else {
                values
            };
            Ok(Item::Global {
                decl,
                values,
                place,
            })
        }
        Item::Prototype { decl, held, place } => Ok(Item::Prototype { decl, held, place }),
        Item::Define(fun) => Ok(Item::Define(fun)),
    }
}

// The elements of a variable.
fn elements_of(decl: &Decl) -> usize
    ensures { result ≡ m.elements_of (y.variable_type decl.now.form) }
{
    match variable_ty(&decl.form) {
        Some(ty) => ty.words() as usize,
        None => 0,
    }
}

// A module with the values of its variables filled up.
fn filled_module(alloc: Global, module: Module) -> Result<Module, NoMemory>
    ensures { IfOk result (λ filled. module_tree filled ≡ m.filled_module (module_tree «module»)) }
{
    let mut items = Vec::new(alloc);
    for item in module.items.into_vec() {
        items.push(filled_item(item)?)?;
    }
    Ok(Module {
        items: Seq::of(items),
    })
}

/// What a module is resolved to. It has to be formed, as each module is that some text is read as, whatever its places
/// (the law `read_modules_are_formed` of `cas_typed`).
///
/// Errors: the module's first fault in the order of the walk, with the counted number at most the greatest `u64`;
/// `Memory`.
pub fn type_module(alloc: Global, module: Module) -> Result<Typed, TypeFault>
    requires formed { IsFormed (module_tree «module») }
    ensures typed { IfOk result (λ typed. (r : TypedModuleTree) × IsTypedAs typed r ×
        m.IsTyped (module_tree «module») r) }
    ensures fault { IfErr result (λ fault. HasFault (module_tree «module») fault) }
{
    let functions = walk(alloc, module.items.as_slice())?;
    let filled = filled_module(alloc, module)?;
    Ok(Typed::new(filled, functions))
}
