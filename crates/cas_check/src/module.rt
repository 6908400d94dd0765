//! The check of modules: their items one after another.

ghost use Rattle.std.specs.Prelude.{◌≡◌, ◌++◌, ◌∷◌, [], ◌≤◌, ◌<◌, ◌-◌, ℕ, List, IfOk, IfErr, None, Some, length, map, is_some, All};
ghost use Rattle.cas_base.specs.declared.decl.Decl.{Decl};
ghost use Rattle.cas_own.specs.Checked.{IsChecked, fault_of, function_fault, global_fault, held_set, items_fault, own_fault};
ghost use Rattle.cas_check.specs.Fits.{Answers, FunctionFits, FunctionsFit, HaltWithin, HasFault, Steps, Reports};
ghost use Rattle.cas_own.specs.Flow.{Flow, body_flow, on, same, with_set};
ghost use Rattle.cas_own.specs.Locks.{lock_named};
ghost use Rattle.cas_check.specs.View.{Halts, IsTable, Passes, set_at};
ghost use Rattle.cas_own.specs.declared.fault.OwnCode.TheVariants.{O5};
ghost use Rattle.cas_syntax.specs.Tree.{ItemTree, fun_tree, item_tree};
ghost use Rattle.cas_typed.specs.Modules.{decl_of};
ghost use Rattle.cas_typed.specs.Numbered.{IsFunctionOf};
ghost use Rattle.cas_typed.specs.Resolved.{TypedFunTree, TypedModuleTree};
ghost use Rattle.cas_typed.specs.Typed_as.{IsTypedAs};
ghost use Rattle.cas_typed.specs.Whole.{AreFunctionsOf};

use crate::flow::Halt;
use crate::items::Table;
use crate::locks::Locks;
use crate::loops::check_same;
use crate::walk::{Body, walk_all};
use cas_base::{Decl, Form, Name, NoMemory, Place};
use cas_own::{Checked, OwnCode, OwnFault};
use cas_syntax::{Fun, Item};
use cas_typed::{Typed, TypedFun};
use std::alloc::Global;

// A fault with a lock's name, which is kept.
fn fault(alloc: Global, code: OwnCode, place: Place, lock: &Name) -> OwnFault
    ensures { Reports result (Some (record { code = code; place = place; lock = lock.now })) }
{
    match lock.copy(alloc) {
        Ok(lock) => OwnFault::At { code, place, lock },
        Err(NoMemory) => OwnFault::Memory,
    }
}

// The fault of a walk, with the lock's name.
fn reported(alloc: Global, table: &Table<'_>, halt: Halt) -> OwnFault
    requires { HaltWithin (length table.now) halt }
    ensures { (flow : Flow) → Halts halt flow → Reports result (fault_of table.now flow) }
{
    match halt {
        Halt::Memory => OwnFault::Memory,
        Halt::Fault(code, place, lock) => fault(alloc, code, place, table.name(lock)),
    }
}

// Whether a name means a lock that is declared before the item with this number.
#[tactic(auto, using(crate::proofs::Before::is_before, crate::proofs::Before::not_named))]
fn is_lock_before(table: &Table<'_>, number: usize, name: &Name) -> bool
    ensures { (before behind : List Decl) → table.now ≡ before ++ behind → number ≡ length before →
        result ≡ is_some (lock_named before name.now) }
{
    match table.lock(name) {
        Some(lock) => (lock as usize) < number,
        None => false,
    }
}

// A shared global is guarded by a lock that is declared before.
fn check_global(
    alloc: Global,
    table: &Table<'_>,
    number: usize,
    form: &Form,
    place: Place,
) -> Result<(), OwnFault>
    ensures { (before behind : List Decl) → table.now ≡ before ++ behind → number ≡ length before →
        Answers result (global_fault before form.now place) }
{
    match form {
        Form::Shared { lock, .. } => {
            if is_lock_before(table, number, lock) {
                Ok(())
            } else {
                Err(fault(alloc, OwnCode::O8, place, lock))
            }
        }
        Form::Lock | Form::Table { .. } | Form::Function { .. } => Ok(()),
    }
}

// The end of a body of a function whose caller holds these locks, where it is reached: the set is the same.
fn check_end(closing: Place, own: &Locks, reached: Option<&Locks>) -> Result<(), Halt>
    ensures { Passes result (on None) (with_set (set_at reached.entry) (λ s. same O5 closing own.now s (on None))) }
{
    match reached {
        None => Ok(()),
        Some(set) => check_same(OwnCode::O5, closing, own, set),
    }
}

// A function's body.
fn check_body(
    alloc: Global,
    table: &Table<'_>,
    closing: Place,
    function: &TypedFun,
) -> Result<(), Halt>
    requires table { IsTable function.now.rows }
    requires within { All (λ i. (0 ≤ i) × (i < length function.now.rows)) function.now.body }
    ensures { (r : TypedFunTree) → IsFunctionOf r function.now
        → Passes result (on None) (body_flow table.now (held_set table.now r.item) closing r.body) }
{
    let own = Locks::of(alloc, table.holds(function.item))?;
    let body = Body {
        table,
        rows: function.rows.as_slice(),
        own: &own,
    };
    let onward = walk_all(alloc, body, None, 0, function.body.as_slice(), &own)?;
    check_end(closing, &own, onward.locks(&own))
}

// A function.
#[tactic(auto, using(crate::proofs::Fitting::fits_table, crate::proofs::Fitting::fits_body, crate::proofs::Fitting::fits_halt))]
fn check_function(
    alloc: Global,
    table: &Table<'_>,
    fun: &Fun,
    function: &TypedFun,
) -> Result<(), OwnFault>
    requires { FunctionFits table.now function.now }
    ensures { (r : TypedFunTree) → IsFunctionOf r function.now →
        Answers result (function_fault table.now (fun_tree fun.now) r) }
{
    match check_body(alloc, table, fun.closing, function) {
        Ok(()) => Ok(()),
        Err(halt) => Err(reported(alloc, table, halt)),
    }
}

// An item, with the functions that are left; and those that are left behind it.
fn check_item<'a>(
    alloc: Global,
    table: &Table<'_>,
    number: usize,
    item: &Item,
    functions: &'a [TypedFun],
) -> Result<&'a [TypedFun], OwnFault>
    requires some { 0 < length table.now }
    requires fit { FunctionsFit table.now functions.now }
    ensures steps { (before behind : List Decl) (items : List ItemTree) (rs : List TypedFunTree) →
        table.now ≡ before ++ behind → number ≡ length before
        → AreFunctionsOf rs functions.now → Steps table.now before (item_tree item.now) items rs result }
    ensures fit { IfOk result (λ left. FunctionsFit table.now left.now) }
{
    match item {
        Item::Global { decl, place, .. } => {
            check_global(alloc, table, number, &decl.form, *place)?;
            Ok(functions)
        }
        Item::Prototype { .. } => Ok(functions),
        Item::Define(fun) => match functions.split_first() {
            None => Err(fault(alloc, OwnCode::O5, fun.closing, table.name(0))),
            Some((function, left)) => {
                check_function(alloc, table, fun, function)?;
                Ok(left)
            }
        },
    }
}

// How many items stand before the rest.
fn count_before(items: &[Item], rest: &[Item]) -> usize
    requires { length rest.now ≤ length items.now }
    ensures { result ≡ length items.now - length rest.now }
{
    items.len() - rest.len()
}

// Items one after another, with the functions that they have.
fn check_items(
    alloc: Global,
    table: &Table<'_>,
    items: &[Item],
    functions: &[TypedFun],
) -> Result<(), OwnFault>
    requires items { table.now ≡ map decl_of (map item_tree items.now) }
    requires fit { FunctionsFit table.now functions.now }
    ensures { (rs : List TypedFunTree) → AreFunctionsOf rs functions.now →
        Answers result (items_fault table.now [] (map item_tree items.now) rs) }
{
    let mut rest = items;
    let mut left = functions;
    'each: while let Some((item, others)) = rest.split_first() {
        let number = count_before(items, rest);
        left = check_item(alloc, table, number, item, left)?;
        rest = others;
    }
    Ok(())
}

// A typed module.
#[tactic(auto, using(crate::proofs::Typed_fits::typed_fit, crate::proofs::Typed_fits::typed_answers))]
fn check_typed(alloc: Global, typed: &Typed) -> Result<(), OwnFault>
    ensures { (r : TypedModuleTree) → IsTypedAs typed.now r → Answers result (own_fault r) }
{
    let items = typed.module().items.as_slice();
    let table = Table::of(alloc, items)?;
    check_items(alloc, &table, items, typed.functions())
}

/// Checks the ownership of a typed module: each shared global is touched only if its lock is held.
///
/// Errors: the module's first fault in the order of the walk, with the name of the lock that is kept; `Memory`.
pub fn check_module(alloc: Global, typed: Typed) -> Result<Checked, OwnFault>
    ensures given { IfOk result (λ checked. checked.typed ≡ typed) }
    ensures checked { IfOk result (λ checked. (r : TypedModuleTree) → IsTypedAs typed r → IsChecked r) }
    ensures fault { IfErr result (λ fault. (r : TypedModuleTree) → IsTypedAs typed r → HasFault r fault) }
{
    check_typed(alloc, &typed)?;
    Ok(Checked::new(typed))
}
