//! Cshmgen of modules.

ghost use Rattle.std.specs.Prelude.{◌≡◌, ◌≤◌, ◌++◌, List, IfOk, MatchOption, OnOk, length, map};
ghost use Rattle.cas_base.specs.declared.decl.Global.{Global as DataOf};
ghost use Rattle.cas_check.specs.Fits.{FunctionsFit};
ghost use Rattle.cas_clight.specs.Clight.{ClightFun, clight};
ghost use Rattle.cas_clight.specs.Units.{data_in, datum_of, decls_of, functions_in, unit_of, with_datum};
ghost use Rattle.cas_mid.specs.Csharpminor.{csharpminor};
ghost use Rattle.cas_runs.specs.Calls.{language};
ghost use Rattle.cas_runs.specs.Label.{Both};
ghost use Rattle.cas_runs.specs.Unit.{UnitRefines};
ghost use Rattle.cas_syntax.specs.Tree.{define, fun_tree, item_tree};
ghost use Rattle.cas_typed.specs.Counts.{parameter_types};
ghost use Rattle.cas_typed.specs.Resolved.{TypedFunTree, TypedModuleTree};
ghost use Rattle.cas_typed.specs.Typed_as.{IsTypedAs};
ghost use Rattle.cas_typed.specs.Whole.{AreFunctionsOf};
ghost use Rattle.cas_cshmgen.specs.Made.{AreMadeOf, ForsAreSimpleIn, HasFew, HasNoBody, HaveFew, IsAdded, IsMadeUnit, IsNoLarger};

use crate::function::make_fun;
use cas_base::{Decl, Global as Data, NoMemory, Seq, Unit};
use cas_mid::CsharpFun;
use cas_syntax::{Fun, Item};
use cas_typed::{Typed, TypedFun, declared};
use std::alloc::Global;

// What the items declare, in their order.
fn declarations(alloc: Global, items: &[Item]) -> Result<Seq<Decl>, NoMemory>
    ensures { IfOk result (λ made. made ≡ decls_of (map item_tree items.now)) }
{
    let mut decls = Vec::new(alloc);
    for item in items {
        decls.push(declared(item).copy(alloc)?)?;
    }
    Ok(Seq::of(decls))
}

// The data that an item defines, if it defines some.
fn datum_of(alloc: Global, item: &Item) -> Result<Option<Data>, NoMemory>
    ensures { IfOk result (λ made. made ≡ datum_of (item_tree item.now)) }
{
    match item {
        Item::Global { decl, values, .. } => {
            if decl.defined {
                let decl = decl.copy(alloc)?;
                let values = values.copy(alloc)?;
                Ok(Some(Data { decl, values }))
            } else {
                Ok(None)
            }
        }
        Item::Prototype { .. } | Item::Define(_) => Ok(None),
    }
}

// They are added.
#[tactic(auto, using(crate::proofs::Modules::one_pushed))]
fn add_datum(all: &mut Vec<Data>, datum: Option<Data>) -> Result<(), NoMemory>
    ensures { OnOk result ((rest : List DataOf) → all.old.items ++ with_datum datum rest ≡ all.new.items ++ rest) }
{
    match datum {
        Some(datum) => Ok(all.push(datum)?),
        None => Ok(()),
    }
}

// The data that the items define, in their order.
fn data(alloc: Global, items: &[Item]) -> Result<Seq<Data>, NoMemory>
    ensures { IfOk result (λ made. made ≡ data_in (map item_tree items.now)) }
{
    let mut all = Vec::new(alloc);
    let mut rest = items;
    'each: while let Some((item, others)) = rest.split_first() {
        let datum = datum_of(alloc, item)?;
        add_datum(&mut all, datum)?;
        rest = others;
    }
    Ok(Seq::of(all))
}

// The function with a body that an item is, if it is one.
fn body_of(item: &Item) -> Option<&Fun>
    ensures { MatchOption result (HasNoBody (item_tree item.now)) (λ fun. item_tree item.now
        ≡ define (fun_tree fun.now)) }
{
    match item {
        Item::Global { .. } | Item::Prototype { .. } => None,
        Item::Define(fun) => Some(fun),
    }
}

// What is made of a function is added, of which the first of the left ones has the statements. The others are left.
fn add_body<'a>(
    alloc: Global,
    decls: &[Decl],
    fun: &Fun,
    left: &'a [TypedFun],
    all: &mut Vec<CsharpFun>,
) -> Result<&'a [TypedFun], NoMemory>
    requires few { length (parameter_types fun.now.decl.form) ≤ 16 }
    requires fit { FunctionsFit decls.now left.now }
    ensures fit { IfOk result (λ now. FunctionsFit decls.now now.now) }
    ensures added { (rs : List TypedFunTree) (before : List ClightFun) → AreFunctionsOf rs left.now
        → AreMadeOf all.old.items before
        → IfOk result (λ now. IsAdded decls.now (define (fun_tree fun.now)) rs before all.new.items now.now) }
{
    match left.split_first() {
        None => Ok(left),
        Some((function, others)) => {
            let made = make_fun(alloc, decls, fun, function)?;
            all.push(made)?;
            Ok(others)
        }
    }
}

// The same of an item.
fn add_function<'a>(
    alloc: Global,
    decls: &[Decl],
    item: &Item,
    left: &'a [TypedFun],
    all: &mut Vec<CsharpFun>,
) -> Result<&'a [TypedFun], NoMemory>
    requires few { HasFew (item_tree item.now) }
    requires fit { FunctionsFit decls.now left.now }
    ensures fit { IfOk result (λ now. FunctionsFit decls.now now.now) }
    ensures added { (rs : List TypedFunTree) (before : List ClightFun) → AreFunctionsOf rs left.now
        → AreMadeOf all.old.items before
        → IfOk result (λ now. IsAdded decls.now (item_tree item.now) rs before all.new.items now.now) }
{
    match body_of(item) {
        None => Ok(left),
        Some(fun) => add_body(alloc, decls, fun, left, all),
    }
}

// What is made of the items' functions, in their order.
fn functions(
    alloc: Global,
    decls: &[Decl],
    items: &[Item],
    functions: &[TypedFun],
) -> Result<Seq<CsharpFun>, NoMemory>
    requires few { HaveFew (map item_tree items.now) }
    requires fit { FunctionsFit decls.now functions.now }
    ensures { (rs : List TypedFunTree) → AreFunctionsOf rs functions.now
        → IfOk result (λ made. AreMadeOf made (functions_in decls.now (map item_tree items.now) rs)) }
{
    let mut all = Vec::new(alloc);
    let mut rest = items;
    let mut left = functions;
    'each: while let Some((item, others)) = rest.split_first() {
        left = add_function(alloc, decls, item, left, &mut all)?;
        rest = others;
    }
    Ok(Seq::of(all))
}

// The unit that is made of a typed module.
fn make_unit(alloc: Global, typed: &Typed) -> Result<Unit<CsharpFun>, NoMemory>
    ensures { IfOk result (λ unit. (r : TypedModuleTree) → IsTypedAs typed.now r → IsMadeUnit unit (unit_of r)) }
{
    let items = typed.module().items.as_slice();
    let decls = declarations(alloc, items)?;
    let globals = data(alloc, items)?;
    let funs = functions(alloc, decls.as_slice(), items, typed.functions())?;
    Ok(Unit {
        decls,
        globals,
        funs,
    })
}

/// What Cshmgen makes of a typed module. It refines the module's unit of Clight, and its functions weigh no more and
/// have no greater room, where the first and last parts of each `for` are assignments, calls or locals, as in each
/// text.
///
/// # Errors
///
/// `NoMemory` for want of memory.
pub fn cshmgen(alloc: Global, typed: &Typed) -> Result<Unit<CsharpFun>, NoMemory>
    ensures made { IfOk result (λ unit. (r : TypedModuleTree) → IsTypedAs typed.now r → IsMadeUnit unit (unit_of r)) }
    ensures refines { IfOk result (λ unit. (r : TypedModuleTree) → IsTypedAs typed.now r
        → ForsAreSimpleIn r.module_tree.items
        → UnitRefines (language csharpminor) (language clight) unit (unit_of r)) }
    ensures bounds { IfOk result (λ unit. (r : TypedModuleTree) → IsTypedAs typed.now r
        → ForsAreSimpleIn r.module_tree.items
        → Both IsNoLarger unit.funs (unit_of r).funs) }
{
    make_unit(alloc, typed)
}
