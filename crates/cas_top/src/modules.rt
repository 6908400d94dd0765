//! Checked modules from their texts.

ghost use Rattle.std.specs.Prelude.{◌≤◌, Err, List, length, ℕ};
ghost use Rattle.cas_command.specs.Words.{source_limit};
ghost use Rattle.cas_syntax.specs.Reading.{IsReadAs};
ghost use Rattle.cas_syntax.specs.Tree.{ModuleTree};
ghost use Rattle.cas_top.specs.View.{IsCheckedAs, IsReadText, IsTypedText};
ghost use Rattle.cas_type.specs.Whole_walk.{HasFault};

use crate::refusal::{ModuleFault, Refusal};
use cas_check::check_module;
use cas_own::{Checked, OwnFault};
use cas_read::{ReadFault, read_module};
use cas_syntax::Module;
use cas_type::{TypeFault, type_module};
use cas_typed::Typed;
use std::alloc::Global;

// The module that the text of this name is read as.
fn read_tree<'a>(alloc: Global, text: &[u8], name: &'a str) -> Result<Module, Refusal<'a>>
    requires { length text.now ≤ source_limit }
    ensures { IsReadText name.entry.now text.now result }
{
    match read_module(alloc, text) {
        Ok(tree) => Ok(tree),
        Err(ReadFault::At { code, place }) => {
            Err(Refusal::Faulty(name, ModuleFault::Misread(code, place)))
        }
        Err(ReadFault::Memory) => Err(Refusal::Memory),
    }
}

// The refusal of a text that is read as a module with this fault of typing.
fn untyped<'a>(name: &'a str, fault: TypeFault) -> Refusal<'a>
    ensures { (text : List ℕ) (m : ModuleTree) → IsReadAs text m → HasFault m fault →
        IsTypedText name.entry.now text (Err result) }
{
    match fault {
        TypeFault::At {
            code,
            place,
            name: kept,
        } => Refusal::Faulty(name, ModuleFault::Untyped(code, place, kept)),
        TypeFault::Limit {
            place,
            what,
            counted,
        } => Refusal::Faulty(name, ModuleFault::Excessive(place, what, counted)),
        TypeFault::Memory => Refusal::Memory,
    }
}

// The typed module that the text of this name is read as.
fn typed_module<'a>(alloc: Global, text: &[u8], name: &'a str) -> Result<Typed, Refusal<'a>>
    requires { length text.now ≤ source_limit }
    ensures typed { IsTypedText name.entry.now text.now result }
{
    let tree = read_tree(alloc, text, name)?;
    match type_module(alloc, tree) {
        Ok(typed) => Ok(typed),
        Err(fault) => Err(untyped(name, fault)),
    }
}

/// The checked module that the text of this name is read as.
pub(crate) fn checked_module<'a>(
    alloc: Global,
    text: &[u8],
    name: &'a str,
) -> Result<Checked, Refusal<'a>>
    requires { length text.now ≤ source_limit }
    ensures checked { IsCheckedAs name.entry.now text.now result }
{
    let typed = typed_module(alloc, text, name)?;
    match check_module(alloc, typed) {
        Ok(checked) => Ok(checked),
        Err(OwnFault::At { code, place, lock }) => {
            Err(Refusal::Faulty(name, ModuleFault::Unowned(code, place, lock)))
        }
        Err(OwnFault::Memory) => Err(Refusal::Memory),
    }
}
