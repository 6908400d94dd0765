//! The words with which a program begins.

ghost use Rattle.std.specs.Prelude.{◌≡◌, ℕ, List, [], ◌∷◌, ◌++◌, IfOk, OnOk, map};
ghost use Rattle.std.specs.List.{flat_map};
ghost use Rattle.cas_syntax.specs.Tree.{item_tree};
ghost use Rattle.cas_typed.specs.Resolved.{TypedModuleTree};
ghost use Rattle.cas_program.specs.Program.{initial_words as first_words, item_words};
ghost use Rattle.cas_whole.specs.Program_of.{IsProgramOf};

use crate::program::Program;
use cas_base::NoMemory;
use cas_syntax::Item;
use std::alloc::Global;

// Appends the words with which an item's definition begins.
fn add_item(words: &mut Vec<u32>, item: &Item) -> Result<(), NoMemory>
    ensures { OnOk result (words.new.items ≡ words.old.items ++ item_words (item_tree item.now)) }
{
    match item {
        Item::Global { decl, values, .. } => {
            if !decl.defined {
                Ok(())
            } else if decl.form.is_lock() {
                words.push(1)?;
                Ok(())
            } else {
                words.extend_from_slice(values.as_slice())?;
                Ok(())
            }
        }
        Item::Prototype { .. } | Item::Define(_) => Ok(()),
    }
}

// Appends the words with which the definitions of these items begin.
fn add_items(words: &mut Vec<u32>, items: &[Item]) -> Result<(), NoMemory>
    ensures { OnOk result (words.new.items ≡ words.old.items ++ flat_map item_words (map item_tree items.now)) }
{
    let mut rest = items;
    'items: while let Some((item, others)) = rest.split_first() {
        add_item(words, item)?;
        rest = others;
    }
    Ok(())
}

/// The words with which a program begins: its globals' values, and 1 for each lock, in the order of modules and
/// definitions.
pub fn initial_words(alloc: Global, program: &Program) -> Result<Vec<u32>, NoMemory>
    ensures { IfOk result (λ words. (ms : List TypedModuleTree) (names : List (List ℕ)) →
        IsProgramOf program.now ms names → words.items ≡ first_words ms) }
{
    let mut words = Vec::new(alloc);
    let mut rest = program.modules();
    'modules: while let Some((module, others)) = rest.split_first() {
        add_items(&mut words, module.module().items.as_slice())?;
        rest = others;
    }
    Ok(words)
}
