//! The canonical text of a module.

ghost use Rattle.std.specs.Prelude.{◌≡◌, IfOk, List, ℕ, string_bytes};
ghost use Rattle.cas_syntax.specs.Alike.{IsAlike};
ghost use Rattle.cas_syntax.specs.Reading.{IsReadAs};
ghost use Rattle.cas_syntax.specs.Tree.{ModuleTree, module_tree};
ghost use Rattle.cas_print.specs.Items.{canonical};

use crate::item::items;
use crate::page::Page;
use cas_base::NoMemory;
use cas_syntax::Module;
use std::alloc::Global;

/// The canonical text of a module. Time is linear in that text.
pub fn print_module(alloc: Global, module: &Module) -> Result<String, NoMemory>
    ensures canonical { IfOk result (λ printed. string_bytes printed ≡ canonical (module_tree «module».now)) }

    // if some text is read as the module but for places, what is printed is read as the module but for places
    ensures read_again { (text : List ℕ) (tree : ModuleTree)
        → IsReadAs text tree → IsAlike tree (module_tree «module».now)
        → IfOk result (λ printed. (other : ModuleTree)
        × IsReadAs (string_bytes printed) other × IsAlike other (module_tree «module».now)) }
{
    let mut page = Page::new(alloc);
    items(&mut page, module.items.as_slice())?;
    Ok(page.into_string())
}
