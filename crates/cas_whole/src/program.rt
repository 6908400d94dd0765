//! Programs.

ghost use Rattle.std.specs.Prelude.{◌≡◌, ℕ, List};
ghost use Rattle.cas_typed.specs.Resolved.{TypedModuleTree};
ghost use Rattle.cas_whole.specs.Whole.{AreProgramOf};

mod making;
mod meanings;

use cas_base::Seq;
use cas_memory::Entity;
use cas_settle::CellRow;
use cas_typed::Typed;

/// A program: typed modules that settle, and the functions at which its threads begin. There are always resolved
/// modules and names of which it is the program.
#[derive(Debug, Drop)]
pub struct Program {
    modules: Seq<Typed>,
    cells: Seq<CellRow>,
    entries: Seq<(u32, u32)>,
    /// What each item of each module stands for.
    items: Seq<Seq<Option<Entity>>>,
    pub ghost program: { ∥ ((ms : List TypedModuleTree) × (names : List (List ℕ)) ×
        AreProgramOf modules cells entries items ms names) ∥₁ },
}

impl Program {
    /// The modules, in their order.
    pub fn modules(&self) -> &[Typed]
        ensures { result.now ≡ self.now.modules }
    {
        self.modules.as_slice()
    }

    /// The globals and locks, in the order of modules and definitions.
    pub fn cells(&self) -> &[CellRow]
        ensures { result.now ≡ self.now.cells }
    {
        self.cells.as_slice()
    }

    /// Where the threads begin: for each a module, and a place among the functions that it defines.
    pub fn entries(&self) -> &[(u32, u32)]
        ensures { result.now ≡ self.now.entries }
    {
        self.entries.as_slice()
    }
}
