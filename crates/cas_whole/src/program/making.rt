//! How programs are made.

ghost use Rattle.std.specs.Prelude.{◌≡◌, ◌^◌, ◌<◌, List, length, vec_len, IfOk};
ghost use Rattle.cas_settle.specs.Refusal.{IsRefusedBy};
ghost use Rattle.cas_settle.specs.Settle.{first_refusal};
ghost use Rattle.cas_typed.specs.Resolved.{TypedModuleTree};
ghost use Rattle.cas_program.specs.Program.{units_of};
ghost use Rattle.cas_whole.specs.Program_of.{IsProgramOf};
ghost use Rattle.cas_whole.specs.Whole.{AreTyped};

use crate::items::items_of;
use crate::program::Program;
use crate::roster::roster_of;
use cas_base::{Name, Seq};
use cas_settle::{LinkFault, Settled, settle};
use cas_typed::Typed;
use std::alloc::Global;

impl Program {
    /// The program of these modules whose threads begin at these functions. It is refused as `settle` refuses the
    /// modules' declarations with these entries.
    pub fn new(alloc: Global, modules: Vec<Typed>, entries: &[Name]) -> Result<Program, LinkFault>
        requires few_modules { vec_len modules < 2 ^ 32 }
        requires few_entries { length entries.now < 2 ^ 32 }
        ensures refused { (ms : List TypedModuleTree) → AreTyped modules.items ms →
            IsRefusedBy result (first_refusal (units_of ms) entries.now) }
        ensures modules { IfOk result (λ made. made.modules ≡ modules.items) }
        ensures made { IfOk result (λ made. (ms : List TypedModuleTree) → AreTyped modules.items ms →
            IsProgramOf made ms entries.now) }
    {
        let units = roster_of(alloc, &modules)?;
        let settled = settle(alloc, &units, entries)?;
        let items = items_of(alloc, settled.cells.as_slice(), &modules)?;
        let Settled { cells, entries } = settled;
        Ok(Program {
            modules: Seq::of(modules),
            cells,
            entries,
            items,
        })
    }
}
