//! Programs of checked modules.

ghost use Rattle.std.specs.Prelude.{◌≡◌, ℕ, ◌^◌, ◌<◌, List, length, vec_len, All, IfOk};
ghost use Rattle.cas_own.specs.Checked.{IsChecked};
ghost use Rattle.cas_program.specs.Program.{env_of, units_of};
ghost use Rattle.cas_settle.specs.Refusal.{IsRefusedBy};
ghost use Rattle.cas_settle.specs.Settle.{first_refusal};
ghost use Rattle.cas_typed.specs.Resolved.{TypedModuleTree};
ghost use Rattle.cas_turn.specs.Joined.{typed_of};
ghost use Rattle.cas_whole.specs.Program_of.{IsProgramOf};
ghost use Rattle.cas_whole.specs.Whole.{AreTyped};
ghost use Rattle.cas_world.specs.Races.{IsRaceFree, program_world};

use cas_base::{Name, NoMemory};
use cas_own::Checked;
use cas_settle::LinkFault;
use cas_typed::Typed;
use cas_whole::Program;
use std::alloc::Global;

// The typed modules of checked ones.
fn typed_modules(alloc: Global, modules: Vec<Checked>) -> Result<Vec<Typed>, NoMemory>
    ensures { IfOk result (λ typed. typed.items ≡ typed_of modules.items) }
{
    let mut typed = Vec::new(alloc);
    for module in modules {
        typed.push(module.into_typed())?;
    }
    Ok(typed)
}

/// The program of these checked modules whose threads begin at these functions. It is refused as `settle` refuses
/// the modules' declarations with these entries. The program is race-free, safe or not: no two threads that may step
/// touch one shared word, one of them writing it.
pub fn join(alloc: Global, modules: Vec<Checked>, entries: &[Name]) -> Result<Program, LinkFault>
    requires few_modules { vec_len modules < 2 ^ 32 }
    requires few_entries { length entries.now < 2 ^ 32 }
    ensures refused { (ms : List TypedModuleTree) → AreTyped (typed_of modules.items) ms →
        IsRefusedBy result (first_refusal (units_of ms) entries.now) }
    ensures modules { IfOk result (λ made. made.modules ≡ typed_of modules.items) }
    ensures made { IfOk result (λ made. (ms : List TypedModuleTree) → AreTyped (typed_of modules.items) ms →
        IsProgramOf made ms entries.now) }
    ensures checked { IfOk result (λ made. (ms : List TypedModuleTree) (names : List (List ℕ)) →
        IsProgramOf made ms names → All IsChecked ms) }
    ensures race_free { IfOk result (λ made. (ms : List TypedModuleTree) (names : List (List ℕ)) →
        IsProgramOf made ms names → IsRaceFree (env_of ms) (program_world ms names)) }
{
    cas_typed::laws::typed_modules_are_one();
    cas_world::laws::races_absent();
    let typed = typed_modules(alloc, modules)?;
    Program::new(alloc, typed, entries)
}
