//! What the items and functions of programs are.

ghost use Rattle.std.specs.Prelude.{◌≡◌, ℕ, List, Some, slice_get, IfSome, IsSome};
ghost use Rattle.cas_typed.specs.Resolved.{TypedFunTree, TypedModuleTree};
ghost use Rattle.cas_step.specs.Well_formed.{IsAt};
ghost use Rattle.cas_memory.specs.Entities.{entity_if};
ghost use Rattle.cas_program.specs.Program.{env_of};
ghost use Rattle.cas_whole.specs.Bodies.{IsBodyOf, typed_at};
ghost use Rattle.cas_whole.specs.Program_of.{IsProgramOf};

use crate::body::{Body, body_in};
use crate::program::Program;
use cas_memory::Entity;

impl Program {
    /// What the items of a module stand for, each by its number. There is none if there is no such module.
    pub fn items(&self, unit: u32) -> &[Option<Entity>]
        ensures { (ms : List TypedModuleTree) (names : List (List ℕ)) (item : ℕ) → IsProgramOf self.now ms names →
            entity_if (slice_get result.now item) ≡ (env_of ms).entity unit item }
    {
        match self.items.as_slice().get(unit as usize) {
            Some(row) => row.as_slice(),
            None => &[],
        }
    }

    /// The function at this place among those that the module with this number defines.
    pub fn function(&self, unit: u32, place: u32) -> Option<Body<'_>>
        ensures same { IfSome result (λ found. typed_at self.now.modules unit place ≡ Some found.typed.now) }
        ensures found { IfSome result (λ found. (ms : List TypedModuleTree) (names : List (List ℕ)) →
            IsProgramOf self.now ms names → IsBodyOf ms (record { unit = unit; place = place }) found) }
        ensures there { (ms : List TypedModuleTree) (names : List (List ℕ)) (m : TypedModuleTree) (it : TypedFunTree) →
            IsProgramOf self.now ms names → IsAt ms (record { unit = unit; place = place }) m it → IsSome result }
    {
        match self.modules.as_slice().get(unit as usize) {
            Some(typed) => body_in(typed, place),
            None => None,
        }
    }
}
