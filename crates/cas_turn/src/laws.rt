//! Laws of worlds, each the contract of a function without effect.

ghost use Rattle.std.specs.Prelude.{◌≡◌, ℕ, List};
ghost use Rattle.cas_turn.specs.World_of.{IsWorldOf};
ghost use Rattle.cas_turn.specs.declared.world.World.{World};
ghost use Rattle.cas_typed.specs.Resolved.{TypedModuleTree};
ghost use Rattle.cas_world.specs.World as definition;

/// A world of the code is one world, of a program of one list of resolved modules.
pub fn worlds_are_one()
    ensures modules { (world : World) (ms others : List TypedModuleTree) (names more : List (List ℕ))
        (w v : definition.World) → IsWorldOf world ms names w → IsWorldOf world others more v → ms ≡ others }
    ensures worlds { (world : World) (ms others : List TypedModuleTree) (names more : List (List ℕ))
        (w v : definition.World) → IsWorldOf world ms names w → IsWorldOf world others more v → w ≡ v }
{
    cas_whole::laws::programs_are_one();
    cas_thread::laws::threads_are_one();
}
