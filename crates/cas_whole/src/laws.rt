//! Laws of programs, each the contract of a function without effect.

ghost use Rattle.std.specs.Prelude.{◌≡◌, ℕ, List};
ghost use Rattle.cas_typed.specs.Resolved.{TypedModuleTree};
ghost use Rattle.cas_program.specs.Program.{entries_of, IsProgram};
ghost use Rattle.cas_whole.specs.Program_of.{IsProgramOf};
ghost use Rattle.cas_whole.specs.declared.program.Program.{Program};

/// A program of the code is that of one list of resolved modules, whose threads begin at the same functions.
pub fn programs_are_one()
    ensures modules { (p : Program) (ms others : List TypedModuleTree) (names more : List (List ℕ)) →
        IsProgramOf p ms names → IsProgramOf p others more → ms ≡ others }
    ensures entries { (p : Program) (ms others : List TypedModuleTree) (names more : List (List ℕ)) →
        IsProgramOf p ms names → IsProgramOf p others more → entries_of ms names ≡ entries_of others more }
    ensures programs { (p : Program) (ms : List TypedModuleTree) (names : List (List ℕ)) → IsProgramOf p ms names →
        IsProgram ms names }
{}
