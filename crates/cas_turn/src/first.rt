//! What a program's first world has.

ghost use Rattle.std.specs.Prelude.{◌≡◌, ℕ, ◌^◌, ◌<◌, List, None, replicate, vec_len, IfOk};
ghost use Rattle.cas_program.specs.Program.{env_of, entries_of};
ghost use Rattle.cas_turn.specs.Shown.{AreThreads};
ghost use Rattle.cas_typed.specs.Resolved.{TypedModuleTree};
ghost use Rattle.cas_whole.specs.Program_of.{IsProgramOf};
ghost use Rattle.cas_world.specs.World.{started};

use cas_base::NoMemory;
use cas_thread::{Config, start};
use cas_whole::Program;
use std::alloc::Global;

/// No holder for each of so many words.
pub(crate) fn no_holders(alloc: Global, words: usize) -> Result<Vec<Option<u32>>, NoMemory>
    ensures { IfOk result (λ holders. holders.items ≡ replicate words None) }
{
    let holders = Vec::from_elem(alloc, None, words)?;
    Ok(holders)
}

/// The threads of a program, each at its entry.
pub(crate) fn first_threads(alloc: Global, program: &Program) -> Result<Vec<Config>, NoMemory>
    ensures numbered { IfOk result (λ threads. vec_len threads < 2 ^ 32) }
    ensures threads { IfOk result (λ threads. (ms : List TypedModuleTree) (names : List (List ℕ)) →
        IsProgramOf program.now ms names → AreThreads program.now threads.items
        (started (env_of ms) 0 (entries_of ms names))) }
{
    cas_program::laws::entries_are_entered();
    let count = program.entries().len() as u32;
    let mut threads = Vec::new(alloc);
    for thread in 0..count {
        threads.push(start(alloc, program, thread)?)?;
    }
    Ok(threads)
}
