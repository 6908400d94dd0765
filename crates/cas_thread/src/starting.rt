//! Threads at their start.

ghost use Rattle.std.specs.Prelude.{◌≡◌, ◌<◌, [], ◌∷◌, List, Some, IfOk, length, slice_get};
ghost use Rattle.cas_step.specs.Asks.{word};
ghost use Rattle.cas_step.specs.Step.{start as started};
ghost use Rattle.cas_program.specs.Program.{env_of};
ghost use Rattle.cas_typed.specs.Resolved.{TypedModuleTree};
ghost use Rattle.cas_typed.specs.declared.typed.Typed.{Typed};
ghost use Rattle.cas_whole.specs.Bodies.{typed_at};
ghost use Rattle.cas_whole.specs.Whole.{AreTyped, function_at as stands_at};
ghost use Rattle.cas_thread.specs.Frames.{AreThread};
ghost use Rattle.cas_thread.specs.Thread.{IsStarted};

use crate::call::{function_at, new_frame};
use crate::config::Config;
use cas_base::NoMemory;
use cas_memory::{Memory, Value};
use cas_program::laws::entries_are_entered;
use cas_typed::TypedFun;
use cas_whole::Program;
use std::alloc::Global;

// Where the thread with this number begins, if there is such a thread.
#[tactic(auto, using(crate::proofs::Getting::get_there, crate::proofs::Getting::get_past))]
fn entry_at(entries: &[(u32, u32)], thread: u32) -> Option<(u32, u32)>
    ensures { result ≡ slice_get entries.now thread }
{
    entries.get(thread as usize).copied()
}

// A thread at the start of this function, which stands there, with its number as the argument.
fn started_at(
    alloc: Global,
    at: (u32, u32),
    function: &TypedFun,
    thread: u32,
) -> Result<Config, NoMemory>
    ensures { IfOk result (λ config. (ts : List Typed) (ms : List TypedModuleTree) → AreTyped ts ms →
        typed_at ts at.0 at.1 ≡ Some function.now
        → AreThread ts config (started (env_of ms) (stands_at at) (word thread ∷ []))) }
{
    let frame = new_frame(alloc, 0, at, None, function)?;
    let mut frames = Vec::new(alloc);
    frames.push(frame)?;
    let mut memory = Memory::new(alloc);
    memory.push(0, function.locals.as_slice(), &[Value::Word(thread)])?;
    Ok(Config {
        alloc,
        frames,
        memory,
        fresh: 1,
    })
}

/// The thread of a program with this number, at its start: its entry is called with the number. An error is want of
/// memory.
pub fn start(alloc: Global, program: &Program, thread: u32) -> Result<Config, NoMemory>
    requires { thread < length program.now.entries }
    ensures { IfOk result (λ config. IsStarted program.now thread config) }
{
    entries_are_entered();
    match entry_at(program.entries(), thread) {
        Some(at) => match function_at(program.modules(), at.0, at.1) {
            Some(function) => started_at(alloc, at, function, thread),
            None => unreachable!(),
        },
        None => unreachable!(),
    }
}
