//! Worlds.

ghost use Rattle.std.specs.Prelude.{◌≡◌, ℕ, ◌^◌, ◌<◌, List, IfErr, IfOk, OnErr, OnOk, slice_get, vec_len};
ghost use Rattle.cas_program.specs.Program.{env_of};
ghost use Rattle.cas_turn.specs.Answers.{Answers, IsRunning, activations_of, state_shown};
ghost use Rattle.cas_turn.specs.Shown.{AreWorldOf};
ghost use Rattle.cas_typed.specs.Resolved.{TypedModuleTree};
ghost use Rattle.cas_whole.specs.Program_of.{IsProgramOf};
ghost use Rattle.cas_world.specs.Races.{program_world};
ghost use Rattle.cas_world.specs.Turns.{state_of};
ghost use Rattle.cas_world.specs.World as definition;
ghost use Rattle.cas_world.specs.World.{Reaches, world_after};

use crate::answer::{ThreadState, WorldAnswer};
use crate::first::{first_threads, no_holders};
use crate::standing::state_at;
use crate::turn::turn;
use cas_base::NoMemory;
use cas_thread::{Config, Shared};
use cas_whole::{Program, initial_words};
use std::alloc::Global;

/// A world of a program: its threads, the shared words, who holds the locks, and the output. There is always an
/// interleaving of the program's threads that reaches it from the program's first world.
#[derive(Drop)]
pub struct World {
    program: Program,
    threads: Vec<Config>,
    shared: Shared,
    /// For each word the holder of the lock that it is, or none.
    holders: Vec<Option<u32>>,
    /// The words that were output, each after its thread's number.
    out: Vec<(u32, u32)>,
    pub ghost reached: { ∥ ((ms : List TypedModuleTree) × (names : List (List ℕ)) × (w : definition.World) ×
        AreWorldOf program threads.items shared.words.items holders.items out.items ms names w ×
        Reaches (env_of ms) (program_world ms names) w) ∥₁ },
    ghost numbered: { vec_len threads < 2 ^ 32 },
}

impl World {
    ghost use Rattle.cas_turn.specs.World_of.{IsWorldOf};

    /// The first world of a program: all threads at their entries, the initial words, no lock held, no output.
    pub fn start(alloc: Global, program: Program) -> Result<World, NoMemory>
        ensures program { IfOk result (λ world. world.program ≡ program) }
        ensures first { IfOk result (λ world. (ms : List TypedModuleTree) (names : List (List ℕ)) →
            IsProgramOf program ms names → IsWorldOf world ms names (program_world ms names)) }
    {
        let words = initial_words(alloc, &program)?;
        let holders = no_holders(alloc, words.len())?;
        let threads = first_threads(alloc, &program)?;
        Ok(World {
            program,
            threads,
            shared: Shared { words },
            holders,
            out: Vec::new(alloc),
        })
    }

    /// The program.
    pub fn program(&self) -> &Program
        ensures { result.now ≡ self.now.program }
    {
        &self.program
    }

    /// How many threads there are. They have the numbers from 0 on.
    pub fn threads(&self) -> u32
        ensures { result ≡ vec_len self.now.threads }
    {
        self.threads.len() as u32
    }

    /// The output so far: the words that were output, each after its thread's number, the first one first.
    pub fn out(&self) -> &[(u32, u32)]
        ensures { (ms : List TypedModuleTree) (names : List (List ℕ)) (w : definition.World) →
            IsWorldOf self.now ms names w → result.now ≡ w.out }
    {
        self.out.as_slice()
    }

    /// The state of a thread. A thread that isn't there has ended.
    pub fn state(&self, thread: u32) -> ThreadState
        ensures { (ms : List TypedModuleTree) (names : List (List ℕ)) (w : definition.World) →
            IsWorldOf self.now ms names w → result ≡ state_shown (state_of (env_of ms) w thread) }
    {
        cas_whole::laws::programs_are_one();
        cas_thread::laws::threads_are_one();
        cas_world::laws::worlds_are_sound();
        if thread >= self.threads() {
            return ThreadState::Ended;
        }
        let config = &self.threads[thread as usize];
        state_at(&self.program, config, &self.shared, &self.holders)
    }

    /// A turn of a thread: it takes its next step, or the answer says why not, and nothing changes. It runs out of
    /// memory only if the thread may take its step, and the step begins a call or outputs a word.
    pub fn step(&mut self, thread: u32) -> Result<(), WorldAnswer>
        requires { thread < vec_len self.old.threads }
        ensures program { self.new.program ≡ self.old.program }
        ensures threads { vec_len self.new.threads ≡ vec_len self.old.threads }
        ensures taken { OnOk result ((ms : List TypedModuleTree) (names : List (List ℕ)) (w : definition.World) →
            IsWorldOf self.old ms names w → IsRunning (state_of (env_of ms) w thread)
            (λ s. IsWorldOf self.new ms names (world_after w thread s))) }
        ensures unmoved { OnErr result ((ms : List TypedModuleTree) (names : List (List ℕ)) (w : definition.World) →
            IsWorldOf self.old ms names w → IsWorldOf self.new ms names w) }
        ensures answer { IfErr result (λ answer. (ms : List TypedModuleTree) (names : List (List ℕ))
            (w : definition.World) → IsWorldOf self.old ms names w →
            Answers (activations_of w thread) (state_of (env_of ms) w thread) answer) }
    {
        cas_whole::laws::programs_are_one();
        cas_thread::laws::threads_are_one();
        cas_world::laws::worlds_are_sound();
        turn(
            &self.program,
            &mut self.threads[thread as usize],
            &mut self.shared,
            &mut self.holders,
            &mut self.out,
            thread,
        )
    }
}
