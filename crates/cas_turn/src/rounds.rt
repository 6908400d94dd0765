//! Turns of several threads: schedules, and rounds over all threads.

ghost use Rattle.std.specs.Prelude.{◌≡◌, ℕ, List, IfOk, OnErr, OnOk, length, replicate, vec_len};
ghost use Rattle.std.specs.Bool.{OnFalse};
ghost use Rattle.cas_program.specs.Program.{env_of};
ghost use Rattle.cas_turn.specs.Answers.{MayWantMemory, activations_of};
ghost use Rattle.cas_turn.specs.Schedules.{AfterSome, AfterSomeRounds, unrolled};
ghost use Rattle.cas_typed.specs.Resolved.{TypedModuleTree};
ghost use Rattle.cas_world.specs.Turns as definition;
ghost use Rattle.cas_world.specs.Turns.{state_of, threads_from, turns};
ghost use Rattle.cas_world.specs.World.{World as AWorld};

use crate::answer::WorldAnswer;
use crate::item::Item;
use crate::world::World;
use cas_base::NoMemory;

impl World {
    ghost use Rattle.cas_turn.specs.World_of.{IsWorldOf};

    // A turn of a thread, and whether it took its step. If it runs out of memory, nothing has changed. That
    // happens only if the thread may take its step, and the step begins a call or outputs a word.
    fn takes_turn(&mut self, thread: u32) -> Result<bool, NoMemory>
        ensures program { self.new.program ≡ self.old.program }
        ensures threads { vec_len self.new.threads ≡ vec_len self.old.threads }
        ensures turn { OnOk result ((ms : List TypedModuleTree) (names : List (List ℕ)) (w : AWorld) →
            IsWorldOf self.old ms names w → IsWorldOf self.new ms names (definition.turn (env_of ms) w thread)) }
        ensures still { IfOk result (λ moved. OnFalse moved
            ((ms : List TypedModuleTree) (names : List (List ℕ)) (w : AWorld) → IsWorldOf self.old ms names w →
            definition.turn (env_of ms) w thread ≡ w)) }
        ensures cut { OnErr result ((ms : List TypedModuleTree) (names : List (List ℕ)) (w : AWorld) →
            IsWorldOf self.old ms names w → IsWorldOf self.new ms names w) }
        ensures wants { OnErr result ((ms : List TypedModuleTree) (names : List (List ℕ)) (w : AWorld) →
            IsWorldOf self.old ms names w → MayWantMemory (activations_of w thread) (state_of (env_of ms) w thread)) }
    {
        if thread >= self.threads() {
            return Ok(false);
        }
        match self.step(thread) {
            Ok(()) => Ok(true),
            Err(WorldAnswer::Memory) => Err(NoMemory),
            Err(WorldAnswer::Ended) => Ok(false),
            Err(WorldAnswer::Waits { .. }) => Ok(false),
            Err(WorldAnswer::Bad { .. }) => Ok(false),
        }
    }

    // This many turns of a thread; one that changes nothing is the last.
    fn repeat(&mut self, thread: u32, count: u32) -> Result<(), NoMemory>
        ensures program { self.new.program ≡ self.old.program }
        ensures turns { OnOk result ((ms : List TypedModuleTree) (names : List (List ℕ)) (w : AWorld) →
            IsWorldOf self.old ms names w → IsWorldOf self.new ms names
            (turns (env_of ms) w (replicate count thread))) }
        ensures cut { OnErr result ((ms : List TypedModuleTree) (names : List (List ℕ)) (w : AWorld) →
            IsWorldOf self.old ms names w → AfterSome (env_of ms) w (replicate count thread)
            (IsWorldOf self.new ms names)) }
    {
        for _turn in 0..count {
            if !self.takes_turn(thread)? {
                return Ok(());
            }
        }
        Ok(())
    }

    /// The turns of a schedule, in its order. If it runs out of memory, the world is one that some of the turns come
    /// to, in their order from the first on, and in the next turn the thread may take its step, which begins a call
    /// or outputs a word.
    pub fn schedule(&mut self, items: &[Item]) -> Result<(), NoMemory>
        ensures program { self.new.program ≡ self.old.program }
        ensures turns { OnOk result ((ms : List TypedModuleTree) (names : List (List ℕ)) (w : AWorld) →
            IsWorldOf self.old ms names w → IsWorldOf self.new ms names (turns (env_of ms) w (unrolled items.now))) }
        ensures cut { OnErr result ((ms : List TypedModuleTree) (names : List (List ℕ)) (w : AWorld) →
            IsWorldOf self.old ms names w → AfterSome (env_of ms) w (unrolled items.now)
            (IsWorldOf self.new ms names)) }
    {
        let mut rest = items;
        'items: while let Some((item, others)) = rest.split_first() {
            self.repeat(item.thread, item.count)?;
            rest = others;
        }
        Ok(())
    }

    // A round over all threads in order, and whether any took a step.
    fn round(&mut self) -> Result<bool, NoMemory>
        ensures program { self.new.program ≡ self.old.program }
        ensures round { OnOk result ((ms : List TypedModuleTree) (names : List (List ℕ)) (w : AWorld) →
            IsWorldOf self.old ms names w → IsWorldOf self.new ms names (definition.round (env_of ms) w)) }
        ensures still { IfOk result (λ moved. OnFalse moved
            ((ms : List TypedModuleTree) (names : List (List ℕ)) (w : AWorld) → IsWorldOf self.old ms names w →
            definition.round (env_of ms) w ≡ w)) }
        ensures cut { OnErr result ((ms : List TypedModuleTree) (names : List (List ℕ)) (w : AWorld) →
            IsWorldOf self.old ms names w → AfterSome (env_of ms) w (threads_from 0 (length w.threads))
            (IsWorldOf self.new ms names)) }
    {
        let count = self.threads();
        let mut moved = false;
        for thread in 0..count {
            moved |= self.takes_turn(thread)?;
        }
        Ok(moved)
    }

    /// This many rounds over all threads in order; one that changes nothing is the last. If it runs out of memory, the
    /// world is one that some of the turns come to, in their order from the first on, and in the next turn the
    /// thread may take its step, which begins a call or outputs a word.
    pub fn rounds(&mut self, count: u32) -> Result<(), NoMemory>
        ensures program { self.new.program ≡ self.old.program }
        ensures rounds { OnOk result ((ms : List TypedModuleTree) (names : List (List ℕ)) (w : AWorld) →
            IsWorldOf self.old ms names w → IsWorldOf self.new ms names (definition.rounds (env_of ms) w count)) }
        ensures cut { OnErr result ((ms : List TypedModuleTree) (names : List (List ℕ)) (w : AWorld) →
            IsWorldOf self.old ms names w → AfterSomeRounds (env_of ms) w count (IsWorldOf self.new ms names)) }
    {
        for _round in 0..count {
            if !self.round()? {
                return Ok(());
            }
        }
        Ok(())
    }
}
