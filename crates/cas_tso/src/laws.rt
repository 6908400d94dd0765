//! Laws of the machine, each the contract of a function without effect.

ghost use Rattle.std.specs.Prelude.{◌≡◌, ◌≤◌, ℕ, List, Some, length, slice_get, slice_index};
ghost use Rattle.std.specs.Option.{unwrap_or};
ghost use Rattle.cas_tso.specs.Counted.{IsKept, most_fuel};
ghost use Rattle.cas_tso.specs.Frame.{IsFramed, IsKeptBeside, loaded_word, sees, view_after, word_after};
ghost use Rattle.cas_tso.specs.Rounds.{Rounds};
ghost use Rattle.cas_tso.specs.Run.{Reaches, Run, start_state};
ghost use Rattle.cas_tso.specs.State.{Setup, State, Thread, newest};
ghost use Rattle.cas_tso.specs.Step.{Act, Step, Takes};
ghost use Rattle.cas_tso.specs.Tally.{down_from, outputs_of, tally, tickets_of};
ghost use Rattle.cas_tso.specs.Timed.{TimedRun};

/// Each state that a run reaches has counts that count what they say, and buffers of at most 64 stores.
pub fn reached_states_are_kept()
    ensures step { (p : Setup) (s t : State) (i : ℕ) (a : Act) → p.options.fuel ≤ most_fuel → IsKept p s
        → Step p s i a t → IsKept p t }
    ensures reached { (p : Setup) (s : State) → p.options.fuel ≤ most_fuel → Reaches p s → IsKept p s }
{}

/// A timed run is a run. Rounds from the start, with the hold of the options, are a timed run.
pub fn rounds_are_timed_runs()
    ensures run { (p : Setup) (acts : List (ℕ × Act)) (s : State) → TimedRun p acts s → Run p acts s }
    ensures rounds { (p : Setup) (s : State) → Rounds p p.options.hold (start_state p) s
        → (acts : List (ℕ × Act)) × TimedRun p acts s }
{}

/// A step changes one thread, and of memory and output only what its act writes. An act changes its thread's buffer
/// only as a store or a drain, and its processor only as an instruction.
pub fn steps_leave_the_rest()
    ensures machine { (p : Setup) (s t : State) (i : ℕ) (a : Act) → Step p s i a t → IsFramed i a s t }
    ensures thread { (p : Setup) (c d : Thread) (a : Act) → Takes p c a d → IsKeptBeside a c d }
{}

/// Memory after a step, and what each thread sees of a word: its own newest store to it, else memory. A thread sees
/// its own stores at once, and no drain of its own changes what it sees. It sees what others drain where it has no
/// store of its own. What a load finds is what its thread sees.
pub fn views_follow_acts()
    ensures memory { (p : Setup) (s t : State) (i : ℕ) (a : Act) → Step p s i a t → (k : ℕ)
        → slice_index t.memory k ≡ word_after a k (slice_index s.memory k) }
    ensures own { (p : Setup) (s t : State) (i : ℕ) (a : Act) → Step p s i a t → (c d : Thread)
        → slice_get s.threads i ≡ Some c → slice_get t.threads i ≡ Some d → (k : ℕ)
        → sees t d k ≡ view_after a k (sees s c k) }
    ensures other { (p : Setup) (s t : State) (i : ℕ) (a : Act) → Step p s i a t → (c : Thread) (k : ℕ)
        → sees t c k ≡ unwrap_or (newest c.buffer k) (word_after a k (slice_index s.memory k)) }
    ensures load { (p : Setup) (s t : State) (i : ℕ) (a : Act) → Step p s i a t → (c : Thread)
        → slice_get s.threads i ≡ Some c → (k word : ℕ) → loaded_word a ≡ Some (k, word) → sees s c k ≡ word }
{}

/// Over a run each count of a thread is the number of its acts of that kind, the output has what its `out`s put out in
/// their order, and their tickets are the numbers from 0 on, each drawn once.
pub fn counts_are_those_of_the_run()
    ensures counts { (p : Setup) (acts : List (ℕ × Act)) (s : State) → Run p acts s → (i : ℕ) (c : Thread)
        → slice_get s.threads i ≡ Some c → c.counts ≡ tally i acts }
    ensures output { (p : Setup) (acts : List (ℕ × Act)) (s : State) → Run p acts s → s.output ≡ outputs_of acts }
    ensures tickets { (p : Setup) (acts : List (ℕ × Act)) (s : State) → Run p acts s
        → tickets_of acts ≡ down_from (length s.output) }
{}
