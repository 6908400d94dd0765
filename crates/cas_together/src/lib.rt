//! Threads together, without a language: from legal labels of all threads to what each of them does, who holds which
//! lock, and which turns of the threads lead along the labels.
#![tactic(auto)]

ghost use Rattle.std.specs.Prelude.{◌≡◌, ◌⊎◌, ℕ, ◌<◌, List};
ghost use Rattle.cas_atomic.specs.Kinds.{RunTogether};
ghost use Rattle.cas_runs.specs.Edge.{Edge};
ghost use Rattle.cas_runs.specs.Label.{Each};
ghost use Rattle.cas_runs.specs.Legal.{IsLegal, ThreadLabel, projection};
ghost use Rattle.cas_runs.specs.Machine.{Machine};
ghost use Rattle.cas_runs.specs.Refines.{EachKept, Reached};
ghost use Rattle.cas_runs.specs.Rules.{KeepsKinds, KeepsRules};
ghost use Rattle.cas_runs.specs.Unit.{IsInKind};
ghost use Rattle.cas_together.specs.Holder.{Held};
ghost use Rattle.cas_together.specs.Threads.{AllKept, BadFirst, FreeInKind, HaveRuns};
ghost use Rattle.cas_together.specs.Turns.{GoAlong, Ordered, Paced, since_then, steps_of, turns_of, up_to};

/// Where each target's runs are kept by its source, legal labels of the targets over any words are kept by all sources
/// at once, with the same labels; or a first part of them leads to where one source is Bad.
pub fn threads_are_kept<T, S>()
    ensures { (edge : Edge) (n : ℕ) (t : ℕ → Machine T) (s : ℕ → Machine S) → ((i : ℕ) → i < n →
        EachKept edge (t i) (s i)) → FreeInKind edge n s → (ls : List ThreadLabel) (to : ℕ → Reached T) →
        RunTogether edge n t ls to → BadFirst edge n s ls ⊎ AllKept edge n t s ls to }
{}

/// A free lock has words of its kinds, where what the threads give back is in kind and the first words are.
pub fn free_locks_are_in_kind<S>()
    ensures { (edge : Edge) (n : ℕ) (s : ℕ → Machine S) → ((i : ℕ) → i < n → KeepsKinds edge (s i)) →
        Each IsInKind edge.cells → FreeInKind edge n s }
{}

/// After legal labels of threads that keep the rules, a lock is in the share of exactly the thread that locked it last,
/// if it hasn't been unlocked since, and there once.
pub fn locks_are_held<S>()
    ensures { (edge : Edge) (n : ℕ) (s : ℕ → Machine S) → ((i : ℕ) → i < n → KeepsRules edge (s i)) →
        (ls : List ThreadLabel) → IsLegal edge.cells n ls → HaveRuns edge n s ls → Held n ls }
{}

/// Worlds over the threads of a program, of which it is shown that they go along with labels.
pub trait Worlds {
    /// The states of the threads' machines.
    ghost state: { Type 0 };

    /// The worlds.
    ghost world: { Type 0 };

    /// Which worlds a turn of a thread leads to.
    ghost moves: { world → ℕ → world → Type 0 };

    ghost first: { world };

    /// In the world each thread stands where its run with its own of the labels does.
    ghost agrees: { world → List ThreadLabel → (ℕ → state) → Type 0 };

    ghost edge: { Edge };

    /// How many threads there are.
    ghost count: { ℕ };

    ghost threads: { ℕ → Machine state };

    /// A step of a thread's machine is a turn of the thread.
    fn go_along()
        ensures { GoAlong moves first agrees edge count threads };
}

/// Legal labels and a run of each thread, with any quiet steps since, give turns that lead to a world in which each
/// thread is where its run stands.
pub fn labels_lead<W: Worlds>()
    ensures { (ls : List ThreadLabel) → IsLegal W.edge.cells W.count ls → (cs : ℕ → List ℕ) (ks : ℕ → ℕ)
        (ys : ℕ → W.state) → ((i : ℕ) → i < W.count → Paced W.edge (W.threads i) (projection i ls) (cs i) (ks i) (ys i))
        → Ordered W.moves W.first W.agrees (since_then W.count ks (up_to ls cs)) ls ys }
{
    W::go_along();
}

/// Each thread has as many of these turns as its run has steps.
#[tactic(auto, using(crate::proofs::Counting::turns_told))]
pub fn turns_are_counted<S>()
    ensures { (edge : Edge) (m : Machine S) (n i : ℕ) → i < n → (ls : List ThreadLabel) (cs : ℕ → List ℕ) (ks : ℕ → ℕ)
        (y : S) → Paced edge m (projection i ls) (cs i) (ks i) y →
        turns_of i (since_then n ks (up_to ls cs)) ≡ steps_of (cs i) (ks i) }
{}
