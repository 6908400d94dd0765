//! Linking: where each unit of a program refines its source, each thread of the program refines its own.
//!
//! `Linkable` is what the languages of target and source show beside that.
#![tactic(auto)]

ghost use Rattle.std.specs.Prelude.{ℕ};
ghost use Rattle.cas_runs.specs.Refines.{Refines};
ghost use Rattle.cas_joins.specs.Units.{Family, IsFamily};
ghost use Rattle.cas_joins.specs.Decomposes.{Target, Decomposes};
ghost use Rattle.cas_joins.specs.Composes.{Source, Composes};

/// A program of units in a target's language and in a source's.
pub trait Linkable {
    /// What units know of each other.
    ghost known: { Type 0 };

    /// The choices of values that nothing fixes.
    ghost unknown: { Type 0 };

    /// The states of the target's units and of its thread.
    ghost unit_state: { Type 0 };

    ghost thread_state: { Type 0 };

    /// Those of the source's.
    ghost source_unit_state: { Type 0 };

    ghost source_thread_state: { Type 0 };

    /// The units, and the rules of their talk.
    ghost family: { Family known };

    /// The machines, and where a thread stands as its units do.
    ghost target: { Target known unknown unit_state thread_state };

    ghost source: { Source known source_unit_state source_thread_state };

    /// The units' words are the thread's, and open functions are put together in order.
    fn is_family()
        ensures { IsFamily family };

    /// A run of the target's thread is made of runs of its units.
    fn decomposes()
        ensures { Decomposes family target };

    /// Runs of the source's units make a run of its thread.
    fn composes()
        ensures { Composes family source };

    /// Each unit refines its source.
    fn units_refine()
        ensures { (u : unknown) (i : ℕ) → Refines (family.edges i) (target.units u i) (source.units i) };
}

/// The thread of the target refines that of the source.
#[tactic(auto)]
pub fn units_link<L: Linkable>()
    ensures { Refines L.family.edge L.target.thread L.source.thread }
{
    L::is_family();
    L::decomposes();
    L::composes();
    L::units_refine();
}
