//! Laws of the step, each the contract of a function without effect.

ghost use Rattle.cas_step.specs.Laws.{FootprintsAreNamed, StepsAreDetermined, ReachableThreadsStep, TablesStay, WritesAreReported};
ghost use Rattle.cas_step.specs.Sound.{ReachableThreadsAreSound, ProgressAndPreservation, ValuesAreSorted};

/// A thread's footprint has only words of shared globals that its statement names.
pub fn footprints_are_named()
    ensures { FootprintsAreNamed }
{}

/// A step is determined by the configuration, the words that it reads, and the tables of constants, which never change.
pub fn steps_are_determined()
    ensures { StepsAreDetermined }
{}

/// A step changes only words that its footprint reports as written.
pub fn writes_are_reported()
    ensures { WritesAreReported }
{}

/// Tables of constants never change: no word belongs to two globals, and a step writes only words of shared globals.
pub fn tables_stay()
    ensures { TablesStay }
{}

/// Each reachable thread is sound: values have the types of their cells, pointers to live objects go to places
/// within or at the end of objects of their kind, and continuations are parts of the functions' bodies.
pub fn reachable_threads_are_sound()
    ensures { ReachableThreadsAreSound }
{}

/// A reachable thread that hasn't ended has a step over each well-typed store, so it is never stuck. Unless the step is
/// Bad, the next configuration is reachable and the next store well-typed.
pub fn reachable_threads_step()
    ensures { ReachableThreadsStep }
{}

/// Progress and preservation: a sound thread that hasn't ended has a step over each well-typed store, and after the
/// step the thread is sound and the store well-typed.
pub fn progress_and_preservation()
    ensures { ProgressAndPreservation }
{}

/// In a sound thread a well-sorted expression has a value of its sort, or fails; it is never stuck.
pub fn values_are_sorted()
    ensures { ValuesAreSorted }
{}
