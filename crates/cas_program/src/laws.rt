//! Laws of programs, each the contract of a function without effect.

ghost use Rattle.cas_program.specs.Laws.{DeclarationsAgree, EntriesAreEntered, EntriesAreInOrder, EntriesHoldNone, FunctionsAgree, GuardsAgree, GuardsAreLocks, GuardsAreWords, InitialValuesStand, InitialStoreIsWellTyped, LocksAreByName, LocksAreDeclared, LocksBeginFree, EnvironmentsAreWellFormed, SharedAreDeclared};

/// The environment of a program is well-formed: each declaration stands for what it declares, and no word belongs to
/// two globals or locks.
pub fn environments_are_well_formed()
    ensures { EnvironmentsAreWellFormed }
{}

/// The entries of a program are the functions of the names, one for each, in their order. Threads may begin there, and
/// hold no lock at their start.
pub fn entries_are_entered()
    ensures in_order { EntriesAreInOrder }
    ensures entered { EntriesAreEntered }
    ensures none_held { EntriesHoldNone }
{}

/// The initial store of a program is well-typed, and each guard is a lock's word. The initial value of each word of a
/// global is its value at the global's definition; that of a lock is 1.
pub fn initial_store_is_well_typed()
    ensures words { InitialStoreIsWellTyped }
    ensures guards { GuardsAreWords }
    ensures values { InitialValuesStand }
    ensures locks { LocksBeginFree }
{}

/// The guard of a shared global in its module is a lock of the program. A lock has the same word in all modules, and no
/// two locks have the same word.
pub fn guards_are_locks()
    ensures guards { GuardsAreLocks }
    ensures shared_ones { SharedAreDeclared }
    ensures locks { LocksAreDeclared }
    ensures names { LocksAreByName }
{}

/// Declarations of one name stand for the same thing, and agree: functions in their parameters, return types and
/// `holds`, shared globals in their guards.
pub fn declarations_agree()
    ensures declarations { DeclarationsAgree }
    ensures functions { FunctionsAgree }
    ensures guards { GuardsAgree }
{}
