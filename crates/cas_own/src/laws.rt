//! Laws of the ownership check's definitions, each the contract of a function without effect.

ghost use Rattle.cas_own.specs.Laws.{SetsAscend, OthersStay, SetsAreOfLocks, DifferencesAreFirst, GuardsAreHeld};

/// Sets of locks ascend, and go on ascending where a lock is taken or released.
pub fn sets_ascend()
    ensures { SetsAscend }
{}

/// Taking and releasing a lock changes no other lock of the set.
pub fn others_stay()
    ensures { OthersStay }
{}

/// The set of some locks has them and no others.
pub fn sets_are_of_locks()
    ensures { SetsAreOfLocks }
{}

/// Sets differ in no lock exactly if they are equal; else they differ in the reported lock, and in none
/// before it.
pub fn differences_are_first()
    ensures { DifferencesAreFirst }
{}

/// A walk without a fault passes only names of globals whose guards are in the set.
pub fn guards_are_held()
    ensures { GuardsAreHeld }
{}
