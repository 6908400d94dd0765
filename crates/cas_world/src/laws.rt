//! Laws of programs of checked modules, each the contract of a function without effect.

ghost use Rattle.cas_world.specs.Sound_worlds.{EndsAreReported, WorldsAreSound};
ghost use Rattle.cas_world.specs.Owned.{StepsKeepOwned, WorldsAreOwned};
ghost use Rattle.cas_world.specs.Races.{RacesAbsent, TouchesAreGuarded, UnlocksAreOfHolders};
ghost use Rattle.cas_world.specs.Turns.{RoundsInterleave, RoundsStay, RoundsTakeTurns, TurnsInterleave, TurnsMove, TurnsStay};
ghost use Rattle.cas_world.specs.Lock_flow.{NamesAreChecked};

/// Each program of checked modules is race-free, safe or not: in no reachable world do two threads that may step
/// touch one shared word with at least one of them writing it. (Race freedom by ownership, as in concurrent
/// separation logic.)
pub fn races_absent()
    ensures { RacesAbsent }
{
    touches_are_guarded();
    cas_program::laws::declarations_agree();
}

/// In each program of checked modules a thread whose next step touches a word holds the lock that guards the word,
/// even if the step is Bad.
pub fn touches_are_guarded()
    ensures { TouchesAreGuarded }
{
    cas_typed::laws::typed_modules_have_bodies();
    cas_step::laws::footprints_are_named();
    cas_program::laws::environments_are_well_formed();
    cas_program::laws::entries_are_entered();
    cas_program::laws::guards_are_locks();
    cas_program::laws::declarations_agree();
}

/// In each program of checked modules a thread that releases a lock holds it: no thread releases a lock of another.
pub fn unlocks_are_of_holders()
    ensures { UnlocksAreOfHolders }
{
    cas_typed::laws::typed_modules_have_bodies();
    cas_step::laws::footprints_are_named();
    cas_program::laws::environments_are_well_formed();
    cas_program::laws::entries_are_entered();
    cas_program::laws::guards_are_locks();
    cas_program::laws::declarations_agree();
}

/// In each program of checked modules each reachable world is owned, and each step keeps that: the continuations of
/// a thread's activations have the lock flow that the ownership check has walked, each lock is held by the thread
/// that has it in one of its activations' parts, and each holder is a thread of the world.
pub fn worlds_are_owned()
    ensures reached { WorldsAreOwned }
    ensures kept { StepsKeepOwned }
{
    cas_typed::laws::typed_modules_have_bodies();
    cas_step::laws::footprints_are_named();
    cas_program::laws::environments_are_well_formed();
    cas_program::laws::entries_are_entered();
    cas_program::laws::guards_are_locks();
    cas_program::laws::declarations_agree();
}

/// The ownership check checks each global that an expression, a target or an argument names, in order of text. These
/// are the globals whose words may be in a footprint.
pub fn names_are_checked()
    ensures { NamesAreChecked }
{}

/// A schedule leads to the same world as the interleaving of its turns that are taken, in their order; and so do
/// rounds.
pub fn turns_interleave()
    ensures schedule { TurnsInterleave }
    ensures rounds { RoundsInterleave }
{}

/// A turn that is taken changes its thread. So a turn that changes nothing still does so when it is repeated, after
/// a round that changes nothing none does, and a round changes nothing exactly if no turn in it is taken.
pub fn turns_stay()
    ensures moved { TurnsMove }
    ensures thread { TurnsStay }
    ensures rounds { RoundsStay }
    ensures taken { RoundsTakeTurns }
{}

/// In each program with at most 2^32 threads, checked or not, each reachable world is sound: its store is
/// well-typed, its threads are sound and never stuck, and each lock that a next step takes or releases exists. So
/// the state of a thread is `ended` exactly if it has ended. (Type soundness by progress and preservation, for
/// threads that take turns.)
pub fn worlds_are_sound()
    ensures fit { WorldsAreSound }
    ensures ends { EndsAreReported }
{
    cas_program::laws::environments_are_well_formed();
    cas_program::laws::entries_are_entered();
    cas_program::laws::initial_store_is_well_typed();
    cas_program::laws::guards_are_locks();
    cas_step::laws::reachable_threads_are_sound();
    cas_step::laws::progress_and_preservation();
}
