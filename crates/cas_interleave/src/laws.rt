//! Laws of interleavings, each the contract of a function without effect.

ghost use Rattle.cas_interleave.specs.Interleaving.{BadIsBad, LabelsInterleave};

/// For legal labels and a run of each thread of a checked program with its own of them, with any quiet steps since,
/// there is an interleaving of the program to a world in which each thread is where its run stands: with its
/// configuration, the holders of locks, the words of free locks and the output that the labels tell, and the words of a
/// lock that is held in its holder's share. Where a thread's run is at a Bad step, the thread's next act in that world
/// is Bad.
pub fn labels_interleave()
    ensures interleaved { LabelsInterleave }
    ensures bad { BadIsBad }
{
    cas_bridge::laws::threads_agree();
    cas_world::laws::worlds_are_sound();
    cas_world::laws::touches_are_guarded();
    cas_world::laws::unlocks_are_of_holders();
    cas_program::laws::entries_are_entered();
    cas_program::laws::initial_store_is_well_typed();
    cas_program::laws::guards_are_locks();
}
