//! The lock object is sound over store buffers, whatever programs call it.
//!
//! Threads run any programs over shared words. Between them they call `lock` and `unlock`, whose eight instructions are
//! a locked decrement that is repeated while the lock is taken, and a plain store of 1. Each thread has a first-in
//! first-out buffer of stores, as on x86-TSO. Each run is one of the same threads over atomic locks: there is a legal
//! list of labels, and each thread over atomic locks is where the buffered one is, or a step of one of them is Bad
//! before.
#![tactic(auto)]

ghost use Rattle.std.specs.Prelude.{ℕ};
ghost use Rattle.cas_runs.specs.Edge.{Edge};
ghost use Rattle.cas_runs.specs.Machine.{Machine};
ghost use Rattle.cas_atomic.specs.Kinds.{KindsFollow};
ghost use Rattle.cas_atomic.specs.Program.{Setup};
ghost use Rattle.cas_atomic.specs.Sound.{AcceptedIsSound};
ghost use Rattle.cas_atomic.specs.Unsound.{enters_taken, never_waits, adds_one, stores_zero, IsUnsound};

/// Each run is explained by labels over atomic locks, or a first part of it is and then a thread's next step over
/// atomic locks is Bad.
#[tactic(auto, using(crate::proofs::Alone::sound))]
pub fn buffered_locks_are_sound<X>()
    ensures { (p : Setup X) → AcceptedIsSound p }
{}

/// The words that a Lock brings are of their kinds, if the first words are and the words that threads give back are.
#[tactic(auto, using(crate::proofs::Following::kinds_follow))]
pub fn kinds_follow<S>()
    ensures { (edge : Edge) (n : ℕ) (t : ℕ → Machine S) → KindsFollow edge n t }
{}

/// Two threads show of four other bodies that they aren't sound: one enters a taken lock, one never waits, so that the
/// lock's word falls without end, and two don't give the lock back, since their `unlock` adds 1 or stores 0.
pub fn other_bodies_are_unsound()
    ensures entering { IsUnsound enters_taken }
    ensures falling { IsUnsound never_waits }
    ensures adding { IsUnsound adds_one }
    ensures clearing { IsUnsound stores_zero }
{}
