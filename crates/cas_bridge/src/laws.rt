//! Laws of the bridge, each the contract of a function without effect.

ghost use Rattle.cas_bridge.specs.Ported.{ClightIsPortable, ClightStepsAreSame};
ghost use Rattle.cas_bridge.specs.Steps.{StepsAgree};
ghost use Rattle.cas_bridge.specs.Threads.{ThreadsAgree, ThreadsAreFramed, ThreadsStart};

/// Each step of a thread of a whole program, whose words are its share's, is that of the same activation in the layer
/// of calls, and back.
pub fn steps_agree()
    ensures { StepsAgree }
{}

/// A thread of a program and the same thread over label runs: each step of the one, through calls and returns, is that
/// of the other, with its act, its footprint and the words of its share. They are at the same where they begin, and stay
/// so where other threads change words that they don't hold.
pub fn threads_agree()
    ensures starts { ThreadsStart }
    ensures steps { ThreadsAgree }
    ensures frame { ThreadsAreFramed }
{}

/// Clight is portable: an activation does the same wherever its objects are in memory, and whatever its serial number
/// is, and its pointers go to places of their objects. So a step of a unit's activation is that of the same activation
/// of the thread of the whole program, over the same share.
pub fn clight_is_portable()
    ensures portable { ClightIsPortable }
    ensures steps { ClightStepsAreSame }
{}
