//! Laws of threads, each the contract of a function without effect.

ghost use Rattle.std.specs.Prelude.{◌≡◌};
ghost use Rattle.cas_step.specs.Step as step;
ghost use Rattle.cas_thread.specs.Thread.{IsThread};
ghost use Rattle.cas_thread.specs.declared.config.Config.{Config};
ghost use Rattle.cas_whole.specs.declared.program.Program.{Program};

/// A thread of the code is one thread.
#[tactic(auto, using(crate::proofs::Once::thread_once))]
pub fn threads_are_one()
    ensures { (p : Program) (k : Config) (c d : step.Config) → IsThread p k c → IsThread p k d → c ≡ d }
{}
