//! A call's activation begins.

ghost use Rattle.std.specs.Prelude.{◌≡◌, ◌∷◌, ℕ, List, Some, None, true, IfOk, OnErr, map};
ghost use Rattle.cas_base.specs.declared.act.Act.TheVariants as act;
ghost use Rattle.cas_step.specs.Well_formed.{IsAt};
ghost use Rattle.cas_step.specs.Step as step;
ghost use Rattle.cas_step.specs.Step.{doing, step_to, with_call};
ghost use Rattle.cas_memory.specs.Values.{value_of};
ghost use Rattle.cas_program.specs.Program.{env_of};
ghost use Rattle.cas_typed.specs.Resolved.{TypedFunTree, TypedModuleTree};
ghost use Rattle.cas_whole.specs.Whole.{AreTyped, function_at as stands_at};
ghost use Rattle.cas_thread.specs.Control.{after};
ghost use Rattle.cas_thread.specs.Frames.{AreThread, IsAThread};
ghost use Rattle.cas_thread.specs.Stepping.{IsTaken};

use crate::call::{function_at, new_frame};
use crate::config::{Config, advance_newest};
use cas_base::{Act, NoMemory};
use cas_memory::Value;
use cas_typed::{Destination, Typed};

impl Config {
    /// Continues after the newest call's first item, and begins a call of the function that stands there with these
    /// arguments. None if there is no such function. If it runs out of memory, nothing changes.
    pub(crate) fn enter(
        &mut self,
        modules: &[Typed],
        at: (u32, u32),
        target: Option<Destination>,
        values: &[Value],
    ) -> Result<Option<Act>, NoMemory>
        requires { ∥ IsAThread modules.now self.old ∥₁ }
        ensures taken { IfOk result (λ done. (ms : List TypedModuleTree) (h : step.StepContext) (rs : List ℕ)
            (s : step.Step) (m : TypedModuleTree) (it : TypedFunTree) → AreTyped modules.now ms
            → AreThread modules.now self.old h.config → h.config.activations ≡ h.newest ∷ h.older →
            IsAt ms (stands_at at) m it
            → step_to (env_of ms) h rs act.Quiet (with_call (env_of ms)
            (doing h (after true h.newest.cont)) h.config.memory h.config.fresh (stands_at at)
            (map value_of values.now) target) ≡ s
            → IsTaken modules.now done self.new s) }
        ensures kept { OnErr result ((c : step.Config) → AreThread modules.now self.old c →
            AreThread modules.now self.new c) }
    {
        match function_at(modules, at.0, at.1) {
            Some(function) => {
                let fresh = match self.fresh.checked_add(1) {
                    Some(fresh) => fresh,
                    None => return Err(NoMemory),
                };
                let frame = new_frame(self.alloc, self.fresh, at, target, function)?;
                self.frames.reserve(1)?;
                self.memory
                    .push(self.fresh, function.locals.as_slice(), values)?;
                advance_newest(modules, &mut self.frames, true);
                self.frames.push_reserved(frame);
                self.fresh = fresh;
                Ok(Some(Act::Quiet))
            }
            None => Ok(None),
        }
    }
}
