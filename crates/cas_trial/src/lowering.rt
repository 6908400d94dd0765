//! The pass that makes two instructions of one, and none of one that does nothing.

ghost use Rattle.std.specs.Prelude.{IfOk, List, [], false, ◌≡◌, ◌++◌};
ghost use Rattle.cas_base.specs.declared.decl.Unit.{Unit as UnitOf};
ghost use Rattle.cas_runs.specs.Calls.{language};
ghost use Rattle.cas_runs.specs.Label.{Each};
ghost use Rattle.cas_runs.specs.Natural.{KeepsAsSource};
ghost use Rattle.cas_runs.specs.Passing.{AllMade};
ghost use Rattle.cas_runs.specs.Unit.{AreDefined, UnitRefines};
ghost use Rattle.cas_runs.specs.Unmoved.{unmoved};
ghost use Rattle.cas_trial.specs.Lowering.Balanced.{IsBalanced};
ghost use Rattle.cas_trial.specs.Lowering.Languages.{LowState, high_language, low_language};
ghost use Rattle.cas_trial.specs.Lowering.Makes.{IsLowered, Makes, MakesOne};
ghost use Rattle.cas_trial.specs.Lowering.Match.{lowering};
ghost use Rattle.cas_trial.specs.declared.lowering.High.{High as HighInstruction};
ghost use Rattle.cas_trial.specs.declared.lowering.Low.{Low as LowInstruction};

use cas_base::{NoMemory, Seq};
use cas_runs::{FunctionPass, units_refine};
use std::alloc::Global;

/// An instruction of the language that the pass takes.
#[derive(Clone, Copy, Debug, PartialEq, Eq)]
pub enum High {
    /// Does nothing.
    Skip,
    /// Takes the lock.
    Take,
    /// Puts out the word behind the lock.
    Show,
    /// Gives the lock back.
    Give,
}

/// An instruction of the language that it makes.
#[derive(Clone, Copy, Debug, PartialEq, Eq)]
pub enum Low {
    /// Takes the lock.
    Take,
    /// Reads the word behind the lock into the register.
    Read,
    /// Puts out the word in the register.
    Put,
    /// Gives the lock back.
    Give,
}

/// The function `main` of the one language.
#[derive(Debug, Drop)]
pub struct HighFunction {
    pub body: Seq<High>,
}

/// The function `main` of the other.
#[derive(Debug, Drop)]
pub struct LowFunction {
    pub body: Seq<Low>,
}

/// Adds what is made of one instruction.
fn add_made(made: &mut Vec<Low>, instruction: High) -> Result<(), NoMemory>
    ensures { IfOk result (λ done.
        (ls : List LowInstruction) × (made.new.items ≡ made.old.items ++ ls) × MakesOne ls instruction) }
{
    match instruction {
        High::Skip => {}
        High::Take => made.push(Low::Take)?,
        High::Show => {
            made.push(Low::Read)?;
            made.push(Low::Put)?;
        }
        High::Give => made.push(Low::Give)?,
    }
    Ok(())
}

/// What the pass makes of the function.
///
/// Errors: none but want of memory.
pub fn lower(alloc: Global, from: &HighFunction) -> Result<LowFunction, NoMemory>
    ensures { IfOk result (λ to. IsLowered to from.now) }
{
    let mut made = Vec::new(alloc);
    for instruction in from.body.as_slice() {
        add_made(&mut made, *instruction)?;
    }
    Ok(LowFunction {
        body: Seq::of(made),
    })
}

/// The pass that makes two instructions of a Show, and none of a Skip.
#[derive(Clone, Copy, Debug)]
pub struct Lowering;

impl FunctionPass for Lowering {
    type Source = HighFunction;

    type Target = LowFunction;

    ghost source_activation = { List HighInstruction };

    ghost target_activation = { LowState };

    ghost matching = { unmoved lowering };

    fn translate(&self, alloc: Global, from: &HighFunction) -> Result<LowFunction, NoMemory> {
        lower(alloc, from)
    }

    fn shows() {}
}

/// Units of such functions refine, where their declarations and data are equal.
pub fn units_lower()
    ensures { (s : UnitOf HighFunction) (t : UnitOf LowFunction) → t.decls ≡ s.decls → t.globals ≡ s.globals
        → AreDefined (language high_language) s.decls s.funs → AllMade IsLowered t.funs s.funs
        → UnitRefines (language low_language) (language high_language) t s }
{
    units_refine::<Lowering>();
}

/// A unit of the first language keeps kinds and locks as a source must, where each of its functions takes and gives
/// back the lock in turn.
pub fn high_units_keep_as_source()
    ensures { (unit : UnitOf HighFunction) → Each (λ (f : HighFunction). IsBalanced false f.body) unit.funs
        → KeepsAsSource (language high_language) (λ f. []) unit }
{}
