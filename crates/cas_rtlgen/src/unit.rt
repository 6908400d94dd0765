//! RTLgen of units.

ghost use Rattle.std.specs.Prelude.{IfOk};
ghost use Rattle.cas_rtl.specs.Code.{rtl};
ghost use Rattle.cas_rtlgen.specs.Made.{IsMadeOf, IsMadeUnit, IsNoLarger};
ghost use Rattle.cas_runs.specs.Calls.{language};
ghost use Rattle.cas_runs.specs.Label.{Both};
ghost use Rattle.cas_runs.specs.Unit.{AreDefined, UnitRefines};
ghost use Rattle.cas_sel.specs.CminorSel.{cminorsel};

use crate::function::make_fun;
use cas_base::{NoMemory, Seq, Unit};
use cas_rtl::RtlFun;
use cas_sel::SelFun;
use std::alloc::Global;

// What is made of functions, in their order.
#[tactic(auto, using(crate::proofs::Units::both_one))]
fn functions(alloc: Global, funs: &[SelFun]) -> Result<Seq<RtlFun>, NoMemory>
    ensures { IfOk result (λ made. Both IsMadeOf made funs.now) }
{
    let mut all = Vec::new(alloc);
    for fun in funs {
        let made = make_fun(alloc, fun)?;
        all.push(made)?;
    }
    Ok(Seq::of(all))
}

// The unit that is made of another.
fn make_unit(alloc: Global, unit: Unit<SelFun>) -> Result<Unit<RtlFun>, NoMemory>
    ensures { IfOk result (λ made. IsMadeUnit made unit) }
{
    let Unit {
        decls,
        globals,
        funs,
    } = unit;
    let funs = functions(alloc, funs.as_slice())?;
    Ok(Unit {
        decls,
        globals,
        funs,
    })
}

/// What RTLgen makes of a unit of CminorSel. It refines that, where the functions are those that the declarations
/// define, and its functions weigh no more and have no greater room.
///
/// # Errors
///
/// `NoMemory` for want of memory.
pub fn rtlgen(alloc: Global, unit: Unit<SelFun>) -> Result<Unit<RtlFun>, NoMemory>
    ensures made { IfOk result (λ made. IsMadeUnit made unit) }
    ensures refines { IfOk result (λ made. AreDefined (language cminorsel) unit.decls unit.funs
        → UnitRefines (language rtl) (language cminorsel) made unit) }
    ensures bounds { IfOk result (λ made. Both IsNoLarger made.funs unit.funs) }
{
    make_unit(alloc, unit)
}
