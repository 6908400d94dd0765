//! Runs of an image, and their reports.

ghost use Rattle.std.specs.Prelude.{◌*◌, ◌≤◌, IfOk, length};
ghost use Rattle.cas_exec.specs.Runs.{IsExecuted, IsSimulated};
ghost use Rattle.cas_exec.specs.Schedule.{unrolled};
ghost use Rattle.cas_tso.specs.Counted.{most_fuel};
ghost use Rattle.cas_tso.specs.State.{setup};

use crate::schedule::{Item, follow};
use cas_asm::Image;
use cas_base::NoMemory;
use cas_tso::{Options, Report, Tso};
use std::alloc::Global;

/// The report of an ended timed run of an image, made in rounds with the hold of the options.
///
/// # Errors
///
/// `NoMemory` for want of memory.
pub fn executed(alloc: Global, image: &Image, options: &Options) -> Result<Report, NoMemory>
    requires fuel { options.now.fuel ≤ most_fuel }
    requires least { 16 ≤ options.now.stack }
    requires most { options.now.stack ≤ 1048576 }
    requires outs { options.now.outs * length image.now.entries ≤ 16777216 }
    ensures executed { IfOk result (λ report. IsExecuted (setup image.now options.now) report) }
    ensures few { IfOk result (λ report. length report.threads ≤ 64) }
{
    cas_tso::laws::rounds_are_timed_runs();
    let mut machine = Tso::start(alloc, image, options)?;
    machine.run_rounds(options.hold);
    machine.report(alloc)
}

/// The report of an image after the choices of a schedule.
///
/// # Errors
///
/// `NoMemory` for want of memory.
pub fn simulated(
    alloc: Global,
    image: &Image,
    options: &Options,
    items: &[Item],
) -> Result<Report, NoMemory>
    requires fuel { options.now.fuel ≤ most_fuel }
    requires least { 16 ≤ options.now.stack }
    requires most { options.now.stack ≤ 1048576 }
    requires outs { options.now.outs * length image.now.entries ≤ 16777216 }
    ensures simulated { IfOk result (λ report. IsSimulated (setup image.now options.now) (unrolled items.now) report) }
    ensures few { IfOk result (λ report. length report.threads ≤ 64) }
{
    let mut machine = Tso::start(alloc, image, options)?;
    follow(&mut machine, items);
    machine.report(alloc)
}
