//! The work of `run`: a module's code is generated and run, and its output printed.
ghost use Rattle.std.specs.Prelude.{◌≡◌, false, IfOk, IfSome, IfNone};
ghost use Rattle.cas_own.specs.Checked.{IsChecked};
ghost use Rattle.cas_syntax.specs.Tree.{module_tree};
ghost use Rattle.cas_top.specs.First_form.{is_first_form};
ghost use Rattle.cas_top.specs.View.{IsRun};
ghost use Rattle.cas_typed.specs.Resolved.{TypedModuleTree};
ghost use Rattle.cas_typed.specs.Typed_as.{IsTypedAs};

use crate::generate::generate;
use crate::machine::run;
use crate::printed::report_lines;
use cas_base::{NoMemory, Text};
use cas_typed::Typed;
use std::alloc::Global;

/// The lines that a finished run of a checked module prints on one thread of this function. A module of the first
/// form has them, and no other.
pub(crate) fn lines_of(
    alloc: Global,
    typed: &Typed,
    thread: &str,
) -> Result<Option<Vec<Text>>, NoMemory>
    ensures printed { IfOk result (λ o. IfSome o (λ lines. (r : TypedModuleTree) → IsTypedAs typed.now r →
        IsChecked r → IsRun r thread.now lines.items)) }
    ensures others { IfOk result (λ o. IfNone o (is_first_form thread.now (module_tree typed.now.filled) ≡ false)) }
{
    cas_world::laws::races_absent();
    let Some(code) = generate(alloc, typed.module(), thread)? else {
        return Ok(None);
    };
    let report = run(alloc, &code)?;
    Ok(Some(report_lines(alloc, &report)?))
}
