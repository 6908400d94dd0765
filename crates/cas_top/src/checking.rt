//! The work of `check`: each module is checked, and has its line.

ghost use Rattle.std.specs.Prelude.{◌≡◌, IfOk, map};
ghost use Rattle.cas_command.specs.Parts.{texts};
ghost use Rattle.cas_top.specs.Printed.{ok_line};
ghost use Rattle.cas_top.specs.View.{AreAllChecked, AreOkLines, IsCheckedSource, names_of, texts_of};

use crate::modules::checked_module;
use crate::printed::ok_line;
use crate::refusal::Refusal;
use crate::source::Source;
use cas_base::{NoMemory, Text};
use std::alloc::Global;

// Whether a text is of a checked module, or why not.
#[tactic(auto, using(crate::proofs::One_by_one::checked_text, crate::proofs::One_by_one::refused_source))]
fn check_source<'a>(alloc: Global, source: &Source<'a>) -> Result<(), Refusal<'a>>
    ensures { IsCheckedSource source.now.name.now source.now.text.items result }
{
    checked_module(alloc, source.text.as_slice(), source.name)?;
    Ok(())
}

// Whether the texts are of checked modules, or why the first that isn't is not.
fn check_all<'a>(alloc: Global, sources: &[Source<'a>]) -> Result<(), Refusal<'a>>
    ensures { AreAllChecked (names_of sources.now) (texts_of sources.now) result }
{
    for source in sources {
        check_source(alloc, source)?;
    }
    Ok(())
}

// `NAME ok` for each of the names.
fn ok_lines(alloc: Global, sources: &[Source<'_>]) -> Result<Vec<Text>, NoMemory>
    ensures { IfOk result (λ lines. lines.items ≡ map ok_line (names_of sources.now)) }
{
    let mut lines = Vec::new(alloc);
    for source in sources {
        lines.push(ok_line(alloc, source.name)?)?;
    }
    Ok(lines)
}

/// The lines that the check of these texts prints.
#[tactic(auto, using(crate::proofs::One_by_one::refused_lines))]
pub(crate) fn checked_lines<'a>(
    alloc: Global,
    sources: &[Source<'a>],
) -> Result<Vec<Text>, Refusal<'a>>
    ensures { AreOkLines (names_of sources.now) (texts_of sources.now) result }
{
    check_all(alloc, sources)?;
    Ok(ok_lines(alloc, sources)?)
}
