//! The texts that a command reads.

ghost use Rattle.std.specs.Prelude.{◌≡◌};
ghost use Rattle.cas_command.specs.View.{wanted_view};
ghost use Rattle.cas_command.specs.Parts.{texts};
ghost use Rattle.cas_top.specs.View.{AreSources, IsFetched, IsSource};

use crate::refusal::Refusal;
use crate::source::Source;
use cas_command::{Wanted, source_text};
use cas_outside::{Shelf, ShelfFault};
use std::alloc::Global;

/// A text that a command reads.
pub(crate) fn fetch<'a, S: Shelf>(
    alloc: Global,
    shelf: &mut S,
    wanted: Wanted<'a>,
) -> Result<Vec<u8>, Refusal<'a>>
    ensures same { S.texts shelf.new ≡ S.texts shelf.old }
    ensures fetched { IsFetched (S.texts shelf.old) (wanted_view wanted.entry) (S.failed shelf.old)
        (S.failed shelf.new) result }
{
    match shelf.read(alloc, wanted.name, wanted.limit) {
        Ok(text) => Ok(text),
        Err(ShelfFault::Failed) => Err(Refusal::Unread(wanted.name)),
        Err(ShelfFault::TooLong) => Err(Refusal::TooLong(wanted.name)),
        Err(ShelfFault::Memory) => Err(Refusal::Memory),
    }
}

// The text of a module.
fn fetch_source<'a, S: Shelf>(
    alloc: Global,
    shelf: &mut S,
    name: &'a str,
) -> Result<Source<'a>, Refusal<'a>>
    ensures same { S.texts shelf.new ≡ S.texts shelf.old }
    ensures fetched { IsSource (S.texts shelf.old) name.entry.now (S.failed shelf.old) (S.failed shelf.new) result }
{
    let text = fetch(alloc, shelf, source_text(name))?;
    Ok(Source { name, text })
}

/// The texts of these modules, each read once, in their order.
pub(crate) fn fetch_all<'a, S: Shelf>(
    alloc: Global,
    shelf: &mut S,
    names: &[&'a str],
) -> Result<Vec<Source<'a>>, Refusal<'a>>
    ensures same { S.texts shelf.new ≡ S.texts shelf.old }
    ensures fetched { AreSources (S.texts shelf.old) (texts names.now) (S.failed shelf.old)
        (S.failed shelf.new) result }
{
    let mut sources = Vec::new(alloc);
    for name in names {
        sources.push(fetch_source(alloc, shelf, name)?)?;
    }
    Ok(sources)
}
