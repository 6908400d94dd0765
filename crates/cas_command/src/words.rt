//! The command of a list of words.

ghost use Rattle.std.specs.Prelude.{◌≡◌, ◌&&◌, not, IfOk, None};
ghost use Rattle.std.specs.Option.{option_and_then, option_map};
ghost use Rattle.cas_command.specs.declared.command.Command.TheVariants as code;
ghost use Rattle.cas_command.specs.View.{command_view};
ghost use Rattle.cas_command.specs.Words as w;

use crate::command::{Command, Run, World};
use crate::options::{are_of_world, value_of};
use crate::parts::{Parts, has_dash, parts_of};
use crate::values::{are_text_names, is_text_name, threads_of, turns_of};
use cas_base::{Name, NoMemory, Text};
use std::alloc::Global;

/// The command of these words, if they are one's.
///
/// Errors: it ran out of memory.
pub fn command_of(alloc: Global, words: &[Text]) -> Result<Option<Command<'_>>, NoMemory>
    ensures { IfOk result (λ command. option_map command_view command ≡ w.command_of words.entry.now) }
{
    let Some((command, rest)) = words.split_first() else {
        return Ok(None);
    };
    let command = command.as_str();
    if command == "run" {
        Ok(run_of(rest).map(Command::Run))
    } else if command == "check" {
        check_of(alloc, rest)
    } else if command == "world" {
        world_of(alloc, rest)
    } else {
        Ok(None)
    }
}

// What the words of `run` say.
fn run_of(words: &[Text]) -> Option<Run<'_>>
    ensures { option_map (λ r. command_view (code.Run r)) result ≡ w.run_of words.entry.now }
{
    match words {
        [source, first, lock, second, thread] => {
            let run = Run {
                source: source.as_str(),
                lock: lock.as_str(),
                thread: thread.as_str(),
            };
            if is_plain_name(run.source)
                && first.as_str() == "--lock"
                && is_plain_name(run.lock)
                && second.as_str() == "--threads"
                && Name::has_shape(run.thread)
            {
                Some(run)
            } else {
                None
            }
        }
        _ => None,
    }
}

// Whether a text may have this name, and it doesn't begin with `-`.
fn is_plain_name(name: &str) -> bool
    ensures { result ≡ (w.is_text_name name.now && not (w.has_dash name.now)) }
{
    is_text_name(name) && !has_dash(name)
}

// The command of the words of `check`.
fn check_of(alloc: Global, words: &[Text]) -> Result<Option<Command<'_>>, NoMemory>
    ensures { IfOk result (λ command. option_map command_view command
        ≡ option_and_then w.check_of (w.parts_of None words.entry.now)) }
{
    let Some(parts) = parts_of(alloc, words)? else {
        return Ok(None);
    };
    if are_text_names(parts.names()) && parts.options().is_empty() {
        Ok(Some(Command::Check(parts.into_names())))
    } else {
        Ok(None)
    }
}

// The command of the words of `world`.
fn world_of(alloc: Global, words: &[Text]) -> Result<Option<Command<'_>>, NoMemory>
    ensures { IfOk result (λ command. option_map command_view command
        ≡ option_and_then w.world_of (w.parts_of None words.entry.now)) }
{
    let Some(parts) = parts_of(alloc, words)? else {
        return Ok(None);
    };
    if are_text_names(parts.names()) && are_of_world(parts.options()) {
        world_from(alloc, parts)
    } else {
        Ok(None)
    }
}

// The command of `world` with these names and options.
fn world_from<'a>(alloc: Global, parts: Parts<'a>) -> Result<Option<Command<'a>>, NoMemory>
    ensures { IfOk result (λ command. option_map command_view command ≡ w.world_from parts.entry) }
{
    let options = parts.options();
    let Some(list) = value_of("--threads", options) else {
        return Ok(None);
    };
    let Some(threads) = threads_of(alloc, list)? else {
        return Ok(None);
    };
    let plan = value_of("--schedule", options);
    let count = value_of("--rounds", options);
    let Some(turns) = turns_of(alloc, threads.len() as u32, plan, count)? else {
        return Ok(None);
    };
    Ok(Some(Command::World(World {
        names: parts.into_names(),
        threads,
        turns,
    })))
}
