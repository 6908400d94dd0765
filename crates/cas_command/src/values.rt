//! What names and the values of options say.

ghost use Rattle.std.specs.Prelude.{◌≡◌, ◌≤◌, ◌&&◌, IfOk, IfSome, vec_len, map, length, nat_lt, nat_le};
ghost use Rattle.std.specs.List.{list_all, sum_by};
ghost use Rattle.std.specs.Option.{option_and_then, option_map};
ghost use Rattle.std.specs.Str.{all_ascii_digits};
ghost use Rattle.cas_base.specs.Name.{is_name};
ghost use Rattle.cas_command.specs.Parts.{item_view, text_of, texts};
ghost use Rattle.cas_command.specs.View.{turns_view};
ghost use Rattle.cas_command.specs.Words as w;

use crate::command::{Item, Turns};
use crate::parts::cut_at;
use cas_base::{Name, NoMemory};
use std::alloc::Global;

/// The most names of modules in one command.
pub(crate) const NAME_COUNT_LIMIT: usize = 64;

/// The most threads.
pub(crate) const THREAD_LIMIT: usize = 64;

/// The most digits of a number.
pub(crate) const DIGIT_LIMIT: usize = 10;

/// The most turns of a schedule.
pub(crate) const TURN_LIMIT: u64 = 10_000_000;

/// The most rounds.
pub(crate) const ROUND_LIMIT: u64 = 1_000_000;

/// The rounds if nothing is said of turns.
pub(crate) const DEFAULT_ROUNDS: u32 = 100_000;

/// Whether a text may have this name: it isn't empty, nor `-` alone.
pub(crate) fn is_text_name(name: &str) -> bool
    ensures { result ≡ w.is_text_name name.now }
{
    !(name.is_empty() || name == "-")
}

/// Whether these are one name or more, at most 64, each of which a text may have.
pub(crate) fn are_text_names(names: &[&str]) -> bool
    ensures { result ≡ w.are_text_names (texts names.now) }
{
    !names.is_empty() && names.len() <= NAME_COUNT_LIMIT && each_is_text_name(names)
}

// Whether a text may have each of these names.
fn each_is_text_name(names: &[&str]) -> bool
    ensures { result ≡ list_all w.is_text_name (texts names.now) }
{
    names.iter().all(|name| is_text_name(name))
}

/// A number, of one to ten decimal digits.
pub(crate) fn number_of(text: &str) -> Option<u64>
    ensures { result ≡ w.number_of text.now }
{
    if is_number(text) {
        text.parse::<u64>().ok()
    } else {
        None
    }
}

// Whether a text is one to ten decimal digits.
fn is_number(text: &str) -> bool
    ensures { result ≡ (nat_lt 0 (length text.now) && nat_le (length text.now) 10 && all_ascii_digits text.now) }
{
    !text.is_empty() && text.len() <= DIGIT_LIMIT && all_digits(text.as_bytes())
}

// Whether all bytes are decimal digits.
fn all_digits(bytes: &[u8]) -> bool
    ensures { result ≡ all_ascii_digits bytes.now }
{
    bytes.iter().all(|byte| byte.is_ascii_digit())
}

/// The parts of a text that commas join.
pub(crate) fn listed(alloc: Global, text: &str) -> Result<Vec<&str>, NoMemory>
    ensures { IfOk result (λ parts. texts parts.items ≡ w.listed text.entry.now) }
{
    Ok(text.split(',').collect(alloc)?)
}

/// The functions of the threads: names of the source language, at most 64.
pub(crate) fn threads_of(alloc: Global, text: &str) -> Result<Option<Vec<&str>>, NoMemory>
    ensures names { IfOk result (λ threads. option_map (λ found. texts found.items) threads
        ≡ w.threads_of text.entry.now) }
    ensures few { IfOk result (λ threads. IfSome threads (λ found. vec_len found ≤ 64)) }
{
    let names = listed(alloc, text)?;
    if names.len() <= THREAD_LIMIT && are_names(&names) {
        Ok(Some(names))
    } else {
        Ok(None)
    }
}

// Whether these are names of the source language.
fn are_names(names: &[&str]) -> bool
    ensures { result ≡ list_all is_name (texts names.now) }
{
    names.iter().all(|name| Name::has_shape(name))
}

// The number of one of so many threads.
fn thread_of(threads: u32, text: &str) -> Option<u32>
    ensures { result ≡ w.thread_of threads text.now }
{
    let thread = number_of(text)?;
    if thread < u64::from(threads) {
        Some(thread as u32)
    } else {
        None
    }
}

// How many turns an item of a schedule has: one or more, and not more than a whole schedule has.
fn count_of(text: &str) -> Option<u32>
    ensures { result ≡ w.count_of text.now }
{
    let count = number_of(text)?;
    if count > 0 && count <= TURN_LIMIT {
        Some(count as u32)
    } else {
        None
    }
}

// An item of a schedule: `i` or `i*n`.
fn item_of(threads: u32, text: &str) -> Option<Item>
    ensures { option_map item_view result ≡ w.item_of threads text.now }
{
    match cut_at(text, '*') {
        Some((thread, count)) => counted(thread_of(threads, thread), count_of(count)),
        None => counted(thread_of(threads, text), Some(1)),
    }
}

// The item of a thread and a count, if both are there.
fn counted(thread: Option<u32>, count: Option<u32>) -> Option<Item>
    ensures { option_map item_view result ≡ option_and_then (λ i. option_map (λ n. (i, n)) count) thread }
{
    Some(Item {
        thread: thread?,
        count: count?,
    })
}

// The items of these texts, if each has one.
fn items_of(alloc: Global, threads: u32, parts: &[&str]) -> Result<Option<Vec<Item>>, NoMemory>
    ensures { IfOk result (λ items. option_map (λ found. map item_view found.items) items
        ≡ w.items_of threads (texts parts.now)) }
{
    let mut items = Vec::new(alloc);
    for text in parts {
        let Some(item) = item_of(threads, text) else {
            return Ok(None);
        };
        items.push(item)?;
    }
    Ok(Some(items))
}

/// The items of a schedule of at most 10,000,000 turns.
pub(crate) fn schedule_of(
    alloc: Global,
    threads: u32,
    text: &str,
) -> Result<Option<Vec<Item>>, NoMemory>
    ensures { IfOk result (λ items. option_map (λ found. map item_view found.items) items
        ≡ w.schedule_of threads text.now) }
{
    let parts = listed(alloc, text)?;
    let Some(items) = items_of(alloc, threads, &parts)? else {
        return Ok(None);
    };
    if are_few(&items) {
        Ok(Some(items))
    } else {
        Ok(None)
    }
}

// Whether these have at most 10,000,000 turns in all.
fn are_few(items: &[Item]) -> bool
    ensures { result ≡ nat_le (sum_by (λ item. item.1) (map item_view items.now)) 10000000 }
{
    let mut left = TURN_LIMIT;
    let mut rest = items;
    'each: while let Some((item, others)) = rest.split_first() {
        let count = u64::from(item.count);
        if count > left {
            return false;
        }
        left -= count;
        rest = others;
    }
    true
}

// At most 1,000,000 rounds.
fn rounds_of(text: &str) -> Option<u32>
    ensures { result ≡ w.rounds_of text.now }
{
    let rounds = number_of(text)?;
    if rounds <= ROUND_LIMIT {
        Some(rounds as u32)
    } else {
        None
    }
}

/// The turns that these options give, for so many threads: a schedule or rounds, not both.
pub(crate) fn turns_of(
    alloc: Global,
    threads: u32,
    plan: Option<&str>,
    count: Option<&str>,
) -> Result<Option<Turns>, NoMemory>
    ensures { IfOk result (λ turns. option_map turns_view turns
        ≡ w.turns_of threads (text_of plan.entry) (text_of count.entry)) }
{
    match (plan, count) {
        (None, None) => Ok(Some(Turns::Rounds(DEFAULT_ROUNDS))),
        (Some(plan), None) => Ok(schedule_of(alloc, threads, plan)?.map(Turns::Schedule)),
        (None, Some(count)) => Ok(rounds_of(count).map(Turns::Rounds)),
        (Some(_), Some(_)) => Ok(None),
    }
}
