//! How the threads of a report ended together.

ghost use Rattle.std.specs.Prelude.{◌≡◌};
ghost use Rattle.std.specs.List.{list_any};
ghost use Rattle.cas_exec.specs.Endings as ending;

use cas_tso::{End, ThreadEnd};

/// How the threads of an ended run ended together.
#[derive(Clone, Copy, Debug, PartialEq, Eq)]
pub enum Ending {
    /// Every thread is Done.
    Done,
    /// No thread ended Bad, Stack or Outs, and at least one ended Fuel.
    Fuel,
    /// No thread ended Bad or Stack, and at least one ended Outs.
    Outs,
    /// No thread ended Bad, and at least one ended Stack.
    Stack,
    /// A thread ended Bad.
    Bad,
}

/// How these threads ended together.
pub fn ending_of(threads: &[ThreadEnd]) -> Ending
    ensures { result ≡ ending.ending_of threads.now }
{
    if any_bad(threads) {
        Ending::Bad
    } else if any_stack(threads) {
        Ending::Stack
    } else if any_outs(threads) {
        Ending::Outs
    } else if any_fuel(threads) {
        Ending::Fuel
    } else {
        Ending::Done
    }
}

fn any_bad(threads: &[ThreadEnd]) -> bool
    ensures { result ≡ list_any ending.is_bad threads.now }
{
    threads
        .iter()
        .any(|thread| matches!(thread.end, Some(End::Bad(_))))
}

fn any_stack(threads: &[ThreadEnd]) -> bool
    ensures { result ≡ list_any ending.is_stack threads.now }
{
    threads
        .iter()
        .any(|thread| matches!(thread.end, Some(End::Stack)))
}

fn any_outs(threads: &[ThreadEnd]) -> bool
    ensures { result ≡ list_any ending.is_outs threads.now }
{
    threads
        .iter()
        .any(|thread| matches!(thread.end, Some(End::Outs)))
}

fn any_fuel(threads: &[ThreadEnd]) -> bool
    ensures { result ≡ list_any ending.is_fuel threads.now }
{
    threads
        .iter()
        .any(|thread| matches!(thread.end, Some(End::Fuel)))
}
