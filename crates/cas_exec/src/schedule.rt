//! Schedules of a machine.

ghost use Rattle.std.specs.Prelude.{◌≡◌};
ghost use Rattle.cas_exec.specs.Schedule.{Chooses, Follows, unrolled};
ghost use Rattle.std.specs.Prelude.{replicate};
ghost use Rattle.cas_tso.specs.Refusal.{thread_of};

use cas_tso::{Choice, Tso};

/// A choice that is made so many times, one after the other.
#[derive(Clone, Copy, Debug, PartialEq, Eq)]
pub struct Item {
    /// What is chosen.
    pub choice: Choice,
    /// How many times.
    pub count: u32,
}

/// Makes the choices of a schedule, from the first to the last. One that isn't allowed changes nothing, as one of a
/// thread that the machine doesn't have. It takes no memory.
pub fn follow(machine: &mut Tso, items: &[Item])
    ensures setup { machine.new.setup ≡ machine.old.setup }
    ensures followed { Follows machine.old.setup (unrolled items.now) machine.old.state machine.new.state }
{
    let mut rest = items;
    'items: while let Some((item, others)) = rest.split_first() {
        repeat(machine, item.choice, item.count);
        rest = others;
    }
}

// Makes a choice so many times.
fn repeat(machine: &mut Tso, choice: Choice, count: u32)
    ensures setup { machine.new.setup ≡ machine.old.setup }
    ensures followed { Follows machine.old.setup (replicate count choice) machine.old.state machine.new.state }
{
    let mut left = count;
    'times: while left > 0 {
        choose(machine, choice);
        left -= 1;
    }
}

// Makes a choice, if it is allowed.
fn choose(machine: &mut Tso, choice: Choice)
    ensures setup { machine.new.setup ≡ machine.old.setup }
    ensures chosen { Chooses machine.old.setup choice machine.old.state machine.new.state }
{
    if thread_of(choice) < machine.threads() {
        let _taken = machine.step(choice);
    }
}

// The thread whose choice it is.
fn thread_of(choice: Choice) -> u32
    ensures { result ≡ thread_of choice }
{
    match choice {
        Choice::Run(thread) | Choice::Drain(thread) => thread,
    }
}
