//! A search over all schedules of a small program: each step of each thread and each drain, in every order, until every
//! thread has ended and every buffer is empty. States that were reached before aren't gone on from again.

ghost use Rattle.std.specs.Prelude.{◌*◌, ◌<◌, ◌≤◌, length};

use crate::images::{AMPLE, Limits, has_room, options_of};
use cas_asm::{Core, Image};
use cas_base::NoMemory;
use cas_tso::{Choice, Options, Tso};
use std::alloc::{AllocError, Global};
use std::collections::BTreeSet;
use std::test::Fail;

// More states than any shape has.
const MOST_STATES: u32 = 100_000;

// No shape has as many steps, or puts out as much.
const LIMITS: Limits = Limits {
    fuel: 1000,
    ..AMPLE
};

/// What all threads have put out at the end of a schedule, in the order of threads; and each schedule's, once.
pub(crate) type Outcome = Vec<u32>;

// A search: the states that were reached, schedules to such states that are still to be gone on from, and what was
// put out at the ends.
#[derive(Drop)]
struct Search<'a> {
    alloc: Global,
    image: &'a Image,
    seen: BTreeSet<Vec<u32>>,
    waiting: Vec<Vec<Choice>>,
    outcomes: BTreeSet<Vec<u32>>,
}

// Makes a choice, and answers whether it is allowed.
fn take(machine: &mut Tso, choice: Choice) -> bool {
    let thread = match choice {
        Choice::Run(thread) | Choice::Drain(thread) => thread,
    };
    thread < machine.threads() && machine.step(choice).is_ok()
}

// The machine after these choices.
fn after<'a>(alloc: Global, image: &'a Image, choices: &[Choice]) -> Result<Tso<'a>, Fail> {
    let options = options_of(LIMITS);
    if !has_room(image, &options) {
        return Err(Fail::new("too many outputs"));
    }
    let mut machine = Tso::start(alloc, image, &options)?;
    for choice in choices {
        let _allowed = take(&mut machine, *choice);
    }
    Ok(machine)
}

// Puts the registers, the flags and the place of a processor.
fn put_core(state: &mut Vec<u32>, core: Core) -> Result<(), AllocError> {
    let regs = core.regs;
    let flags = core.flags;
    for word in [
        regs.eax, regs.ecx, regs.edx, regs.ebx, regs.esp, regs.ebp, regs.esi, regs.edi, core.place,
    ] {
        state.push(word)?;
    }
    for flag in [
        flags.carry,
        flags.zero,
        flags.sign,
        flags.overflow,
        flags.parity,
    ] {
        state.push(u32::from(flag))?;
    }
    Ok(())
}

// Puts what a thread has put out.
fn put_outputs(state: &mut Vec<u32>, machine: &Tso, thread: u32) -> Result<(), AllocError> {
    for (by, word) in machine.output() {
        if *by == thread {
            state.push(*word)?;
        }
    }
    Ok(())
}

// All of a state that later steps hang on, and what was put out. The order of outputs of different threads is left
// out, as are the stacks, since no shape uses its stack but for the return place.
fn state_of(alloc: Global, machine: &Tso) -> Result<Vec<u32>, AllocError> {
    let mut state = Vec::from_slice(alloc, machine.memory())?;
    for thread in 0..machine.threads() {
        put_core(&mut state, machine.core(thread))?;
        state.push(u32::try_from(machine.stores(thread)).unwrap_or(u32::MAX))?;
        for index in 0..machine.stores(thread) {
            if let Some(store) = machine.store_at(thread, index) {
                state.push(store.at)?;
                state.push(store.value)?;
            }
        }
        put_outputs(&mut state, machine, thread)?;
    }
    Ok(state)
}

fn outcome_of(alloc: Global, machine: &Tso) -> Result<Outcome, AllocError> {
    let mut outcome = Vec::new(alloc);
    for thread in 0..machine.threads() {
        put_outputs(&mut outcome, machine, thread)?;
    }
    Ok(outcome)
}

impl<'a> Search<'a> {
    // Goes on with a choice after these, and answers whether it is allowed.
    fn go_on(&mut self, choices: &[Choice], choice: Choice) -> Result<bool, Fail> {
        let mut machine = after(self.alloc, self.image, choices)?;
        if !take(&mut machine, choice) {
            return Ok(false);
        }
        if self.seen.insert(state_of(self.alloc, &machine)?)? {
            let mut longer = Vec::from_slice(self.alloc, choices)?;
            longer.push(choice)?;
            self.waiting.push(longer)?;
        }
        Ok(true)
    }

    // Goes on with each choice after these, one of an observer only if no other is allowed. If none is, all has ended.
    fn visit(&mut self, choices: &[Choice], workers: u32, threads: u32) -> Result<(), Fail> {
        let mut moved = false;
        for thread in 0..threads {
            if thread < workers || !moved {
                moved |= self.go_on(choices, Choice::Run(thread))?;
                moved |= self.go_on(choices, Choice::Drain(thread))?;
            }
        }
        if !moved {
            let machine = after(self.alloc, self.image, choices)?;
            self.outcomes.insert(outcome_of(self.alloc, &machine)?)?;
        }
        Ok(())
    }
}

/// What may be put out, by a search over all schedules. So many threads are workers; another is an observer, which runs
/// once all workers have ended and their buffers are empty.
pub(crate) fn outcomes(
    alloc: Global,
    image: &Image,
    workers: u32,
) -> Result<BTreeSet<Outcome>, Fail> {
    let threads = image.entries.as_slice().len() as u32;
    let mut search = Search {
        alloc,
        image,
        seen: BTreeSet::new(alloc),
        waiting: Vec::new(alloc),
        outcomes: BTreeSet::new(alloc),
    };
    search.waiting.push(Vec::new(alloc))?;
    for _ in 0..MOST_STATES {
        let Some(choices) = search.waiting.pop() else {
            return Ok(search.outcomes);
        };
        search.visit(&choices, workers, threads)?;
    }
    Err(Fail::new("too many states"))
}
