//! The next instruction of a thread, with the memory and the output.

ghost use Rattle.std.specs.Prelude.{◌+◌, false, true, ◌≡◌, ◌<◌, ◌≤◌, ℕ, [], List, length, slice_get, None, Some, OnErr, OnOk, MatchResult, vec_len, vec_capacity};
ghost use Rattle.cas_asm.specs.Ask.{ask_of};
ghost use Rattle.cas_asm.specs.declared.ask.Ask.TheVariants as ask;
ghost use Rattle.cas_tso.specs.Refusal.{Drains, Goes, part, refused_drain, refused_run};
ghost use Rattle.cas_tso.specs.State.{Setup, newest, setup};
ghost use Rattle.cas_tso.specs.Step.{IsRunning};
ghost use Rattle.cas_tso.specs.Timed.{must_drain};
ghost use Rattle.cas_tso.specs.declared.pending.Pending.{Pending};
ghost use Rattle.cas_tso.specs.declared.refused.Refused.TheVariants.{MustDrain};

use crate::end::End;
use crate::options::Options;
use crate::refused::Refused;
use crate::thread::ThreadCore;
use cas_asm::{Ask, Image};
use cas_base::sub;

// The word of memory at a place.
fn word_at(memory: &[u32], at: u32) -> u32
    requires { at < length memory.now }
    ensures { slice_get memory.now at ≡ Some result }
{
    memory[at as usize]
}

// The next instruction, which loads the newest store of the own buffer; or the end in place of it.
fn forward(core: &mut ThreadCore, image: &Image, options: &Options, at: u32, word: u32)
    requires running { IsRunning core.old }
    requires load { ask_of image.now core.old.cpu None ≡ ask.Load at }
    requires newest { newest core.old.buffer at ≡ Some word }
    requires fuel { core.old.counts.executed < 4000000000 }
    ensures { (i : ℕ) (m : List ℕ) (o : List (ℕ × ℕ)) → Goes (setup image.now options.now) i (part core.old m o)
        (part core.new m o) }
{
    let asked = core.ask(image, Some(word));
    match core.stop_of(options, asked) {
        Some(end) => core.stop(end),
        None => core.forward(image, options, at, word, asked),
    }
}

// The next instruction, which loads a word from memory; or the end in place of it.
fn load(core: &mut ThreadCore, image: &Image, options: &Options, memory: &[u32], at: u32)
    requires running { IsRunning core.old }
    requires load { ask_of image.now core.old.cpu None ≡ ask.Load at }
    requires newest { newest core.old.buffer at ≡ None }
    requires fuel { core.old.counts.executed < 4000000000 }
    requires place { at < length memory.now }
    ensures { (i : ℕ) (o : List (ℕ × ℕ)) → Goes (setup image.now options.now) i (part core.old memory.now o)
        (part core.new memory.now o) }
{
    let word = word_at(memory, at);
    let asked = core.ask(image, Some(word));
    match core.stop_of(options, asked) {
        Some(end) => core.stop(end),
        None => core.load(image, options, at, word, asked),
    }
}

// The next instruction, a locked decrement.
fn decrement(
    core: &mut ThreadCore,
    image: &Image,
    options: &Options,
    memory: &mut Vec<u32>,
    at: u32,
)
    requires running { IsRunning core.old }
    requires locked { ask_of image.now core.old.cpu None ≡ ask.LockedDec at }
    requires empty { core.old.buffer ≡ [] }
    requires fuel { core.old.counts.executed < 4000000000 }
    requires place { at < vec_len memory.old }
    ensures wide { vec_len memory.new ≡ vec_len memory.old }
    ensures goes { (i : ℕ) (o : List (ℕ × ℕ)) → Goes (setup image.now options.now) i
        (part core.old memory.old.items o) (part core.new memory.new.items o) }
{
    let word = word_at(memory, at);
    core.decrement(image, options, at, word);
    memory[at as usize] = sub(word, 1);
}

// The next instruction, an `out`; or the end in place of it.
fn print(
    core: &mut ThreadCore,
    image: &Image,
    options: &Options,
    output: &mut Vec<(u32, u32)>,
    thread: u32,
    word: u32,
)
    requires running { IsRunning core.old }
    requires out { ask_of image.now core.old.cpu None ≡ ask.Out word }
    requires fuel { core.old.counts.executed < 4000000000 }
    requires room { core.old.counts.outs < options.now.outs → vec_len output.old < vec_capacity output.old }
    ensures capacity { vec_capacity output.new ≡ vec_capacity output.old }
    ensures goes { (m : List ℕ) → Goes (setup image.now options.now) thread (part core.old m output.old.items)
        (part core.new m output.new.items) }
{
    match core.stop_of(options, Ask::Out { value: word }) {
        Some(end) => core.stop(end),
        None => {
            core.print(image, options, word);
            output.push_reserved((thread, word));
        }
    }
}

// The next instruction of a running thread, or the end in place of it; or it is refused, and then nothing changes. What
// it asks for is looked up once.
fn execute(
    core: &mut ThreadCore,
    image: &Image,
    options: &Options,
    memory: &mut Vec<u32>,
    output: &mut Vec<(u32, u32)>,
    thread: u32,
) -> Result<(), Refused>
    requires running { IsRunning core.old }
    requires fuel { core.old.counts.executed < 4000000000 }
    requires wide { vec_len memory.old ≡ length image.now.words }
    requires room { core.old.counts.outs < options.now.outs → vec_len output.old < vec_capacity output.old }
    ensures wide { vec_len memory.new ≡ vec_len memory.old }
    ensures capacity { vec_capacity output.new ≡ vec_capacity output.old }
    ensures goes { OnOk result (Goes (setup image.now options.now) thread
        (part core.old memory.old.items output.old.items) (part core.new memory.new.items output.new.items)) }
    ensures answer { MatchResult result (λ _. must_drain (ask_of image.now core.old.cpu None) core.old.buffer ≡ false)
        (λ why. (why ≡ MustDrain) × (must_drain (ask_of image.now core.old.cpu None) core.old.buffer ≡ true)) }
    ensures still { OnErr result ((core.new ≡ core.old) × (memory.new.items ≡ memory.old.items)
        × (output.new.items ≡ output.old.items)) }
{
    let asked = core.ask(image, None);
    if core.must_drain(asked) {
        return Err(Refused::MustDrain);
    }
    match asked {
        Ask::Plain | Ask::Finish => Ok(core.run(image, options, asked)),
        Ask::Load { at } => match core.newest(at) {
            Some(word) => Ok(forward(core, image, options, at, word)),
            None => Ok(load(core, image, options, memory, at)),
        },
        Ask::Store { at, value } => Ok(core.store(image, options, at, value)),
        Ask::LockedDec { at } => Ok(decrement(core, image, options, memory, at)),
        Ask::Out { value } => Ok(print(core, image, options, output, thread, value)),
        Ask::Stack => Ok(core.stop(End::Stack)),
        Ask::Bad(why) => Ok(core.stop(End::Bad(why))),
    }
}

/// The thread executes its next instruction or ends in place of it, or is refused, and then nothing changes.
pub(crate) fn run_next(
    core: &mut ThreadCore,
    image: &Image,
    options: &Options,
    memory: &mut Vec<u32>,
    output: &mut Vec<(u32, u32)>,
    thread: u32,
) -> Result<(), Refused>
    requires fuel { IsRunning core.old → core.old.counts.executed < 4000000000 }
    requires wide { vec_len memory.old ≡ length image.now.words }
    requires room { core.old.counts.outs < options.now.outs → vec_len output.old < vec_capacity output.old }
    ensures wide { vec_len memory.new ≡ vec_len memory.old }
    ensures capacity { vec_capacity output.new ≡ vec_capacity output.old }
    ensures goes { OnOk result (Goes (setup image.now options.now) thread
        (part core.old memory.old.items output.old.items) (part core.new memory.new.items output.new.items)) }
    ensures answer { MatchResult result (λ _. refused_run image.now core.old core.old.ended ≡ None)
        (λ why. refused_run image.now core.old core.old.ended ≡ Some why) }
    ensures still { OnErr result ((core.new ≡ core.old) × (memory.new.items ≡ memory.old.items)
        × (output.new.items ≡ output.old.items)) }
{
    if core.end().is_some() {
        return Err(Refused::Ended);
    }
    execute(core, image, options, memory, output, thread)
}

/// The thread's oldest store goes to memory, or it is refused, and then nothing changes.
pub(crate) fn drain_oldest(core: &mut ThreadCore, memory: &mut Vec<u32>) -> Result<(), Refused>
    requires { (k : ℕ) (x : Pending) → slice_get core.old.buffer k ≡ Some x → x.at < vec_len memory.old }
    ensures wide { vec_len memory.new ≡ vec_len memory.old }
    ensures drains { OnOk result ((p : Setup) (i : ℕ) (o : List (ℕ × ℕ))
        → Drains p i (part core.old memory.old.items o) (part core.new memory.new.items o)) }
    ensures answer { MatchResult result (λ _. refused_drain core.old.buffer ≡ None)
        (λ why. refused_drain core.old.buffer ≡ Some why) }
    ensures still { OnErr result ((core.new ≡ core.old) × (memory.new.items ≡ memory.old.items)) }
{
    let Some(store) = core.drain() else {
        return Err(Refused::NothingToDrain);
    };
    memory[store.at as usize] = store.value;
    Ok(())
}
