//! The machine.

ghost use Rattle.std.specs.Prelude.{◌≡◌, ◌*◌, ◌<◌, ◌≤◌, ℕ, Some, None, IfOk, OnErr, OnOk, MatchResult, length, map, slice_get};
ghost use Rattle.std.specs.Bool.{MatchBool};
ghost use Rattle.cas_tso.specs.Counted.{IsKept, most_fuel};
ghost use Rattle.cas_tso.specs.Machine.{machine};
ghost use Rattle.cas_tso.specs.Refusal.{StepsAs, refused_choice, refused_drain, refused_run, thread_of};
ghost use Rattle.cas_tso.specs.Report.{report_of, thread_end};
ghost use Rattle.cas_tso.specs.Run.{start_state, threads_from};
ghost use Rattle.cas_tso.specs.State.{Thread, setup};
ghost use Rattle.cas_tso.specs.Timed.{AreFinished, IsEnded, is_due};
ghost use Rattle.cas_tso.specs.declared.refused.Choice.TheVariants as choice;

use crate::instruction::{drain_oldest, run_next};
use crate::options::Options;
use crate::pending::Pending;
use crate::refused::{Choice, Refused};
use crate::report::{Report, ThreadEnd};
use crate::thread::ThreadCore;
use cas_asm::{Core, Image};
use cas_base::{NoMemory, Seq};
use std::alloc::Global;
use std::marker::Model;

/// The x86-TSO machine of an image, on one thread. Contracts see it as its setup and its state.
#[derive(Drop)]
pub struct Tso<'a> {
    image: &'a Image,
    options: Options,
    memory: Vec<u32>,
    output: Vec<(u32, u32)>,
    threads: Vec<ThreadCore>,
}

impl<'a> Model for Tso<'a> {
    ghost use Rattle.cas_tso.specs.Machine.{Machine};

    ghost Value = { Machine };

    ghost use Rattle.cas_tso.specs.Inside.{machine_in, IsSound};

    ghost view = { machine_in };

    ghost invariant = { IsSound };
}

impl<'a> Tso<'a> {
    /// The machine of an image at its start, with one thread for each entry. All memory that it ever needs is taken
    /// here.
    ///
    /// # Errors
    ///
    /// `NoMemory` for want of memory.
    pub fn start(alloc: Global, image: &'a Image, options: &Options) -> Result<Tso<'a>, NoMemory>
        requires fuel { options.now.fuel ≤ most_fuel }
        requires least { 16 ≤ options.now.stack }
        requires most { options.now.stack ≤ 1048576 }
        requires outs { options.now.outs * length image.now.entries ≤ 16777216 }
        ensures { IfOk result (λ t. t ≡ machine (setup image.now options.now) (start_state
            (setup image.now options.now))) }
    {
        let memory = Vec::from_slice(alloc, image.words.as_slice())?;
        let outs = options.outs as usize * image.entries.as_slice().len();
        let output = Vec::with_capacity(alloc, outs)?;
        let threads = first_threads(alloc, image, options)?;
        Ok(Tso {
            image,
            options: *options,
            memory,
            output,
            threads,
        })
    }

    /// How many threads there are. They have the numbers from 0 on.
    pub fn threads(&self) -> u32
        ensures { result ≡ length self.now.state.threads }
    {
        self.threads.len() as u32
    }

    /// The words of memory.
    pub fn memory(&self) -> &[u32]
        ensures { result.now ≡ self.now.state.memory }
    {
        self.memory.as_slice()
    }

    /// The output, as pairs of thread and word, the oldest first.
    pub fn output(&self) -> &[(u32, u32)]
        ensures { result.now ≡ self.now.state.output }
    {
        self.output.as_slice()
    }

    /// The registers, flags and place of a thread's processor.
    pub fn core(&self, thread: u32) -> Core
        requires { thread < length self.now.state.threads }
        ensures { (c : Thread) → slice_get self.now.state.threads thread ≡ Some c → result ≡ c.cpu.core }
    {
        self.threads[thread as usize].core()
    }

    /// How many stores are in a thread's buffer.
    pub fn stores(&self, thread: u32) -> usize
        requires { thread < length self.now.state.threads }
        ensures { (c : Thread) → slice_get self.now.state.threads thread ≡ Some c → result ≡ length c.buffer }
    {
        self.threads[thread as usize].stores()
    }

    /// The store of a thread's buffer with this number, from 0 on, the oldest first.
    pub fn store_at(&self, thread: u32, index: usize) -> Option<Pending>
        requires { thread < length self.now.state.threads }
        ensures { (c : Thread) → slice_get self.now.state.threads thread ≡ Some c → result ≡ slice_get c.buffer index }
    {
        self.threads[thread as usize].store_at(index)
    }

    /// Whether a store of the thread is due.
    pub(crate) fn is_due(&self, thread: u32, hold: u32) -> bool
        requires { thread < length self.now.state.threads }
        ensures due { (c : Thread) → slice_get self.now.state.threads thread ≡ Some c
            → result ≡ is_due self.now.setup.image hold c }
        ensures kept { IsKept self.now.setup self.now.state }
        ensures fuel { self.now.setup.options.fuel ≤ most_fuel }
    {
        self.threads[thread as usize].is_due(self.image, hold)
    }

    /// Whether each thread has an end and each Done thread's buffer is empty.
    pub fn is_ended(&self) -> bool
        ensures ended { MatchBool result (IsEnded self.now.state) (IsEnded self.now.state → ⊥) }
        ensures kept { IsKept self.now.setup self.now.state }
        ensures fuel { self.now.setup.options.fuel ≤ most_fuel }
    {
        are_finished(&self.threads)
    }

    /// What the machine has come to.
    ///
    /// # Errors
    ///
    /// `NoMemory` for want of memory.
    pub fn report(&self, alloc: Global) -> Result<Report, NoMemory>
        ensures report { IfOk result (λ report. report ≡ report_of self.now.state) }
        ensures few { IfOk result (λ report. length report.threads ≤ 64) }
    {
        let out = Vec::from_slice(alloc, &self.output)?;
        let threads = thread_ends(alloc, &self.threads)?;
        Ok(Report {
            out: Seq::of(out),
            threads: Seq::of(threads),
        })
    }

    // The thread executes its next instruction, or ends in place of it.
    pub(crate) fn run(&mut self, thread: u32) -> Result<(), Refused>
        requires { thread < length self.old.state.threads }
        ensures setup { self.new.setup ≡ self.old.setup }
        ensures threads { length self.new.state.threads ≡ length self.old.state.threads }
        ensures answer { (c : Thread) → slice_get self.old.state.threads thread ≡ Some c
            → MatchResult result (λ _. refused_run self.old.setup.image c c.ended
            ≡ None) (λ why. refused_run self.old.setup.image c c.ended ≡ Some why) }
        ensures steps { OnOk result (StepsAs self.old.setup self.old.state (choice.Run thread) self.new.state) }
        ensures still { OnErr result (self.new ≡ self.old) }
    {
        let core = &mut self.threads[thread as usize];
        run_next(
            core,
            self.image,
            &self.options,
            &mut self.memory,
            &mut self.output,
            thread,
        )
    }

    // The thread's oldest store goes to memory.
    pub(crate) fn drain(&mut self, thread: u32) -> Result<(), Refused>
        requires { thread < length self.old.state.threads }
        ensures setup { self.new.setup ≡ self.old.setup }
        ensures threads { length self.new.state.threads ≡ length self.old.state.threads }
        ensures answer { (c : Thread) → slice_get self.old.state.threads thread ≡ Some c
            → MatchResult result (λ _. refused_drain c.buffer ≡ None) (λ why. refused_drain c.buffer ≡ Some why) }
        ensures steps { OnOk result (StepsAs self.old.setup self.old.state (choice.Drain thread) self.new.state) }
        ensures still { OnErr result (self.new ≡ self.old) }
    {
        let core = &mut self.threads[thread as usize];
        drain_oldest(core, &mut self.memory)
    }

    /// Takes a step that is chosen: the thread executes its next instruction or ends in place of it, or its oldest
    /// store goes to memory. It takes no memory.
    ///
    /// # Errors
    ///
    /// `Refused`, and then nothing changes: `Ended` exactly where a thread with an end is to run, `NothingToDrain`
    /// exactly where a thread with an empty buffer is to drain, and `MustDrain` exactly where the next instruction of
    /// a thread that is to run is locked while its buffer isn't empty, or stores while its buffer is full.
    pub fn step(&mut self, choice: Choice) -> Result<(), Refused>
        requires { thread_of choice < length self.old.state.threads }
        ensures setup { self.new.setup ≡ self.old.setup }
        ensures threads { length self.new.state.threads ≡ length self.old.state.threads }
        ensures answer { (c : Thread) → slice_get self.old.state.threads (thread_of choice) ≡ Some c
            → MatchResult result (λ _. refused_choice self.old.setup.image c choice
            ≡ None) (λ why. refused_choice self.old.setup.image c choice ≡ Some why) }
        ensures steps { OnOk result (StepsAs self.old.setup self.old.state choice self.new.state) }
        ensures still { OnErr result (self.new ≡ self.old) }
    {
        match choice {
            Choice::Run(thread) => self.run(thread),
            Choice::Drain(thread) => self.drain(thread),
        }
    }
}

// What is reported of each of these threads.
fn thread_ends(alloc: Global, threads: &[ThreadCore]) -> Result<Vec<ThreadEnd>, NoMemory>
    ensures { IfOk result (λ ends. ends.items ≡ map thread_end threads.now) }
{
    let mut ends = Vec::new(alloc);
    for core in threads {
        ends.push(core.report())?;
    }
    Ok(ends)
}

// Whether each of these threads has an end, and nothing is left to drain of it.
fn are_finished(threads: &[ThreadCore]) -> bool
    ensures { MatchBool result (AreFinished threads.now) (AreFinished threads.now → ⊥) }
{
    for core in threads {
        if !core.has_finished() {
            return false;
        }
    }
    true
}

// The threads before their first instructions.
fn first_threads(
    alloc: Global,
    image: &Image,
    options: &Options,
) -> Result<Vec<ThreadCore>, NoMemory>
    requires least { 16 ≤ options.now.stack }
    requires most { options.now.stack ≤ 1048576 }
    ensures { IfOk result (λ threads. threads.items ≡ threads_from (setup image.now options.now) 0 image.now.entries) }
{
    let mut threads = Vec::new(alloc);
    for thread in 0..image.entries.as_slice().len() as u32 {
        threads.push(ThreadCore::start(alloc, image, options, thread)?)?;
    }
    Ok(threads)
}
