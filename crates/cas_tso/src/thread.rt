//! One thread: its processor, its store buffer, its counts and its end.

ghost use Rattle.std.specs.Prelude.{◌≡◌, ◌+◌, ◌<◌, ◌≤◌, ℕ, [], List, length, None, Some, IfOk, IfSome, IfNone, MatchOption, ◌∷◌, slice_get, IsTrue};
ghost use Rattle.cas_asm.specs.Ask.{ask_of};
ghost use Rattle.cas_asm.specs.declared.ask.Ask.TheVariants as ask;
ghost use Rattle.cas_tso.specs.Asking.{IsAmongWords};
ghost use Rattle.cas_tso.specs.Report.{thread_end};
ghost use Rattle.cas_tso.specs.Run.{first_end, first_thread};
ghost use Rattle.cas_tso.specs.State.{Setup, newest, room, setup};
ghost use Rattle.cas_tso.specs.Step as act;
ghost use Rattle.cas_tso.specs.Step.{IsRunning, IsPlain, Takes, end_after, after_stop, stop_of};
ghost use Rattle.cas_tso.specs.Timed.{has_finished, is_due, must_drain};

use crate::end::End;
use crate::options::Options;
use crate::pending::{Pending, newest};
use crate::report::ThreadEnd;
use cas_asm::{Ask, Core, Cpu, Image, cpu_ask, cpu_step};
use cas_base::NoMemory;
use circular_buffer::HeapCircularBuffer;
use std::alloc::Global;
use std::marker::Model;

/// How many stores a buffer has room for.
pub const ROOM: usize = 64;

/// One thread. Contracts see it as its `Thread`.
#[derive(Drop)]
pub struct ThreadCore {
    cpu: Cpu,
    buffer: HeapCircularBuffer<Pending, Global>,
    executed: u64,
    loads: u64,
    forwarded: u64,
    drains: u64,
    outs: u32,
    end: Option<End>,
}

impl Model for ThreadCore {
    ghost use Rattle.std.specs.Prelude.{◌≡◌};
    ghost use Rattle.cas_tso.specs.State.{Thread, room};
    ghost use Rattle.cas_tso.specs.Counted.{IsCounted};

    ghost Value = { Thread };

    ghost use Rattle.cas_tso.specs.Core.{thread_in};

    ghost view = { thread_in };

    ghost invariant = { λ c. (c.buffer.capacity ≡ room) × IsCounted (thread_in c) };
}

impl ThreadCore {
    /// A thread before its first instruction. With no fuel it has ended already.
    ///
    /// # Errors
    ///
    /// `NoMemory` for want of memory.
    pub fn start(
        alloc: Global,
        image: &Image,
        options: &Options,
        thread: u32,
    ) -> Result<ThreadCore, NoMemory>
        requires entry { thread < length image.now.entries }
        requires least { 16 ≤ options.now.stack }
        requires most { options.now.stack ≤ 1048576 }
        ensures { IfOk result (λ core. core ≡ first_thread (setup image.now options.now) thread) }
    {
        let cpu = Cpu::new(alloc, image, thread, options.stack)?;
        let buffer = HeapCircularBuffer::with_capacity(alloc, ROOM)?;
        Ok(ThreadCore {
            cpu,
            buffer,
            executed: 0,
            loads: 0,
            forwarded: 0,
            drains: 0,
            outs: 0,
            end: first_end(options),
        })
    }

    /// What the thread's next instruction does, given the shared word that it loads.
    pub fn ask(&self, image: &Image, loaded: Option<u32>) -> Ask
        ensures asked { result ≡ ask_of image.now self.now.cpu loaded }
        ensures among { IsAmongWords (length image.now.words) result }
    {
        cpu_ask(image, &self.cpu, loaded)
    }

    /// The thread's end, if it has one.
    pub fn end(&self) -> Option<End>
        ensures { result ≡ self.now.ended }
    {
        self.end
    }

    /// Whether the thread has an end and nothing is left to drain of it.
    pub fn has_finished(&self) -> bool
        ensures { result ≡ has_finished self.now }
    {
        match self.end {
            None => false,
            Some(End::Done) => self.buffer.len() == 0,
            Some(_) => true,
        }
    }

    /// What is reported of the thread.
    pub fn report(&self) -> ThreadEnd
        ensures { result ≡ thread_end self.now }
    {
        ThreadEnd {
            end: self.end,
            executed: self.executed,
            loads: self.loads,
            forwarded: self.forwarded,
            drains: self.drains,
        }
    }

    /// The registers, flags and place of its processor.
    pub fn core(&self) -> Core
        ensures { result ≡ self.now.cpu.core }
    {
        self.cpu.core()
    }

    /// How many stores are in the buffer.
    pub fn stores(&self) -> usize
        ensures { result ≡ length self.now.buffer }
    {
        self.buffer.len()
    }

    /// The store of the buffer with this number, from 0 on, the oldest first.
    pub fn store_at(&self, index: usize) -> Option<Pending>
        ensures { result ≡ slice_get self.now.buffer index }
    {
        self.buffer.get(index).copied()
    }

    /// The value of the newest store of the buffer to a word.
    pub fn newest(&self, at: u32) -> Option<u32>
        ensures { result ≡ newest self.now.buffer at }
    {
        newest(&self.buffer, at)
    }

    /// Step 1: the thread executes its next instruction, which asks for this and touches no shared word.
    pub fn run(&mut self, image: &Image, options: &Options, asked: Ask)
        requires running { IsRunning self.old }
        requires asked { asked ≡ ask_of image.now self.old.cpu None }
        requires plain { IsPlain asked }
        requires fuel { self.old.counts.executed < 4000000000 }
        ensures { Takes (setup image.now options.now) self.old act.plain self.new }
    {
        cpu_step(image, &mut self.cpu, 0);
        self.executed += 1;
        self.end = end_after(options, asked, self.executed);
    }

    /// Step 2: the thread executes its next instruction, which loads the newest store of its own buffer and, with this
    /// word, asks for no more than this.
    pub fn forward(&mut self, image: &Image, options: &Options, at: u32, word: u32, asked: Ask)
        requires running { IsRunning self.old }
        requires load { ask_of image.now self.old.cpu None ≡ ask.Load at }
        requires newest { newest self.old.buffer at ≡ Some word }
        requires asked { asked ≡ ask_of image.now self.old.cpu (Some word) }
        requires plain { IsPlain asked }
        requires fuel { self.old.counts.executed < 4000000000 }
        ensures { Takes (setup image.now options.now) self.old (act.forwarded at word) self.new }
    {
        cpu_step(image, &mut self.cpu, word);
        self.executed += 1;
        self.loads += 1;
        self.forwarded += 1;
        self.end = end_after(options, asked, self.executed);
    }

    /// Step 2: the thread executes its next instruction, which loads a word from memory and, with this word, asks for no
    /// more than this.
    pub fn load(&mut self, image: &Image, options: &Options, at: u32, word: u32, asked: Ask)
        requires running { IsRunning self.old }
        requires load { ask_of image.now self.old.cpu None ≡ ask.Load at }
        requires newest { newest self.old.buffer at ≡ None }
        requires asked { asked ≡ ask_of image.now self.old.cpu (Some word) }
        requires plain { IsPlain asked }
        requires fuel { self.old.counts.executed < 4000000000 }
        ensures { Takes (setup image.now options.now) self.old (act.loaded at word) self.new }
    {
        cpu_step(image, &mut self.cpu, word);
        self.executed += 1;
        self.loads += 1;
        self.end = end_after(options, asked, self.executed);
    }

    /// Step 3: the thread executes its next instruction, which appends a store to the buffer.
    pub fn store(&mut self, image: &Image, options: &Options, at: u32, value: u32)
        requires running { IsRunning self.old }
        requires store { ask_of image.now self.old.cpu None ≡ ask.Store at value }
        requires room { length self.old.buffer < room }
        requires fuel { self.old.counts.executed < 4000000000 }
        ensures { Takes (setup image.now options.now) self.old (act.stored at value) self.new }
    {
        cpu_step(image, &mut self.cpu, 0);
        self.executed += 1;
        self.end = end_after(options, Ask::Store { at, value }, self.executed);
        let entered = self.executed;
        let _pushed = self.buffer.try_push_back(Pending { at, value, entered });
    }

    /// Step 4: the oldest store leaves the buffer. Without a store nothing changes.
    pub fn drain(&mut self) -> Option<Pending>
        ensures value { result ≡ slice_get self.old.buffer 0 }
        ensures taken { MatchOption result ((self.old.buffer ≡ []) × (self.new ≡ self.old)) (λ x. (p : Setup)
            → Takes p self.old (act.drained x.at x.value) self.new) }
    {
        let store = self.buffer.pop_front()?;
        self.drains += 1;
        Some(store)
    }

    /// Step 5: the thread executes its next instruction, a locked decrement that found this word.
    pub fn decrement(&mut self, image: &Image, options: &Options, at: u32, word: u32)
        requires running { IsRunning self.old }
        requires locked { ask_of image.now self.old.cpu None ≡ ask.LockedDec at }
        requires empty { self.old.buffer ≡ [] }
        requires fuel { self.old.counts.executed < 4000000000 }
        ensures { Takes (setup image.now options.now) self.old (act.decremented at word) self.new }
    {
        cpu_step(image, &mut self.cpu, word);
        self.executed += 1;
        self.end = end_after(options, Ask::LockedDec { at }, self.executed);
    }

    /// Step 6: the thread executes its next instruction, an `out` of this word.
    pub fn print(&mut self, image: &Image, options: &Options, word: u32)
        requires running { IsRunning self.old }
        requires out { ask_of image.now self.old.cpu None ≡ ask.Out word }
        requires room { self.old.counts.outs < options.now.outs }
        requires fuel { self.old.counts.executed < 4000000000 }
        ensures { (ticket : ℕ) → Takes (setup image.now options.now) self.old (act.printed ticket word) self.new }
    {
        cpu_step(image, &mut self.cpu, 0);
        self.executed += 1;
        self.outs += 1;
        self.end = end_after(options, Ask::Out { value: word }, self.executed);
    }

    /// Step 7: the thread ends in place of its next instruction.
    pub fn stop(&mut self, end: End)
        ensures { self.new ≡ after_stop self.old end }
    {
        self.end = Some(end);
    }

    /// The end that the thread finds at its next instruction, which asks for this, in place of executing it.
    pub fn stop_of(&self, options: &Options, asked: Ask) -> Option<End>
        ensures { result ≡ stop_of options.now self.now asked }
    {
        match asked {
            Ask::Stack => Some(End::Stack),
            Ask::Bad(why) => Some(End::Bad(why)),
            Ask::Out { .. } => {
                if self.outs < options.outs {
                    None
                } else {
                    Some(End::Outs)
                }
            }
            _ => None,
        }
    }

    /// Whether the thread can't execute its next instruction, which asks for this, before its oldest store is drained.
    pub fn must_drain(&self, asked: Ask) -> bool
        ensures { result ≡ must_drain asked self.now.buffer }
    {
        match asked {
            Ask::Store { .. } => self.buffer.len() >= ROOM,
            Ask::LockedDec { .. } => self.buffer.len() > 0,
            _ => false,
        }
    }

    /// Whether a store of the thread is due, which is then the oldest.
    pub fn is_due(&self, image: &Image, hold: u32) -> bool
        ensures { result ≡ is_due image.now hold self.now }
    {
        let Some(oldest) = self.buffer.front() else {
            return false;
        };
        match self.end {
            Some(End::Done) => true,
            Some(_) => false,
            None => {
                self.executed.saturating_sub(oldest.entered) >= u64::from(hold)
                    || self.must_drain(self.ask(image, None))
            }
        }
    }
}

// The end of a thread that has executed so many instructions, the last of them that to which this was the answer.
fn end_after(options: &Options, asked: Ask, executed: u64) -> Option<End>
    ensures { result ≡ end_after options.now asked executed }
{
    if let Ask::Finish = asked {
        return Some(End::Done);
    }
    if executed == options.fuel {
        Some(End::Fuel)
    } else {
        None
    }
}

// The end of a thread before its first instruction.
fn first_end(options: &Options) -> Option<End>
    ensures { result ≡ first_end options.now }
{
    if options.fuel == 0 {
        Some(End::Fuel)
    } else {
        None
    }
}
