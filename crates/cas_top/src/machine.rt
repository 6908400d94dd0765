//! The machine that runs the generated code: one thread, on the register eax alone.
ghost use Rattle.std.specs.Prelude.{◌≡◌, ◌<◌, IfOk, Some, None, slice_get, length};
ghost use Rattle.cas_top.specs.Machine.{start, executed, RunsTo};

use cas_base::{NoMemory, add};
use std::alloc::Global;
use std::marker::Model;

/// The instructions: those of IA-32 on the register eax that the first form needs.
#[derive(Clone, Copy, Debug, PartialEq, Eq)]
pub enum Instr {
    /// `mov eax, i`: the number goes to the register.
    MovEax(u32),
    /// `add eax, i`: the number is added to the register, modulo 2^32.
    AddEax(u32),
    /// `out eax`: the register is output.
    OutEax,
    /// `ret`: to the outermost return place, which ends the thread.
    Ret,
}

/// How a thread ends.
#[derive(Clone, Copy, Debug, PartialEq, Eq)]
pub enum End {
    /// By the return to the outermost return place.
    Done,
    /// At what is no place of the code.
    Bad,
}

/// What a run that has ended leaves: its outputs in order, words with their thread, and how each thread ended.
/// Contracts see it as a `Report` of lists.
#[derive(Debug, Drop)]
pub(crate) struct Report {
    pub(crate) out: Vec<(u32, u32)>,
    pub(crate) ends: Vec<End>,
}

impl Model for Report {
    ghost use Rattle.cas_top.specs.Machine.{Report};

    ghost Value = { Report };

    ghost view = { λ r. record { out = r.out.items; ends = r.ends.items } };
}

// The thread: its number, the number of its next instruction, its register, its end, if it has one, and the
// output. Contracts see it as a `State`.
#[derive(Drop)]
struct Machine {
    thread: u32,
    place: usize,
    eax: u32,
    end: Option<End>,
    out: Vec<(u32, u32)>,
}

impl Model for Machine {
    ghost use Rattle.cas_top.specs.Machine.{State};

    ghost Value = { State };

    ghost view = { λ m. record { thread = m.thread; place = m.place; eax = m.eax; end = m.end; out = m.out.items } };
}

impl Machine {
    // Thread 0 at its start.
    fn new(alloc: Global) -> Self
        ensures { result ≡ start 0 }
    {
        Machine {
            thread: 0,
            place: 0,
            eax: 0,
            end: None,
            out: Vec::new(alloc),
        }
    }

    // Executes the instruction at the thread's place.
    fn step(&mut self, code: &[Instr]) -> Result<(), NoMemory>
        requires { self.old.end ≡ None }
        ensures { IfOk result (λ _. self.new ≡ executed (slice_get code.now self.old.place) self.old) }
    {
        let Some(instr) = code.get(self.place) else {
            self.end = Some(End::Bad);
            return Ok(());
        };
        match instr {
            Instr::MovEax(number) => self.eax = *number,
            Instr::AddEax(number) => self.eax = add(self.eax, *number),
            Instr::OutEax => self.out.push((self.thread, self.eax))?,
            Instr::Ret => {
                self.end = Some(End::Done);
                return Ok(());
            }
        }
        self.place += 1;
        Ok(())
    }
}

/// Runs thread 0 from its start to its end, which it reaches, since each instruction but `ret` goes one
/// place on.
pub(crate) fn run(alloc: Global, code: &[Instr]) -> Result<Report, NoMemory>
    ensures { IfOk result (λ report. RunsTo code.now report) }
{
    let mut machine = Machine::new(alloc);
    loop {
        machine.step(code)?;
        if let Some(end) = machine.end {
            return Ok(Report {
                out: machine.out,
                ends: vec![in alloc; end]?,
            });
        }
    }
}
