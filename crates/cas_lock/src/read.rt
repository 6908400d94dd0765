//! Reading lock texts.

ghost use Rattle.std.specs.Prelude.{◌≡◌, ◌≤◌, ◌<◌, ◌+◌, ◌-◌, ◌^◌, ◌⊎◌, ◌∷◌, [], ℕ, None, Some, List, MatchResult, MatchOption, IfOk, length};
ghost use Rattle.cas_lock.specs.Read.{lock_fault, fault_from, entry_at};
ghost use Rattle.cas_lock.specs.declared.fault.LockFault.TheVariants.{Memory};

use crate::body::{Label, first_difference};
use crate::fault::LockFault;
use crate::line::{Entry, entry_of, split_solid};
use crate::object::LockObject;
use crate::step::Step;
use cas_base::NoMemory;
use cas_pieces::{Piece, cut_line};
use std::alloc::Global;

// What is read of a lock text so far: its labels and instructions, the number of the next line, and room for the pieces
// of a line.
#[derive(Drop)]
struct Reading<'a> {
    labels: Vec<Label<'a>>,
    steps: Vec<Step<'a>>,
    line: u32,
    pieces: Vec<Piece<'a>>,
}

/// The lock object whose text this is. Time is linear in the text.
///
/// # Errors
///
/// `Text` and `Body` exactly as the text's first fault is: the first line that is none of a lock text, or else the
/// first instruction that differs from the accepted body. `Memory` for want of memory.
pub fn read_lock(alloc: Global, bytes: &[u8]) -> Result<LockObject, LockFault>
    requires { length bytes.now ≤ 1048576 }
    ensures { MatchResult result (λ _. lock_fault bytes.now ≡ None) (λ fault. (fault ≡ Memory) ⊎ (lock_fault bytes.now
        ≡ Some fault)) }
{
    let mut reading = Reading {
        labels: Vec::new(alloc),
        steps: Vec::new(alloc),
        line: 1,
        pieces: Vec::new(alloc),
    };
    let mut text = bytes;
    while let Some((front, after)) = cut_line(text) {
        reading.take(front)?;
        text = after;
    }
    if let Err(fault) = reading.take(text) {
        return Err(fault);
    }
    match first_difference(&reading.labels, &reading.steps) {
        None => Ok(LockObject::accepted(alloc)?),
        Some(k) => Err(LockFault::Body {
            instruction: k as u32 + 1,
        }),
    }
}

impl<'a> Reading<'a> {
    // Reads a line.
    fn take(&mut self, line: &'a [u8]) -> Result<(), LockFault>
        requires { self.old.line < 2 ^ 32 - 1 }
        ensures counted { IfOk result (λ _. self.new.line ≡ self.old.line + 1) }
        ensures read { (rest : List (List ℕ)) → MatchResult result
            (λ _. fault_from (line.now ∷ rest) self.old.labels.items self.old.steps.items self.old.line
            ≡ fault_from rest self.new.labels.items self.new.steps.items self.new.line)
            (λ fault. (fault ≡ Memory)
            ⊎ (fault_from (line.now ∷ rest) self.old.labels.items self.old.steps.items self.old.line ≡ Some fault)) }
    {
        let entry = self.entry(line)?;
        match entry {
            Entry::Blank => {}
            Entry::Label(name) => {
                let place = self.steps.len();
                self.labels.push(Label { name, place })?;
            }
            Entry::Step(step) => self.steps.push(step)?,
            Entry::Fault => return Err(LockFault::Text { line: self.line }),
        }
        self.line += 1;
        Ok(())
    }

    // What a line is.
    fn entry(&mut self, line: &'a [u8]) -> Result<Entry<'a>, NoMemory>
        ensures entry { IfOk result (λ entry. entry ≡ entry_at line.now) }
        ensures labels { self.new.labels.items ≡ self.old.labels.items }
        ensures steps { self.new.steps.items ≡ self.old.steps.items }
        ensures line { self.new.line ≡ self.old.line }
    {
        split_solid(&mut self.pieces, line)?;
        Ok(entry_of(&self.pieces))
    }
}
