//! Threads: their activations, each as a frame, and their memory.

ghost use Rattle.std.specs.Prelude.{◌≡◌, ◌↔◌, ◌∷◌, IsTrue, ℕ, List, [], None, Some, option_map, reverse, vec_capacity, vec_len};
ghost use Rattle.cas_step.specs.Continuation as items;
ghost use Rattle.cas_step.specs.Env.{Env};
ghost use Rattle.cas_step.specs.Step as step;
ghost use Rattle.cas_step.specs.Step.{converted as converted_value, doing, memory_keeping, memory_with, return_step, thread_with};
ghost use Rattle.cas_typed.specs.declared.typed.Typed.{Typed};
ghost use Rattle.cas_memory.specs.Values.{object_of, value_of};
ghost use Rattle.cas_thread.specs.Control.{after};
ghost use Rattle.cas_thread.specs.Frames.{AreFrames, AreThread, IsAThread, IsFrame, rows_at};
ghost use Rattle.cas_thread.specs.Stepping.{IsTaken, gone, newest_serial};
ghost use Rattle.cas_thread.specs.Thread.{IsThread};
ghost use Rattle.cas_whole.specs.declared.program.Program.{Program};

use crate::continuation::ContItem;
use crate::control::advance;
use cas_base::{Act, Ty, narrow};
use cas_memory::{Memory, Object, Value};
use cas_typed::{Destination, StmtRow, Typed};
use std::alloc::Global;

/// A call that hasn't returned.
#[derive(Debug, Drop)]
pub(crate) struct Frame {
    /// Its serial number, which no other call of the thread has.
    pub serial: u64,
    /// The number of its function's module.
    pub unit: u32,
    /// The place of its function among those of the module.
    pub place: u32,
    /// The caller's local for its result.
    pub target: Option<Destination>,
    /// Its continuation, the first item last.
    pub cont: Vec<ContItem>,
}

/// A thread.
#[derive(Drop)]
pub struct Config {
    pub(crate) alloc: Global,
    /// Its calls, the newest last.
    pub(crate) frames: Vec<Frame>,
    /// Their locals.
    pub(crate) memory: Memory,
    /// The next serial number.
    pub(crate) fresh: u64,
}

/// The rows of the function at a place of a module; none if there is no such function.
#[tactic(auto, using(crate::proofs::Getting::get_there, crate::proofs::Getting::get_past))]
pub(crate) fn rows_of(modules: &[Typed], unit: u32, place: u32) -> &[StmtRow]
    ensures { result.now ≡ rows_at modules.now unit place }
{
    match modules.get(unit as usize) {
        Some(typed) => match typed.functions().get(place as usize) {
            Some(function) => function.rows.as_slice(),
            None => &[],
        },
        None => &[],
    }
}

// Continues in a frame after its first item.
fn advance_frame(modules: &[Typed], frame: Frame, holds: bool) -> Frame
    requires { ∥ ((a : step.Activation) × IsFrame modules.now frame a) ∥₁ }
    ensures { (a : step.Activation) → IsFrame modules.now frame a
        → IsFrame modules.now result
        (record { serial = a.serial; function = a.function; target = a.target; cont = after holds a.cont }) }
{
    let mut frame = frame;
    let rows = rows_of(modules, frame.unit, frame.place);
    advance(rows, &mut frame.cont, holds);
    frame
}

/// Continues in the newest frame after its first item. It takes no memory.
pub(crate) fn advance_newest(modules: &[Typed], frames: &mut Vec<Frame>, holds: bool)
    requires { ∥ ((all : List step.Activation) × AreFrames modules.now (reverse frames.old.items) all) ∥₁ }
    ensures frames { (all : List step.Activation) → AreFrames modules.now (reverse frames.old.items) all
        → AreFrames modules.now (reverse frames.new.items) (gone holds all) }
    ensures len { vec_len frames.new ≡ vec_len frames.old }
    ensures room { vec_capacity frames.new ≡ vec_capacity frames.old }
{
    if let Some(frame) = frames.pop() {
        let next = advance_frame(modules, frame, holds);
        frames.push_reserved(next);
    }
}

impl Config {
    /// Whether the thread has ended: it has no call.
    pub fn has_ended(&self) -> bool
        ensures { (program : Program) (c : step.Config) → IsThread program self.now c →
            IsTrue result ↔ (c.activations ≡ []) }
    {
        caller_of(&self.frames).is_none()
    }

    /// Continues in the newest call after its first item. It takes no memory.
    pub(crate) fn proceed(&mut self, modules: &[Typed], holds: bool)
        requires { ∥ IsAThread modules.now self.old ∥₁ }
        ensures goes { (h : step.StepContext) → AreThread modules.now self.old h.config →
            h.config.activations ≡ h.newest ∷ h.older
            → AreThread modules.now self.new (thread_with h (doing h (after holds h.newest.cont)) h.config.memory) }
        ensures len { vec_len self.new.frames ≡ vec_len self.old.frames }
        ensures room { vec_capacity self.new.frames ≡ vec_capacity self.old.frames }
    {
        advance_newest(modules, &mut self.frames, holds);
    }

    /// Stores a value at a place of an object. If there is no such place, nothing changes.
    pub(crate) fn store(&mut self, object: Object, place: u32, value: Value)
        ensures { (modules : List Typed) (h : step.StepContext) (cont : List items.ContItem) →
            AreThread modules self.old (thread_with h (doing h cont) h.config.memory)
            → AreThread modules self.new (thread_with h (doing h cont)
            (memory_with h.config.memory (object_of object) place (value_of value))) }
    {
        self.memory.store(object, place, value);
    }
}

// A returned value, converted to the type of the local that keeps it.
fn converted(ty: Ty, value: Value) -> Option<Value>
    ensures { option_map value_of result ≡ converted_value ty (value_of value) }
{
    match ty {
        Ty::Int(kind) => match value {
            Value::Word(word) => Some(Value::Word(narrow(word, kind))),
            Value::Null => None,
            Value::Pointer { .. } => None,
        },
        Ty::Ptr(_) => match value {
            Value::Word(_) => None,
            Value::Null => Some(value),
            Value::Pointer { .. } => Some(value),
        },
        Ty::Void => None,
        Ty::Array(_, _) => None,
    }
}

// Keeps what was returned in the caller's local.
fn keep(memory: &mut Memory, serial: u64, target: Option<Destination>, value: Option<Value>)
    ensures { (m : List step.Block) → memory_keeping memory.old serial target (option_map value_of value) ≡ Some m →
        memory.new ≡ m }
{
    if let Some(destination) = target {
        if let Some(value) = value {
            if let Some(kept) = converted(destination.ty, value) {
                let object = Object {
                    serial,
                    local: destination.local,
                };
                memory.store(object, 0, kept);
            }
        }
    }
}

impl Config {
    /// Returns from the newest call with this value: to the caller, or, from the outermost call, to the end of the
    /// thread. None if there is no call.
    pub(crate) fn return_value(&mut self, value: Option<Value>) -> Option<Act>
        ensures { (modules : List Typed) (e : Env) (h : step.StepContext) (rs : List ℕ) (s : step.Step) →
            AreThread modules self.old h.config → h.config.activations ≡ h.newest ∷ h.older
            → return_step e h rs h.older (option_map value_of value) ≡ Some s → IsTaken modules result self.new s }
    {
        match self.frames.pop() {
            Some(frame) => {
                self.memory.remove(frame.serial);
                match caller_of(&self.frames) {
                    Some(serial) => {
                        keep(&mut self.memory, serial, frame.target, value);
                        Some(Act::Quiet)
                    }
                    None => Some(Act::Done),
                }
            }
            None => None,
        }
    }
}

// The serial number of the newest of these.
fn caller_of(frames: &[Frame]) -> Option<u64>
    ensures { (modules : List Typed) (all : List step.Activation) → AreFrames modules (reverse frames.now) all →
        result ≡ newest_serial all }
{
    let (frame, _) = frames.split_last()?;
    Some(frame.serial)
}
