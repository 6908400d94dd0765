//! The table of instructions, of an image's code.

ghost use Rattle.std.specs.Prelude.{◌≡◌};
ghost use Rattle.cas_asm.specs.declared.instr.Operation.TheVariants.{Sub, And};
ghost use Rattle.cas_asm.specs.declared.effect.Operand.TheVariants.{Number, Memory};
ghost use Rattle.cas_asm.specs.declared.effect.Operator.TheVariants.{Operates};
ghost use Rattle.cas_asm.specs.declared.effect.FlagRule.TheVariants.{Kept, OfDifference, OfLogic, OfDecrement};
ghost use Rattle.cas_asm.specs.declared.effect.Destination.TheVariants.{Nowhere, Register, Locked};
ghost use Rattle.cas_asm.specs.Links.{in_image};
ghost use Rattle.cas_asm.specs.Effect.{word_of_mem, location_of, source_operand, value_operand, count_operand, target_place, callee_place, flags_of_operation, computes, copies, pops, goes, effect_of};

use crate::effect::{Computed, Destination, Effect, FlagRule, Location, Next, Operand, Operator};
use crate::image::{LOCK_PLACE, UNLOCK_PLACE};
use crate::instr::{Callee, Count, Instr, Mem, Operation, ShiftKind, Source, Target, Value};
use cas_base::{Reg, add};

fn word(sym: Option<u32>, disp: u32) -> u32
    ensures { result ≡ word_of_mem in_image sym disp }
{
    match sym {
        None => disp,
        Some(address) => add(address, disp),
    }
}

fn location(mem: &Mem<u32>) -> Location
    ensures { result ≡ location_of in_image mem.now }
{
    Location {
        word: word(mem.sym, mem.disp.cast_unsigned()),
        base: mem.base,
        index: mem.index,
    }
}

fn source(from: &Source<u32>) -> Operand
    ensures { result ≡ source_operand in_image from.now }
{
    match from {
        Source::Reg(reg) => Operand::Register(*reg),
        Source::Num(number) => Operand::Number(*number),
        Source::Mem(mem) => Operand::Memory(location(mem)),
    }
}

fn value(from: Value) -> Operand
    ensures { result ≡ value_operand from }
{
    match from {
        Value::Reg(reg) => Operand::Register(reg),
        Value::Num(number) => Operand::Number(number),
    }
}

fn count(by: Count) -> Operand
    ensures { result ≡ count_operand by }
{
    match by {
        Count::Fixed(number) => Operand::Number(number),
        Count::Ecx => Operand::Register(Reg::Ecx),
    }
}

fn target(to: Target<u32>) -> u32
    ensures { result ≡ target_place in_image to }
{
    match to {
        Target::Label(place) | Target::Function(place) => place,
    }
}

fn callee(of: Callee<u32>) -> u32
    ensures { result ≡ callee_place in_image of }
{
    match of {
        Callee::Lock => LOCK_PLACE,
        Callee::Unlock => UNLOCK_PLACE,
        Callee::Function(place) => place,
    }
}

fn flags_of(operation: Operation) -> FlagRule
    ensures { result ≡ flags_of_operation operation }
{
    match operation {
        Operation::Add => FlagRule::OfSum,
        Operation::Sub => FlagRule::OfDifference,
        Operation::And | Operation::Or | Operation::Xor => FlagRule::OfLogic,
        Operation::Imul => FlagRule::Cleared,
    }
}

// A row with two operands.
fn computes(
    operator: Operator,
    left: Operand,
    right: Operand,
    flags: FlagRule,
    to: Destination,
) -> Effect
    ensures { result ≡ computes operator left right flags to }
{
    Effect::Computes(Computed {
        left,
        right,
        operator,
        flags,
        pops: false,
        to,
        next: Next::Following,
    })
}

// A row that copies its one operand and keeps the flags.
fn copies(from: Operand, to: Destination, next: Next) -> Effect
    ensures { result ≡ copies from to next }
{
    Effect::Computes(Computed {
        left: Operand::Number(0),
        right: from,
        operator: Operator::Copies,
        flags: FlagRule::Kept,
        pops: false,
        to,
        next,
    })
}

// A row that takes the word at the top of the stack off and keeps the flags.
fn pops(to: Destination, next: Next) -> Effect
    ensures { result ≡ pops to next }
{
    Effect::Computes(Computed {
        left: Operand::Number(0),
        right: Operand::Top,
        operator: Operator::Copies,
        flags: FlagRule::Kept,
        pops: true,
        to,
        next,
    })
}

// A row with one operand that keeps the flags.
fn keeps(operator: Operator, left: Operand, right: Operand, to: Reg) -> Effect
    ensures { result ≡ computes operator left right Kept (Register to) }
{
    computes(
        operator,
        left,
        right,
        FlagRule::Kept,
        Destination::Register(to),
    )
}

// A row that only goes on somewhere.
fn goes(next: Next) -> Effect
    ensures { result ≡ goes next }
{
    copies(Operand::Number(0), Destination::Nowhere, next)
}

impl Instr<u32> {
    /// The row of an image's instruction.
    pub fn effect(&self) -> Effect
        ensures { result ≡ effect_of in_image self.now }
    {
        match self {
            Instr::Mov(to, from) => copies(
                source(from),
                Destination::Register(*to),
                Next::Following,
            ),
            Instr::Store(to, from) => copies(
                value(*from),
                Destination::Memory(location(to)),
                Next::Following,
            ),
            Instr::Extend(how, to, from) => keeps(
                Operator::Extends(*how),
                Operand::Number(0),
                Operand::Register(*from),
                *to,
            ),
            Instr::Lea(to, mem) => copies(
                Operand::Address(location(mem)),
                Destination::Register(*to),
                Next::Following,
            ),
            Instr::Operate(what, to, from) => computes(
                Operator::Operates(*what),
                Operand::Register(*to),
                source(from),
                flags_of(*what),
                Destination::Register(*to),
            ),
            Instr::Cmp(left, right) => compared(Operand::Register(*left), source(right)),
            Instr::CmpMem(left, right) => compared(
                Operand::Memory(location(left)),
                Operand::Number(*right),
            ),
            Instr::Test(left, right) => tested(Operand::Register(*left), value(*right)),
            Instr::Neg(to) => computes(
                Operator::Operates(Operation::Sub),
                Operand::Number(0),
                Operand::Register(*to),
                FlagRule::OfDifference,
                Destination::Register(*to),
            ),
            Instr::Not(to) => keeps(
                Operator::Complements,
                Operand::Number(0),
                Operand::Register(*to),
                *to,
            ),
            Instr::Shift(how, to, by) => computes(
                Operator::Shifts(*how),
                Operand::Register(*to),
                count(*by),
                FlagRule::Cleared,
                Destination::Register(*to),
            ),
            Instr::Cdq => keeps(
                Operator::Shifts(ShiftKind::Sar),
                Operand::Register(Reg::Eax),
                Operand::Number(31),
                Reg::Edx,
            ),
            Instr::Idiv(by) => Effect::Divides(true, *by),
            Instr::Div(by) => Effect::Divides(false, *by),
            Instr::Push(from) => copies(
                Operand::Register(*from),
                Destination::Pushed,
                Next::Following,
            ),
            Instr::Pop(to) => pops(Destination::Register(*to), Next::Following),
            Instr::Jmp(to) => goes(Next::To(target(*to))),
            Instr::JumpIf(on, to) => goes(Next::ToIf(*on, *to)),
            Instr::Call(of) => copies(
                Operand::NextPlace,
                Destination::Pushed,
                Next::To(callee(*of)),
            ),
            Instr::Ret => pops(Destination::Nowhere, Next::ToResult),
            Instr::Out => copies(
                Operand::Register(Reg::Eax),
                Destination::Output,
                Next::Following,
            ),
            Instr::LockDec(at) => decremented(location(at)),
            Instr::Set(on, to) => keeps(
                Operator::Tests(*on),
                Operand::Number(0),
                Operand::Number(0),
                *to,
            ),
        }
    }
}

// The flags of a difference.
fn compared(left: Operand, right: Operand) -> Effect
    ensures { result ≡ computes (Operates Sub) left right OfDifference Nowhere }
{
    computes(
        Operator::Operates(Operation::Sub),
        left,
        right,
        FlagRule::OfDifference,
        Destination::Nowhere,
    )
}

// The flags of the common bits.
fn tested(left: Operand, right: Operand) -> Effect
    ensures { result ≡ computes (Operates And) left right OfLogic Nowhere }
{
    computes(
        Operator::Operates(Operation::And),
        left,
        right,
        FlagRule::OfLogic,
        Destination::Nowhere,
    )
}

// A locked decrement.
fn decremented(at: Location) -> Effect
    ensures { result ≡ computes (Operates Sub) (Memory at) (Number 1) OfDecrement (Locked at) }
{
    computes(
        Operator::Operates(Operation::Sub),
        Operand::Memory(at),
        Operand::Number(1),
        FlagRule::OfDecrement,
        Destination::Locked(at),
    )
}
