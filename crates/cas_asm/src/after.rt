//! What a row of the table reads, computes and writes.

ghost use Rattle.std.specs.Prelude.{◌≡◌, ◌<◌, ◌-◌, ◌^◌};
ghost use Rattle.cas_asm.specs.After.{base_word, index_word, address, operand_at, operand_word, extended, operated, shifted, result_of, flags_after, left_word, right_word, row_result, popped, delivered, place_after, row_after, store_to, division_of, divided, read_at, faults, after, write_of, is_locked, is_output, is_return};

use crate::division::{Division, divide_signed, divide_unsigned};
use crate::effect::{Computed, Destination, Effect, FlagRule, Location, Next, Operand, Operator};
use crate::flags::{self, Flags};
use crate::instr::{Extension, Operation, ShiftKind};
use crate::regs::{Core, Regs, Write};
use cas_base::{Kind, Reg, add, mul, narrow, sar, shl, shr, sub};

fn base_word(regs: Regs, base: Option<Reg>) -> u32
    ensures { result ≡ base_word regs base }
{
    match base {
        Some(reg) => regs.get(reg),
        None => 0,
    }
}

fn index_word(regs: Regs, index: Option<(Reg, bool)>) -> u32
    ensures { result ≡ index_word regs index }
{
    match index {
        Some((reg, true)) => mul(4, regs.get(reg)),
        Some((reg, false)) => regs.get(reg),
        None => 0,
    }
}

fn address(regs: Regs, of: Location) -> u32
    ensures { result ≡ address regs of }
{
    add(
        add(of.word, base_word(regs, of.base)),
        index_word(regs, of.index),
    )
}

fn operand_at(regs: Regs, of: Operand) -> Option<u32>
    ensures { result ≡ operand_at regs of }
{
    match of {
        Operand::Memory(location) => Some(address(regs, location)),
        Operand::Top => Some(regs.esp),
        _ => None,
    }
}

fn operand_word(core: Core, of: Operand, read: u32) -> u32
    requires { core.place < 2 ^ 32 - 1 }
    ensures { result ≡ operand_word core of read }
{
    match of {
        Operand::Number(number) => number,
        Operand::Register(reg) => core.regs.get(reg),
        Operand::Address(location) => address(core.regs, location),
        Operand::Memory(_) | Operand::Top => read,
        Operand::NextPlace => core.place + 1,
    }
}

fn extended(how: Extension, a: u32) -> u32
    ensures { result ≡ extended how a }
{
    match how {
        Extension::Sign8 => narrow(a, Kind::I8),
        Extension::Sign16 => narrow(a, Kind::I16),
        Extension::Zero8 => narrow(a, Kind::U8),
        Extension::Zero16 => narrow(a, Kind::U16),
    }
}

fn operated(what: Operation, a: u32, b: u32) -> u32
    ensures { result ≡ operated what a b }
{
    match what {
        Operation::Add => add(a, b),
        Operation::Sub => sub(a, b),
        Operation::And => a & b,
        Operation::Or => a | b,
        Operation::Xor => a ^ b,
        Operation::Imul => mul(a, b),
    }
}

fn shifted(how: ShiftKind, a: u32, b: u32) -> u32
    ensures { result ≡ shifted how a b }
{
    match how {
        ShiftKind::Shl => shl(a, b),
        ShiftKind::Shr => shr(a, b),
        ShiftKind::Sar => sar(a, b),
    }
}

fn result_of(operator: Operator, flags: Flags, a: u32, b: u32) -> u32
    ensures { result ≡ result_of operator flags a b }
{
    match operator {
        Operator::Copies => b,
        Operator::Extends(how) => extended(how, b),
        Operator::Complements => !b,
        Operator::Operates(what) => operated(what, a, b),
        Operator::Shifts(how) => shifted(how, a, b),
        Operator::Tests(on) => { if on.holds(flags) { 1 } else { 0 } }
    }
}

fn flags_after(rule: FlagRule, flags: Flags, a: u32, b: u32, value: u32) -> Flags
    ensures { result ≡ flags_after rule flags a b value }
{
    match rule {
        FlagRule::Kept => flags,
        FlagRule::Cleared => Flags::CLEARED,
        FlagRule::OfSum => flags::of_sum(a, b),
        FlagRule::OfDifference => flags::of_difference(a, b),
        FlagRule::OfLogic => flags::of_logic(value),
        FlagRule::OfDecrement => flags::of_decrement(flags.carry, value),
    }
}

fn popped(pops: bool, regs: Regs) -> Regs
    ensures { result ≡ popped pops regs }
{
    if pops {
        Regs {
            esp: add(regs.esp, 4),
            ..regs
        }
    } else {
        regs
    }
}

fn delivered(to: Destination, regs: Regs, value: u32) -> Regs
    ensures { result ≡ delivered to regs value }
{
    match to {
        Destination::Register(reg) => regs.with(reg, value),
        Destination::Pushed => Regs {
            esp: sub(regs.esp, 4),
            ..regs
        },
        _ => regs,
    }
}

fn place_after(next: Next, core: Core, value: u32) -> u32
    requires { core.place < 2 ^ 32 - 1 }
    ensures { result ≡ place_after next core value }
{
    match next {
        Next::Following => core.place + 1,
        Next::To(place) => place,
        Next::ToIf(on, place) => {
            if on.holds(core.flags) {
                place
            } else {
                core.place + 1
            }
        }
        Next::ToResult => value,
    }
}

fn store_to(to: Destination, regs: Regs, value: u32) -> Option<Write>
    ensures { result ≡ store_to to regs value }
{
    match to {
        Destination::Memory(location) | Destination::Locked(location) => Some(Write {
            at: address(regs, location),
            value,
        }),
        Destination::Pushed => Some(Write {
            at: sub(regs.esp, 4),
            value,
        }),
        _ => None,
    }
}

impl Computed {
    fn value(self, core: Core, read: u32) -> u32
        requires { core.place < 2 ^ 32 - 1 }
        ensures { result ≡ row_result self core read }
    {
        let left = operand_word(core, self.left, read);
        let right = operand_word(core, self.right, read);
        result_of(self.operator, core.flags, left, right)
    }

    fn after(self, core: Core, read: u32) -> Core
        requires { core.place < 2 ^ 32 - 1 }
        ensures { result ≡ row_after self core read }
    {
        let left = operand_word(core, self.left, read);
        let right = operand_word(core, self.right, read);
        let value = result_of(self.operator, core.flags, left, right);
        Core {
            regs: delivered(self.to, popped(self.pops, core.regs), value),
            flags: flags_after(self.flags, core.flags, left, right, value),
            place: place_after(self.next, core, value),
        }
    }
}

fn division_of(signed: bool, regs: Regs, by: Reg) -> Option<Division>
    ensures { result ≡ division_of signed regs by }
{
    if signed {
        divide_signed(regs.edx, regs.eax, regs.get(by))
    } else {
        divide_unsigned(regs.edx, regs.eax, regs.get(by))
    }
}

fn divided(of: Option<Division>, core: Core) -> Core
    requires { core.place < 2 ^ 32 - 1 }
    ensures { result ≡ divided of core }
{
    match of {
        None => core,
        Some(division) => Core {
            regs: Regs {
                eax: division.quotient,
                edx: division.remainder,
                ..core.regs
            },
            flags: Flags::CLEARED,
            place: core.place + 1,
        },
    }
}

impl Effect {
    /// The address that it reads, if there is one.
    pub fn read_at(&self, regs: Regs) -> Option<u32>
        ensures { result ≡ read_at self.now regs }
    {
        match self {
            Effect::Computes(row) => operand_at(regs, row.left).or(operand_at(regs, row.right)),
            Effect::Divides(..) => None,
        }
    }

    /// Whether it is a division without a result.
    pub fn faults(&self, core: Core) -> bool
        ensures { result ≡ faults self.now core }
    {
        match self {
            Effect::Computes(_) => false,
            Effect::Divides(signed, by) => division_of(*signed, core.regs, *by).is_none(),
        }
    }

    /// The core after it, given the word that it read.
    pub fn after(&self, core: Core, read: u32) -> Core
        requires { core.place < 2 ^ 32 - 1 }
        ensures { result ≡ after self.now core read }
    {
        match self {
            Effect::Computes(row) => row.after(core, read),
            Effect::Divides(signed, by) => divided(division_of(*signed, core.regs, *by), core),
        }
    }

    /// The store that it makes, if there is one.
    pub fn write_of(&self, core: Core, read: u32) -> Option<Write>
        requires { core.place < 2 ^ 32 - 1 }
        ensures { result ≡ write_of self.now core read }
    {
        match self {
            Effect::Computes(row) => store_to(row.to, core.regs, row.value(core, read)),
            Effect::Divides(..) => None,
        }
    }

    /// Whether its store is one step with its reading.
    pub fn is_locked(&self) -> bool
        ensures { result ≡ is_locked self.now }
    {
        matches!(
            self,
            Effect::Computes(Computed {
                to: Destination::Locked(_),
                ..
            })
        )
    }

    /// Whether it puts its result out.
    pub fn is_output(&self) -> bool
        ensures { result ≡ is_output self.now }
    {
        matches!(
            self,
            Effect::Computes(Computed {
                to: Destination::Output,
                ..
            })
        )
    }

    /// Whether it goes to the place that it read.
    pub fn is_return(&self) -> bool
        ensures { result ≡ is_return self.now }
    {
        matches!(
            self,
            Effect::Computes(Computed {
                next: Next::ToResult,
                ..
            })
        )
    }
}
