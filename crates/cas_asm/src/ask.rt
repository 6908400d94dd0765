//! What the next instruction asks, and its execution.

ghost use Rattle.std.specs.Prelude.{◌≡◌, ◌<◌, ◌-◌, ◌^◌, length, slice_get, slice_index, slice_index_or, false, Some, None, IsTrue};
ghost use Rattle.cas_asm.specs.Ask.{spot_of, is_constant, ask_quiet, ask_stored, ask_read, ask_locked, ask_spot, ask_effect, ask_of, word_read, stepped, is_taken};
ghost use Rattle.cas_asm.specs.After.{read_at};

use crate::cpu::{Cpu, NO_RETURN};
use crate::effect::Effect;
use crate::image::{Image, WORD_BASE};

/// Why a step has no defined result.
#[derive(Clone, Copy, Debug, PartialEq, Eq)]
pub enum BadWhy {
    /// The divisor is 0, or the quotient doesn't fit in 32 bits.
    Divide,
    /// An accessed address isn't a multiple of 4, or is neither a shared word nor of the own stack, or a locked
    /// decrement is on a stack word.
    Address,
    /// A store or a locked decrement is to a constant word.
    ConstWrite,
    /// The thread is at no place of the code.
    CodePlace,
}

/// What the next instruction does beyond the processor. `at` is a shared word's number.
#[derive(Clone, Copy, Debug, PartialEq, Eq)]
pub enum Ask {
    /// Nothing.
    Plain,
    /// It loads a shared word.
    Load {
        /// The word.
        at: u32,
    },
    /// It stores to a shared word.
    Store {
        /// The word.
        at: u32,
        /// What it stores.
        value: u32,
    },
    /// It takes 1 from a shared word in one step.
    LockedDec {
        /// The word.
        at: u32,
    },
    /// It puts a word out.
    Out {
        /// The word.
        value: u32,
    },
    /// It returns to the outermost return place.
    Finish,
    /// It would set esp below the stack's first address.
    Stack,
    /// It has no defined result.
    Bad(BadWhy),
}

/// What is at an address.
#[derive(Clone, Copy, Debug, PartialEq, Eq)]
pub enum Spot {
    /// The word with this number of the own stack, from the first.
    Own(u32),
    /// The shared word with this number.
    Shared(u32),
    /// No word.
    Nowhere,
}

fn spot_of(image: &Image, cpu: &Cpu, at: u32) -> Spot
    ensures { result ≡ spot_of image.now cpu.now at }
{
    let size = cpu.stack.len();
    let words = image.words.as_slice().len();
    let base = WORD_BASE as usize;
    let at = at as usize;
    let bottom = cpu.bottom as usize;
    if at % 4 != 0 {
        Spot::Nowhere
    } else if bottom <= at && at < bottom + 4 * size {
        Spot::Own(((at - bottom) / 4) as u32)
    } else if base <= at && at < base + 4 * words {
        Spot::Shared(((at - base) / 4) as u32)
    } else {
        Spot::Nowhere
    }
}

fn is_constant(image: &Image, word: u32) -> bool
    ensures { result ≡ is_constant image.now word }
{
    match image.constant.as_slice().get(word as usize) {
        Some(constant) => *constant,
        None => false,
    }
}

fn stack_word(cpu: &Cpu, word: u32) -> u32
    ensures { result ≡ slice_index cpu.now.stack word }
{
    match cpu.stack.get(word as usize) {
        Some(value) => *value,
        None => 0,
    }
}

fn ask_quiet(cpu: &Cpu, effect: &Effect, read: u32) -> Ask
    ensures { result ≡ ask_quiet effect.now cpu.now.core read }
{
    if effect.is_output() {
        Ask::Out {
            value: cpu.core.regs.eax,
        }
    } else if effect.is_return() && read == NO_RETURN {
        Ask::Finish
    } else {
        Ask::Plain
    }
}

fn ask_stored(image: &Image, spot: Spot, value: u32) -> Ask
    ensures { result ≡ ask_stored image.now spot value }
{
    match spot {
        Spot::Own(_) => Ask::Plain,
        Spot::Shared(at) => {
            if is_constant(image, at) {
                Ask::Bad(BadWhy::ConstWrite)
            } else {
                Ask::Store { at, value }
            }
        }
        Spot::Nowhere => Ask::Bad(BadWhy::Address),
    }
}

// Once the word that it reads is known.
fn ask_read(image: &Image, cpu: &Cpu, effect: &Effect, read: u32) -> Ask
    requires { cpu.now.core.place < 2 ^ 32 - 1 }
    ensures { result ≡ ask_read image.now cpu.now effect.now read }
{
    if effect.faults(cpu.core) {
        return Ask::Bad(BadWhy::Divide);
    }
    if effect.after(cpu.core, read).regs.esp < cpu.bottom {
        return Ask::Stack;
    }
    match effect.write_of(cpu.core, read) {
        Some(write) => ask_stored(image, spot_of(image, cpu, write.at), write.value),
        None => ask_quiet(cpu, effect, read),
    }
}

fn ask_locked(image: &Image, spot: Spot) -> Ask
    ensures { result ≡ ask_locked image.now spot }
{
    match spot {
        Spot::Shared(at) => {
            if is_constant(image, at) {
                Ask::Bad(BadWhy::ConstWrite)
            } else {
                Ask::LockedDec { at }
            }
        }
        Spot::Own(_) | Spot::Nowhere => Ask::Bad(BadWhy::Address),
    }
}

fn ask_spot(image: &Image, cpu: &Cpu, effect: &Effect, loaded: Option<u32>, spot: Spot) -> Ask
    requires { cpu.now.core.place < 2 ^ 32 - 1 }
    ensures { result ≡ ask_spot image.now cpu.now effect.now loaded spot }
{
    match spot {
        Spot::Own(word) => ask_read(image, cpu, effect, stack_word(cpu, word)),
        Spot::Shared(at) => match loaded {
            Some(read) => ask_read(image, cpu, effect, read),
            None => Ask::Load { at },
        },
        Spot::Nowhere => Ask::Bad(BadWhy::Address),
    }
}

fn ask_effect(image: &Image, cpu: &Cpu, effect: &Effect, loaded: Option<u32>) -> Ask
    requires { cpu.now.core.place < 2 ^ 32 - 1 }
    ensures { result ≡ ask_effect image.now cpu.now loaded effect.now }
{
    match effect.read_at(cpu.core.regs) {
        None => ask_read(image, cpu, effect, 0),
        Some(at) => {
            if effect.is_locked() {
                ask_locked(image, spot_of(image, cpu, at))
            } else {
                ask_spot(image, cpu, effect, loaded, spot_of(image, cpu, at))
            }
        }
    }
}

/// What the next instruction does. Where it loads a shared word and `loaded` is None the answer is `Load`; with the
/// word given it is what follows. (IA-32's rows, as the table of effects has them.)
pub fn cpu_ask(image: &Image, cpu: &Cpu, loaded: Option<u32>) -> Ask
    ensures { result ≡ ask_of image.now cpu.now loaded }
{
    match image.code.as_slice().get(cpu.core.place as usize) {
        Some(instr) => ask_effect(image, cpu, &instr.effect(), loaded),
        None => Ask::Bad(BadWhy::CodePlace),
    }
}

fn word_read(image: &Image, cpu: &Cpu, at: Option<u32>, loaded: u32) -> u32
    ensures { result ≡ word_read image.now cpu.now at loaded }
{
    match at {
        None => 0,
        Some(at) => match spot_of(image, cpu, at) {
            Spot::Own(word) => stack_word(cpu, word),
            Spot::Shared(_) => loaded,
            Spot::Nowhere => 0,
        },
    }
}

/// Executes the next instruction, with the shared word that it loads, or the word before a locked decrement.
pub fn cpu_step(image: &Image, cpu: &mut Cpu, loaded: u32)
    requires { IsTrue (is_taken (ask_of image.now cpu.old (Some loaded))) }
    ensures { cpu.new ≡ stepped image.now cpu.old loaded }
{
    let Some(instr) = image.code.as_slice().get(cpu.core.place as usize) else {
        return;
    };
    let effect = instr.effect();
    let read = word_read(image, cpu, effect.read_at(cpu.core.regs), loaded);
    if let Some(write) = effect.write_of(cpu.core, read) {
        if let Spot::Own(word) = spot_of(image, cpu, write.at) {
            let stack = &mut cpu.stack;
            stack[word as usize] = write.value;
        }
    }
    cpu.core = effect.after(cpu.core, read);
}
