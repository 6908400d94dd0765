//! The five flags.

ghost use Rattle.std.specs.Prelude.{◌≡◌};
ghost use Rattle.cas_asm.specs.Flags.{result_flags, cleared, add_flags, sub_flags, logic_flags, decrement_flags, even_parity};

use cas_base::{add, sub};

/// The flags CF, ZF, SF, OF and PF.
#[derive(Clone, Copy, Debug, PartialEq, Eq)]
pub struct Flags {
    /// CF: a carry or a borrow.
    pub carry: bool,
    /// ZF: the result is 0.
    pub zero: bool,
    /// SF: the result is negative in its signed reading.
    pub sign: bool,
    /// OF: the signed result doesn't fit in 32 bits.
    pub overflow: bool,
    /// PF: the low eight bits of the result have an even number of ones.
    pub parity: bool,
}

impl Flags {
    /// All flags 0.
    pub const CLEARED: Flags = Flags {
        carry: false,
        zero: false,
        sign: false,
        overflow: false,
        parity: false,
    };
}

fn is_even_parity(a: u32) -> bool
    ensures { result ≡ even_parity a }
{
    (a % 256).count_ones() % 2 == 0
}

fn of_result(carry: bool, overflow: bool, value: u32) -> Flags
    ensures { result ≡ result_flags carry overflow value }
{
    Flags {
        carry,
        zero: value == 0,
        sign: value >= 0x8000_0000,
        overflow,
        parity: is_even_parity(value),
    }
}

/// The flags of the sum.
pub fn of_sum(a: u32, b: u32) -> Flags
    ensures { result ≡ add_flags a b }
{
    let overflow = a.cast_signed().checked_add(b.cast_signed()).is_none();
    of_result(a.checked_add(b).is_none(), overflow, add(a, b))
}

/// The flags of the difference.
pub fn of_difference(a: u32, b: u32) -> Flags
    ensures { result ≡ sub_flags a b }
{
    let overflow = a.cast_signed().checked_sub(b.cast_signed()).is_none();
    of_result(a < b, overflow, sub(a, b))
}

/// The flags of a result of logic.
pub fn of_logic(value: u32) -> Flags
    ensures { result ≡ logic_flags value }
{
    of_result(false, false, value)
}

/// The flags of a locked decrement with this result, which keeps the carry.
pub fn of_decrement(carry: bool, value: u32) -> Flags
    ensures { result ≡ decrement_flags carry value }
{
    of_result(carry, value == 0x7fff_ffff, value)
}

/// All flags 0.
pub fn none() -> Flags
    ensures { result ≡ cleared }
{
    Flags::CLEARED
}
