//! The word operators. A word is a number from 0 to 4294967295, which also has a signed reading.
//! (CompCert's integers, but the count of a shift is taken modulo 32.)

ghost use Rattle.std.specs.Prelude.{◌≡◌, ◌%◌, ◌^◌};
ghost use Rattle.cas_base.specs.Word.{word_add, word_sub, word_mul, word_shl, word_shr, word_sar, narrowed};
ghost use Rattle.cas_base.specs.Word.{word_div_signed, word_rem_signed, word_div_unsigned, word_rem_unsigned};

use crate::kind::Kind;

/// The sum of two words, modulo 2^32.
pub fn add(a: u32, b: u32) -> u32
    ensures { result ≡ word_add a b }
{
    a.wrapping_add(b)
}

/// The difference of two words, modulo 2^32.
pub fn sub(a: u32, b: u32) -> u32
    ensures { result ≡ word_sub a b }
{
    a.wrapping_sub(b)
}

/// The product of two words, modulo 2^32.
pub fn mul(a: u32, b: u32) -> u32
    ensures { result ≡ word_mul a b }
{
    a.wrapping_mul(b)
}

/// `a` to the left by `b` modulo 32.
pub fn shl(a: u32, b: u32) -> u32
    ensures { result ≡ word_shl a b }
{
    a.wrapping_shl(b)
}

/// `a` to the right by `b` modulo 32, with zeros shifted in.
pub fn shr(a: u32, b: u32) -> u32
    ensures { result ≡ word_shr a b }
{
    a.wrapping_shr(b)
}

/// `a` to the right by `b` modulo 32, with the sign shifted in.
pub fn sar(a: u32, b: u32) -> u32
    ensures { result ≡ word_sar a b }
{
    a.cast_signed().wrapping_shr(b).cast_unsigned()
}

/// The quotient of the signed readings, rounded toward zero. None exactly if the divisor is 0, and for
/// -2147483648 by -1.
pub fn div_signed(a: u32, b: u32) -> Option<u32>
    ensures { result ≡ word_div_signed a b }
{
    let quotient = a.cast_signed().checked_div(b.cast_signed())?;
    Some(quotient.cast_unsigned())
}

/// The remainder of the signed readings, with the dividend's sign. None exactly if the divisor is 0, and
/// for -2147483648 by -1.
pub fn rem_signed(a: u32, b: u32) -> Option<u32>
    ensures { result ≡ word_rem_signed a b }
{
    let remainder = a.cast_signed().checked_rem(b.cast_signed())?;
    Some(remainder.cast_unsigned())
}

/// The quotient, rounded down. None exactly if the divisor is 0.
pub fn div_unsigned(a: u32, b: u32) -> Option<u32>
    ensures { result ≡ word_div_unsigned a b }
{
    a.checked_div(b)
}

/// The remainder. None exactly if the divisor is 0.
pub fn rem_unsigned(a: u32, b: u32) -> Option<u32>
    ensures { result ≡ word_rem_unsigned a b }
{
    a.checked_rem(b)
}

/// The value of the kind that equals `a` modulo the kind's size, as a word. (C's conversion to an integer
/// type, as in CompCert's integers.)
pub fn narrow(a: u32, kind: Kind) -> u32
    ensures { result ≡ narrowed a kind }
{
    match kind {
        Kind::I8 => i32::from(low_byte(a).cast_signed()).cast_unsigned(),
        Kind::U8 => u32::from(low_byte(a)),
        Kind::I16 => i32::from(low_half(a).cast_signed()).cast_unsigned(),
        Kind::U16 => u32::from(low_half(a)),
        Kind::I32 | Kind::U32 => a,
    }
}

// The low 8 bits.
fn low_byte(a: u32) -> u8
    ensures { result ≡ a % 2 ^ 8 }
{
    (a % 0x100) as u8
}

// The low 16 bits.
fn low_half(a: u32) -> u16
    ensures { result ≡ a % 2 ^ 16 }
{
    (a % 0x1_0000) as u16
}
