//! Division of edx:eax by a word.

ghost use Rattle.std.specs.Prelude.{◌≡◌, IsTrue, IfSome, FitsSigned, true, ◌&&◌};
ghost use mir.Syntax.{w32};
ghost use Rattle.cas_base.specs.Word.{signed, word_of};
ghost use Rattle.cas_asm.specs.Flags.{fits_signed};
ghost use Rattle.cas_asm.specs.Division.{wide, wide_signed, signed_parts, divided_signed, divided_unsigned};

/// A quotient and a remainder.
#[derive(Clone, Copy)]
pub struct Division {
    /// The quotient.
    pub quotient: u32,
    /// The remainder.
    pub remainder: u32,
}

// The number whose words are these.
fn wide(high: u32, low: u32) -> u64
    ensures { result ≡ wide high low }
{
    u64::from(high) * 0x1_0000_0000 + u64::from(low)
}

/// `high` and `low` as one number, by a divisor. None where it is 0 or the quotient has more than 32 bits.
pub fn divide_unsigned(high: u32, low: u32, divisor: u32) -> Option<Division>
    ensures { result ≡ divided_unsigned high low divisor }
{
    if divisor == 0 {
        return None;
    }
    let dividend = wide(high, low);
    let by = u64::from(divisor);
    if dividend / by < 0x1_0000_0000 {
        Some(Division {
            quotient: (dividend / by) as u32,
            remainder: (dividend % by) as u32,
        })
    } else {
        None
    }
}

// The signed reading of two words.
fn wide_signed(high: u32, low: u32) -> i64
    ensures { result ≡ wide_signed high low }
{
    wide(high, low).cast_signed()
}

// The signed reading of a word.
fn signed(word: u32) -> i64
    ensures reading { result ≡ signed word }
    ensures small { FitsSigned w32 result }
{
    i64::from(word.cast_signed())
}

// The word whose signed reading a number is.
fn word_of(number: i64) -> u32
    requires { IsTrue (fits_signed number) }
    ensures { result ≡ word_of number }
{
    (number as i32).cast_unsigned()
}

// The quotient and the remainder, where the quotient fits a word.
fn parts(dividend: i64, divisor: i64) -> Option<(i64, i64)>
    requires { FitsSigned w32 divisor }
    ensures value { result ≡ signed_parts dividend divisor }
    ensures small { IfSome result (λ r. fits_signed r.0 && fits_signed r.1 ≡ true) }
{
    let quotient = dividend.checked_div(divisor)?;
    if quotient < -0x8000_0000 || quotient > 0x7fff_ffff {
        return None;
    }
    Some((quotient, dividend % divisor))
}

/// The same of signed readings; the quotient is rounded toward zero, and has the 31 bits and the sign of a word.
pub fn divide_signed(high: u32, low: u32, divisor: u32) -> Option<Division>
    ensures { result ≡ divided_signed high low divisor }
{
    let (quotient, remainder) = parts(wide_signed(high, low), signed(divisor))?;
    Some(Division {
        quotient: word_of(quotient),
        remainder: word_of(remainder),
    })
}
