//! Numbers and their ranges.

ghost use Rattle.std.specs.Prelude.{◌≡◌};
ghost use Rattle.cas_object_line.specs.Numbers as spec;

use crate::fault::LineFault;
use crate::operand::Numeral;
use cas_base::sub;
use cas_pieces::Word;

/// The word whose signed reading a number is: from -2147483648 to 2147483647.
#[tactic(auto, using(crate::proofs::Capped::signed_word_capped))]
pub fn word_of(numeral: &Numeral) -> Result<u32, LineFault>
    ensures { result ≡ spec.word_of numeral.now }
{
    match numeral.digits.number() {
        Some(value) => signed_word(numeral.negative, value),
        None => Err(LineFault::Form),
    }
}

fn signed_word(negative: bool, value: u64) -> Result<u32, LineFault>
    ensures { result ≡ spec.signed_word negative value }
{
    if negative && value <= 2147483648 {
        Ok(sub(0, value as u32))
    } else if !negative && value < 2147483648 {
        Ok(value as u32)
    } else {
        Err(LineFault::Range)
    }
}

/// The displacement that a number is, or 0 where there is none.
pub fn displacement_of(numeral: &Option<Numeral>) -> Result<i32, LineFault>
    ensures { result ≡ spec.displacement_of numeral.now }
{
    match numeral {
        None => Ok(0),
        Some(numeral) => match word_of(numeral) {
            Ok(word) => Ok(word.cast_signed()),
            Err(fault) => Err(fault),
        },
    }
}

/// The label with these digits: to 4294967295.
#[tactic(auto, using(crate::proofs::Capped::small_label_capped))]
pub fn label_of(digits: &Word) -> Result<u32, LineFault>
    ensures { result ≡ spec.label_of digits.now }
{
    match digits.number() {
        Some(value) => small_label(value),
        None => Err(LineFault::Form),
    }
}

fn small_label(value: u64) -> Result<u32, LineFault>
    ensures { result ≡ spec.small_label value }
{
    if value < 4294967296 {
        Ok(value as u32)
    } else {
        Err(LineFault::Range)
    }
}

/// By how much a shift shifts: to 31.
#[tactic(auto, using(crate::proofs::Capped::small_count_capped))]
pub fn count_of(numeral: &Numeral) -> Result<u32, LineFault>
    ensures { result ≡ spec.count_of numeral.now }
{
    match numeral.digits.number() {
        Some(value) => small_count(numeral.negative, value),
        None => Err(LineFault::Form),
    }
}

fn small_count(negative: bool, value: u64) -> Result<u32, LineFault>
    ensures { result ≡ spec.small_count negative value }
{
    if !negative && value < 32 {
        Ok(value as u32)
    } else {
        Err(LineFault::Range)
    }
}
