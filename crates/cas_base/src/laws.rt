//! Laws of the definitions, as functions without effect: each clause holds at all arguments.

ghost use Rattle.std.specs.Prelude.{◌≡◌, ◌+◌, ◌*◌, ◌%◌, ◌^◌, ◌<◌, pos, ◌+ℤ◌, ◌-ℤ◌, ◌*ℤ◌, ◌≤ℤ◌, ◌<ℤ◌};
ghost use Rattle.std.specs.Prelude.{◌↔◌, ℕ, IsTrue, IfSome, IsNone, FitsSigned, int_div, int_rem};
ghost use Rattle.std.specs.Int.{int_shr, w32};
ghost use Rattle.cas_base.specs.Kind.{is_of_kind, size_of};
ghost use Rattle.cas_base.specs.Names.{IsRow};
ghost use Rattle.cas_base.specs.Word.{signed, word_of, wrapped, narrowed};
ghost use Rattle.cas_base.specs.Word.{word_add, word_sub, word_mul, word_shl, word_shr, word_sar};
ghost use Rattle.cas_base.specs.Word.{word_div_signed, word_rem_signed, word_div_unsigned, word_rem_unsigned};
ghost use Rattle.cas_base.specs.Word.{IsTruncatedDivision};

use crate::kind::Kind;
use crate::names::Names;

/// A word is the word of its signed reading.
pub fn word_of_signed(a: u32)
    ensures { word_of (signed a) ≡ a }
{}

/// A signed number is the signed reading of its word.
pub fn signed_word_of(number: i32)
    ensures { signed (word_of number) ≡ number }
{}

/// The signed reading of a sum is the sum of the signed readings, wrapped; so it is that sum if it fits.
#[tactic(auto, using(crate::proofs::WordLaws::wraps))]
pub fn signed_sum(a: u32, b: u32)
    ensures wraps { signed (word_add a b) ≡ wrapped (signed a +ℤ signed b) }
    ensures fits { FitsSigned w32 (signed a +ℤ signed b) → signed (word_add a b) ≡ signed a +ℤ signed b }
{}

/// The signed reading of a difference is the difference of the signed readings, wrapped.
#[tactic(auto, using(crate::proofs::WordLaws::wraps))]
pub fn signed_difference(a: u32, b: u32)
    ensures wraps { signed (word_sub a b) ≡ wrapped (signed a -ℤ signed b) }
    ensures fits { FitsSigned w32 (signed a -ℤ signed b) → signed (word_sub a b) ≡ signed a -ℤ signed b }
{}

/// The signed reading of a product is the product of the signed readings, wrapped.
#[tactic(auto, using(crate::proofs::WordLaws::wraps))]
pub fn signed_product(a: u32, b: u32)
    ensures wraps { signed (word_mul a b) ≡ wrapped (signed a *ℤ signed b) }
    ensures fits { FitsSigned w32 (signed a *ℤ signed b) → signed (word_mul a b) ≡ signed a *ℤ signed b }
{}

/// What signed division gives is read as the quotient, rounded toward zero, and the remainder of the readings.
#[tactic(auto, using(crate::proofs::WordLaws::readings))]
pub fn signed_division(a: u32, b: u32, quotient: u32, remainder: u32)
    ensures quotient { word_div_signed a b ≡ Some quotient → signed quotient ≡ int_div (signed a) (signed b) }
    ensures remainder { word_rem_signed a b ≡ Some remainder → signed remainder ≡ int_rem (signed a) (signed b) }
{}

/// Signed division truncates toward zero: the quotient times the divisor plus the remainder is the dividend,
/// the remainder's size is below the divisor's, and it has the dividend's sign.
pub fn signed_division_truncates(a: u32, b: u32, quotient: u32, remainder: u32)
    ensures { word_div_signed a b ≡ Some quotient → word_rem_signed a b ≡ Some remainder →
        IsTruncatedDivision (signed a) (signed b) (signed quotient) (signed remainder) }
{}

/// Unsigned division: the quotient times the divisor plus the remainder is the dividend, and the remainder is
/// below the divisor.
pub fn unsigned_division_rounds_down(a: u32, b: u32, quotient: u32, remainder: u32)
    ensures sum { word_div_unsigned a b ≡ Some quotient → word_rem_unsigned a b ≡ Some remainder →
        quotient * b + remainder ≡ a }
    ensures small { word_rem_unsigned a b ≡ Some remainder → remainder < b }
{}

/// The count of a shift is taken modulo 32.
pub fn shift_counts_are_modulo_32(a: u32, b: u32)
    ensures left { word_shl a (b % 32) ≡ word_shl a b }
    ensures right { word_shr a (b % 32) ≡ word_shr a b }
    ensures right_signed { word_sar a (b % 32) ≡ word_sar a b }
{}

/// A signed shift to the right divides the signed reading by a power of two and rounds down.
pub fn signed_shift_rounds_down(a: u32, b: u32)
    ensures value { signed (word_sar a b) ≡ int_shr (signed a) (b % 32) }
    ensures below { (signed (word_sar a b) *ℤ pos (2 ^ (b % 32))) ≤ℤ signed a }
    ensures above { signed a <ℤ (signed (word_sar a b) *ℤ pos (2 ^ (b % 32)) +ℤ pos (2 ^ (b % 32))) }
{}

/// What the operators give are words.
pub fn operators_give_words(a: u32, b: u32, kind: Kind)
    ensures sum { word_add a b < 2 ^ 32 }
    ensures difference { word_sub a b < 2 ^ 32 }
    ensures product { word_mul a b < 2 ^ 32 }
    ensures left { word_shl a b < 2 ^ 32 }
    ensures right { word_shr a b < 2 ^ 32 }
    ensures right_signed { word_sar a b < 2 ^ 32 }
    ensures quotient_signed { IfSome (word_div_signed a b) (λ quotient. quotient < 2 ^ 32) }
    ensures remainder_signed { IfSome (word_rem_signed a b) (λ remainder. remainder < 2 ^ 32) }
    ensures quotient_unsigned { IfSome (word_div_unsigned a b) (λ quotient. quotient < 2 ^ 32) }
    ensures remainder_unsigned { IfSome (word_rem_unsigned a b) (λ remainder. remainder < 2 ^ 32) }
    ensures of_kind { narrowed a kind < 2 ^ 32 }
{}

/// Narrowing gives a value of the kind.
pub fn narrow_gives_values(a: u32, kind: Kind)
    ensures { IsTrue (is_of_kind (narrowed a kind) kind) }
{}

/// Narrowing keeps the values of the kind.
pub fn narrow_keeps_values(a: u32, kind: Kind)
    ensures { IsTrue (is_of_kind a kind) → narrowed a kind ≡ a }
{}

/// Narrowing twice is narrowing once.
pub fn narrow_is_idempotent(a: u32, kind: Kind)
    ensures { narrowed (narrowed a kind) kind ≡ narrowed a kind }
{}

/// What narrowing gives equals the word modulo the kind's size, and no other value of the kind does.
pub fn narrow_is_congruent(a: u32, value: u32, kind: Kind)
    ensures equal { narrowed a kind % size_of kind ≡ a % size_of kind }
    ensures only { IsTrue (is_of_kind value kind) → value % size_of kind ≡ a % size_of kind →
        value ≡ narrowed a kind }
{}

/// The row that is spelt at a number is found at that number.
pub fn spelt_row_is_found<const N: usize>(names: &Names<'_, N>, k: usize) -> Option<usize>
    requires { k < N }
    ensures { result ≡ Some k }
{
    names.find(names.spell(k))
}

/// The row at the number that is found for a text spells the text.
pub fn found_row_spells<'a, const N: usize>(names: &Names<'a, N>, text: &str) -> Option<&'a str>
    ensures spelt { IfSome result (λ row. row.now ≡ text.now) }
    ensures none { IsNone result ↔ ((k : ℕ) → ¬ (IsRow names.now k text.now)) }
{
    let k = names.find(text)?;
    Some(names.spell(k))
}
