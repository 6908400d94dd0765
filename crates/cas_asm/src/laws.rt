//! Laws of the definitions, as functions without effect: each clause holds at all arguments.

ghost use Rattle.std.specs.Prelude.{◌≡◌, ◌+◌, ◌*◌, ◌/◌, ◌^◌, ◌<◌, ◌≤◌, ◌↔◌, ◌⊎◌, IfSome, IsNone, true, false, int_div};
ghost use Rattle.cas_base.specs.Word.{signed, IsTruncatedDivision};
ghost use Rattle.cas_asm.specs.Flags.{sub_flags, holds, compares, cleared, fits_signed};
ghost use Rattle.cas_asm.specs.Division.{wide, wide_signed, divided_signed, divided_unsigned};
ghost use Rattle.cas_asm.specs.Links.{Links, in_image};
ghost use Rattle.cas_asm.specs.Effect.{effect_of};
ghost use Rattle.cas_asm.specs.After.{after, faults};
ghost use Rattle.cas_asm.specs.Flagged.{keeps_flags, clears_flags};
ghost use Rattle.cas_asm.specs.Resolve.{resolved, StandsFirst};
ghost use Rattle.cas_asm.specs.Words.{WordsStay};

use crate::cond::Cond;
use crate::instr::Instr;
use crate::regs::Core;

/// After `cmp a, b` each of the sixteen conditions is a comparison of `a` and `b`, signed or unsigned, or a test of
/// their difference.
#[tactic(auto, using(crate::proofs::Comparing::conditions_compare))]
pub fn conditions_compare(on: Cond, a: u32, b: u32)
    ensures { holds on (sub_flags a b) ≡ compares on a b }
{}

/// An instruction leaves words in the registers, if its numbers and the word that it reads are words.
pub fn registers_stay_words<S>(instr: &Instr<S>)
    ghost links: { Links S }
    ensures { WordsStay links instr.now }
{}

/// Which instructions keep all flags, and which clear them.
pub fn flags_are_kept_or_cleared<S>(instr: &Instr<S>, core: Core, read: u32)
    ghost links: { Links S }
    ensures kept { keeps_flags instr.now ≡ true → (after (effect_of links instr.now) core read).flags ≡ core.flags }
    ensures cleared { clears_flags instr.now ≡ true → faults (effect_of links instr.now) core ≡ false →
        (after (effect_of links instr.now) core read).flags ≡ cleared }
{}

/// An instruction of an object and the one that it is resolved to have one effect, where the lock object is the
/// image's.
pub fn resolving_keeps_effects<S>(instr: &Instr<S>)
    ghost links: { Links S }
    ensures { StandsFirst links → effect_of in_image (resolved links instr.now) ≡ effect_of links instr.now }
{}

/// `div` has no result exactly where the divisor is 0 or the quotient has more than 32 bits. Else the quotient times
/// the divisor plus the remainder is the dividend, and the remainder is below the divisor.
pub fn unsigned_division_fits(high: u32, low: u32, divisor: u32)
    ensures none { IsNone (divided_unsigned high low divisor) ↔ ((divisor ≡ 0) ⊎ (2 ^ 32 ≤ wide high low / divisor)) }
    ensures some { IfSome (divided_unsigned high low divisor) (λ d.
        (d.quotient * divisor + d.remainder ≡ wide high low) × (d.remainder < divisor)) }
{}

/// `idiv` has no result exactly where the divisor is 0 or the quotient isn't from -2147483648 to 2147483647. Else its
/// division of the signed readings truncates toward zero.
pub fn signed_division_fits(high: u32, low: u32, divisor: u32)
    ensures none { IsNone (divided_signed high low divisor) ↔
        ((divisor ≡ 0) ⊎ (fits_signed (int_div (wide_signed high low) (signed divisor)) ≡ false)) }
    ensures some { IfSome (divided_signed high low divisor) (λ d.
        IsTruncatedDivision (wide_signed high low) (signed divisor) (signed d.quotient) (signed d.remainder)) }
{}
