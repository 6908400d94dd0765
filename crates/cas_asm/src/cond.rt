//! The sixteen conditions.

ghost use Rattle.std.specs.Prelude.{◌≡◌};
ghost use Rattle.cas_asm.specs.Flags.{holds};

use crate::flags::Flags;

/// A condition on the flags, by the mnemonics of IA-32.
#[derive(Clone, Copy, Debug, PartialEq, Eq)]
pub enum Cond {
    /// `o`: overflow.
    O,
    /// `no`: no overflow.
    No,
    /// `b`: below, unsigned.
    B,
    /// `ae`: above or equal, unsigned.
    Ae,
    /// `e`: equal.
    E,
    /// `ne`: not equal.
    Ne,
    /// `be`: below or equal, unsigned.
    Be,
    /// `a`: above, unsigned.
    A,
    /// `s`: the sign is set.
    S,
    /// `ns`: the sign is clear.
    Ns,
    /// `p`: parity is even.
    P,
    /// `np`: parity is odd.
    Np,
    /// `l`: less, signed.
    L,
    /// `ge`: greater or equal, signed.
    Ge,
    /// `le`: less or equal, signed.
    Le,
    /// `g`: greater, signed.
    G,
}

impl Cond {
    /// Whether the condition holds of these flags.
    pub fn holds(self, flags: Flags) -> bool
        ensures { result ≡ holds self flags }
    {
        match self {
            Cond::O => flags.overflow,
            Cond::No => !flags.overflow,
            Cond::B => flags.carry,
            Cond::Ae => !flags.carry,
            Cond::E => flags.zero,
            Cond::Ne => !flags.zero,
            Cond::Be => flags.carry || flags.zero,
            Cond::A => !(flags.carry || flags.zero),
            Cond::S => flags.sign,
            Cond::Ns => !flags.sign,
            Cond::P => flags.parity,
            Cond::Np => !flags.parity,
            Cond::L => flags.sign != flags.overflow,
            Cond::Ge => flags.sign == flags.overflow,
            Cond::Le => flags.zero || flags.sign != flags.overflow,
            Cond::G => !(flags.zero || flags.sign != flags.overflow),
        }
    }
}
