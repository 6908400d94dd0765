//! Registers.

/// A general register of IA-32, in the order of the manual.
#[derive(Clone, Copy, Debug, PartialEq, Eq)]
pub enum Reg {
    /// The accumulator; what a function returns.
    Eax,
    /// The counter; the amount of a shift.
    Ecx,
    /// The data register; the upper half of a dividend.
    Edx,
    /// The base register.
    Ebx,
    /// The stack pointer.
    Esp,
    /// The frame pointer.
    Ebp,
    /// The source index.
    Esi,
    /// The destination index.
    Edi,
}
