//! Mnemonics.

/// A mnemonic.
#[derive(Clone, Copy, Debug, PartialEq, Eq)]
pub enum Mnemonic {
    /// `mov`
    Mov,
    /// `movsx8`
    Movsx8,
    /// `movsx16`
    Movsx16,
    /// `movzx8`
    Movzx8,
    /// `movzx16`
    Movzx16,
    /// `lea`
    Lea,
    /// `add`
    Add,
    /// `sub`
    Sub,
    /// `cmp`
    Cmp,
    /// `and`
    And,
    /// `or`
    Or,
    /// `xor`
    Xor,
    /// `test`
    Test,
    /// `neg`
    Neg,
    /// `not`
    Not,
    /// `imul`
    Imul,
    /// `shl`
    Shl,
    /// `shr`
    Shr,
    /// `sar`
    Sar,
    /// `cdq`
    Cdq,
    /// `idiv`
    Idiv,
    /// `div`
    Div,
    /// `push`
    Push,
    /// `pop`
    Pop,
    /// `jmp`
    Jmp,
    /// `call`
    Call,
    /// `ret`
    Ret,
    /// `out`
    Out,
    /// `lockdec`
    Lockdec,
    /// `set`
    Set,
    /// `jo`
    Jo,
    /// `jno`
    Jno,
    /// `jb`
    Jb,
    /// `jae`
    Jae,
    /// `je`
    Je,
    /// `jne`
    Jne,
    /// `jbe`
    Jbe,
    /// `ja`
    Ja,
    /// `js`
    Js,
    /// `jns`
    Jns,
    /// `jp`
    Jp,
    /// `jnp`
    Jnp,
    /// `jl`
    Jl,
    /// `jge`
    Jge,
    /// `jle`
    Jle,
    /// `jg`
    Jg,
}
