//! The codes of the faults that a module text may have.

/// Why a text is no module, as it is printed. Each code has a place in the text.
#[derive(Clone, Copy, Debug, PartialEq, Eq)]
pub enum ReadCode {
    /// The bytes aren't UTF-8, or a character that no module has is outside a comment; at the byte.
    R1,
    /// A `/*` has no `*/` after it; at the `/*`.
    R2,
    /// A literal is above 4294967295; at the literal.
    R3,
    /// A name is longer than 63 bytes; at the name.
    R4,
    /// No module text has this token after the tokens before it.
    R5,
    /// The text ends where no module text can end; at the end.
    R6,
    /// A form of C that is left out by name; at its token.
    R7,
    /// A statement is nested deeper than 200, or an expression has more than 1,000 tokens; at the first token
    /// that is too deep or too many.
    R8,
}
