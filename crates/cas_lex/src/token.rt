//! Tokens.

ghost use Rattle.std.specs.Prelude.{◌≡◌, length};
ghost use Rattle.cas_lex.specs.Spellings.{sign_spelling, word_spelling};

use cas_base::{Kind, Name, Place};

/// A token of a module text. (C's tokens, without strings and character constants.)
#[derive(Debug, Drop)]
pub struct Token {
    /// What it is.
    pub kind: TokenKind,
    /// Where its first byte is.
    pub place: Place,
}

/// What a token is.
#[derive(Debug, Drop)]
pub enum TokenKind {
    /// A name, which is no word.
    Name(Name),
    /// A literal: its value, and its kind, which is I32 or U32.
    Literal(u32, Kind),
    /// A word.
    Word(Word),
    /// A sign.
    Sign(Sign),
}

/// A word of the language, which is no name.
#[derive(Clone, Copy, Debug, PartialEq, Eq)]
pub enum Word {
    /// `void`
    Void,
    /// `char`
    Char,
    /// `short`
    Short,
    /// `int`
    Int,
    /// `unsigned`
    Unsigned,
    /// `signed`
    Signed,
    /// `const`
    Const,
    /// `extern`
    Extern,
    /// `if`
    If,
    /// `else`
    Else,
    /// `while`
    While,
    /// `do`
    Do,
    /// `for`
    For,
    /// `break`
    Break,
    /// `continue`
    Continue,
    /// `return`
    Return,
    /// `lock`
    Lock,
    /// `unlock`
    Unlock,
    /// `shared`
    Shared,
    /// `holds`
    Holds,
    /// `print`
    Print,
}

/// A sign: an operator, or what separates or encloses.
#[derive(Clone, Copy, Debug, PartialEq, Eq)]
pub enum Sign {
    /// `<<=`
    ShiftLeftEqual,
    /// `>>=`
    ShiftRightEqual,
    /// `<<`
    ShiftLeft,
    /// `>>`
    ShiftRight,
    /// `&&`
    AndAnd,
    /// `||`
    OrOr,
    /// `==`
    EqualEqual,
    /// `!=`
    NotEqual,
    /// `<=`
    LessEqual,
    /// `>=`
    GreaterEqual,
    /// `+=`
    PlusEqual,
    /// `-=`
    MinusEqual,
    /// `*=`
    StarEqual,
    /// `/=`
    SlashEqual,
    /// `%=`
    PercentEqual,
    /// `&=`
    AndEqual,
    /// `|=`
    OrEqual,
    /// `^=`
    CaretEqual,
    /// `++`
    PlusPlus,
    /// `--`
    MinusMinus,
    /// `+`
    Plus,
    /// `-`
    Minus,
    /// `*`
    Star,
    /// `/`
    Slash,
    /// `%`
    Percent,
    /// `&`
    And,
    /// `|`
    Or,
    /// `^`
    Caret,
    /// `~`
    Tilde,
    /// `!`
    Not,
    /// `<`
    Less,
    /// `>`
    Greater,
    /// `=`
    Equal,
    /// `?`
    Question,
    /// `:`
    Colon,
    /// `;`
    Semicolon,
    /// `,`
    Comma,
    /// `(`
    OpenParen,
    /// `)`
    CloseParen,
    /// `[`
    OpenBracket,
    /// `]`
    CloseBracket,
    /// `{`
    OpenBrace,
    /// `}`
    CloseBrace,
}

impl Word {
    /// The word's text.
    pub fn as_str(self) -> &'static str
        ensures { result.now ≡ word_spelling self }
    {
        match self {
            Word::Void => "void",
            Word::Char => "char",
            Word::Short => "short",
            Word::Int => "int",
            Word::Unsigned => "unsigned",
            Word::Signed => "signed",
            Word::Const => "const",
            Word::Extern => "extern",
            Word::If => "if",
            Word::Else => "else",
            Word::While => "while",
            Word::Do => "do",
            Word::For => "for",
            Word::Break => "break",
            Word::Continue => "continue",
            Word::Return => "return",
            Word::Lock => "lock",
            Word::Unlock => "unlock",
            Word::Shared => "shared",
            Word::Holds => "holds",
            Word::Print => "print",
        }
    }
}

impl Sign {
    /// The sign's text.
    pub fn as_str(self) -> &'static str
        ensures { result.now ≡ sign_spelling self }
    {
        match self {
            Sign::ShiftLeftEqual => "<<=",
            Sign::ShiftRightEqual => ">>=",
            Sign::ShiftLeft => "<<",
            Sign::ShiftRight => ">>",
            Sign::AndAnd => "&&",
            Sign::OrOr => "||",
            Sign::EqualEqual => "==",
            Sign::NotEqual => "!=",
            Sign::LessEqual => "<=",
            Sign::GreaterEqual => ">=",
            Sign::PlusEqual => "+=",
            Sign::MinusEqual => "-=",
            Sign::StarEqual => "*=",
            Sign::SlashEqual => "/=",
            Sign::PercentEqual => "%=",
            Sign::AndEqual => "&=",
            Sign::OrEqual => "|=",
            Sign::CaretEqual => "^=",
            Sign::PlusPlus => "++",
            Sign::MinusMinus => "--",
            Sign::Plus => "+",
            Sign::Minus => "-",
            Sign::Star => "*",
            Sign::Slash => "/",
            Sign::Percent => "%",
            Sign::And => "&",
            Sign::Or => "|",
            Sign::Caret => "^",
            Sign::Tilde => "~",
            Sign::Not => "!",
            Sign::Less => "<",
            Sign::Greater => ">",
            Sign::Equal => "=",
            Sign::Question => "?",
            Sign::Colon => ":",
            Sign::Semicolon => ";",
            Sign::Comma => ",",
            Sign::OpenParen => "(",
            Sign::CloseParen => ")",
            Sign::OpenBracket => "[",
            Sign::CloseBracket => "]",
            Sign::OpenBrace => "{",
            Sign::CloseBrace => "}",
        }
    }
}
