//! Operands as they are written.

ghost use Rattle.std.specs.Prelude.{◌≡◌};
ghost use Rattle.cas_object_line.specs.Operands as spec;

use crate::tables::Tables;
use cas_base::{Name, Reg};
use cas_pieces::{Mark, Piece, Word};

/// A number as it is written.
#[derive(Debug, Drop)]
pub struct Numeral<'a> {
    /// Whether `-` stands before it.
    pub negative: bool,
    /// Its digits.
    pub digits: Word<'a>,
}

/// A memory operand as it is written: at least one part.
#[derive(Debug, Drop)]
pub struct Address<'a> {
    /// The symbol of a global or lock.
    pub symbol: Option<Word<'a>>,
    /// The base register.
    pub base: Option<Reg>,
    /// The index register, and whether it is scaled by 4.
    pub index: Option<(Reg, bool)>,
    /// The number.
    pub number: Option<Numeral<'a>>,
}

/// An operand.
#[derive(Debug, Drop)]
pub enum Operand<'a> {
    /// A register.
    Reg(Reg),
    /// A number.
    Number(Numeral<'a>),
    /// A label, by its digits.
    Label(Word<'a>),
    /// The symbol of a global, a lock or a function.
    Symbol(Word<'a>),
    /// A place in memory.
    Memory(Address<'a>),
    /// Another word.
    Word(Word<'a>),
}

/// The operand that these pieces are.
pub fn operand_of<'a>(tables: &Tables, pieces: &[Piece<'a>]) -> Option<Operand<'a>>
    ensures { result ≡ spec.operand_of pieces.now }
{
    match pieces {
        [word] => plain(tables, word),
        [mark, word] => marked(mark, word),
        [left, rest @ ..] if left.is_mark(Mark::Open) => match address_of(tables, rest) {
            Some(address) => Some(Operand::Memory(address)),
            None => None,
        },
        _ => None,
    }
}

fn plain<'a>(tables: &Tables, piece: &Piece<'a>) -> Option<Operand<'a>>
    ensures { result ≡ spec.plain piece.now }
{
    match piece {
        Piece::Word(word) => Some(plain_word(tables, word)),
        Piece::Mark(_) => None,
    }
}

fn plain_word<'a>(tables: &Tables, word: &Word<'a>) -> Operand<'a>
    ensures { result ≡ spec.plain_word word.now }
{
    if word.is_numeral() {
        return Operand::Number(Numeral {
            negative: false,
            digits: word.again(),
        });
    }
    match tables.register(word.as_str()) {
        Some(reg) => Operand::Reg(reg),
        None => Operand::Word(word.again()),
    }
}

fn marked<'a>(mark: &Piece<'a>, piece: &Piece<'a>) -> Option<Operand<'a>>
    ensures { result ≡ spec.marked mark.now piece.now }
{
    match piece {
        Piece::Word(word) => marked_word(mark, word),
        Piece::Mark(_) => None,
    }
}

fn marked_word<'a>(mark: &Piece<'a>, word: &Word<'a>) -> Option<Operand<'a>>
    ensures { result ≡ spec.marked_word mark.now word.now }
{
    if mark.is_mark(Mark::Minus) && is_positive(word) {
        Some(Operand::Number(Numeral {
            negative: true,
            digits: word.again(),
        }))
    } else if mark.is_mark(Mark::Dot) && word.is_numeral() {
        Some(Operand::Label(word.again()))
    } else if mark.is_mark(Mark::At) && Name::has_shape(word.as_str()) {
        Some(Operand::Symbol(word.again()))
    } else {
        None
    }
}

/// Whether a word is a number other than 0.
pub fn is_positive(word: &Word) -> bool
    ensures { result ≡ spec.is_positive word.now }
{
    word.is_numeral() && word.as_str() != "0"
}

/// The memory operand that these pieces, after its `[`, are.
pub fn address_of<'a>(tables: &Tables, pieces: &[Piece<'a>]) -> Option<Address<'a>>
    ensures { result ≡ spec.address_of pieces.now }
{
    match pieces {
        [at, symbol, rest @ ..] if at.is_mark(Mark::At) => with_symbol(tables, symbol, rest),
        [minus, _, _] if minus.is_mark(Mark::Minus) => number_end(None, None, None, pieces),
        _ => base_part(tables, None, pieces),
    }
}

fn with_symbol<'a>(tables: &Tables, piece: &Piece<'a>, rest: &[Piece<'a>]) -> Option<Address<'a>>
    ensures { result ≡ spec.with_symbol piece.now rest.now }
{
    match piece {
        Piece::Word(word) if Name::has_shape(word.as_str()) => {
            after_symbol(tables, Some(word.again()), rest)
        }
        _ => None,
    }
}

// What comes after the symbol.
fn after_symbol<'a>(
    tables: &Tables,
    symbol: Option<Word<'a>>,
    pieces: &[Piece<'a>],
) -> Option<Address<'a>>
    ensures { result ≡ spec.after_symbol symbol.entry pieces.now }
{
    match pieces {
        [plus, rest @ ..] if plus.is_mark(Mark::Plus) => base_part(tables, symbol, rest),
        _ => number_end(symbol, None, None, pieces),
    }
}

// A part that may be the base, and what comes after it.
fn base_part<'a>(
    tables: &Tables,
    symbol: Option<Word<'a>>,
    pieces: &[Piece<'a>],
) -> Option<Address<'a>>
    ensures { result ≡ spec.base_part symbol.entry pieces.now }
{
    match pieces {
        [reg, rest @ ..] if !begins_with_star(rest) => match register_of(tables, reg) {
            Some(base) => after_base(tables, symbol, base, rest),
            None => number_part(symbol, None, None, pieces),
        },
        _ => index_part(tables, symbol, None, pieces),
    }
}

fn begins_with_star(pieces: &[Piece]) -> bool
    ensures { result ≡ spec.begins_with_star pieces.now }
{
    match pieces {
        [star, ..] => star.is_mark(Mark::Star),
        [] => false,
    }
}

fn register_of(tables: &Tables, piece: &Piece) -> Option<Reg>
    ensures { result ≡ spec.register_piece piece.now }
{
    match piece {
        Piece::Word(word) => tables.register(word.as_str()),
        Piece::Mark(_) => None,
    }
}

// What comes after the base.
fn after_base<'a>(
    tables: &Tables,
    symbol: Option<Word<'a>>,
    base: Reg,
    pieces: &[Piece<'a>],
) -> Option<Address<'a>>
    ensures { result ≡ spec.after_base symbol.entry base pieces.now }
{
    match pieces {
        [plus, rest @ ..] if plus.is_mark(Mark::Plus) => {
            index_part(tables, symbol, Some(base), rest)
        }
        _ => number_end(symbol, Some(base), None, pieces),
    }
}

// A part that may be the index, and what comes after it.
fn index_part<'a>(
    tables: &Tables,
    symbol: Option<Word<'a>>,
    base: Option<Reg>,
    pieces: &[Piece<'a>],
) -> Option<Address<'a>>
    ensures { result ≡ spec.index_part symbol.entry base pieces.now }
{
    match pieces {
        [reg, star, scale, rest @ ..] if star.is_mark(Mark::Star) => {
            match index_of(register_of(tables, reg), base, scale) {
                Some(index) => after_index(symbol, base, index, rest),
                None => None,
            }
        }
        _ => number_part(symbol, base, None, pieces),
    }
}

// The index register with its scale: not esp, and scaled by 1 only beside a base.
fn index_of(reg: Option<Reg>, base: Option<Reg>, scale: &Piece) -> Option<(Reg, bool)>
    ensures { result ≡ spec.index_of reg base scale.now }
{
    match reg {
        None | Some(Reg::Esp) => None,
        Some(reg) => {
            if scale.spells("4") {
                Some((reg, true))
            } else if scale.spells("1") && base.is_some() {
                Some((reg, false))
            } else {
                None
            }
        }
    }
}

// What comes after the index.
fn after_index<'a>(
    symbol: Option<Word<'a>>,
    base: Option<Reg>,
    index: (Reg, bool),
    pieces: &[Piece<'a>],
) -> Option<Address<'a>>
    ensures { result ≡ spec.after_index symbol.entry base index pieces.now }
{
    match pieces {
        [plus, rest @ ..] if plus.is_mark(Mark::Plus) => {
            number_part(symbol, base, Some(index), rest)
        }
        _ => number_end(symbol, base, Some(index), pieces),
    }
}

// A number without a sign, at the end. A 0 is alone.
fn number_part<'a>(
    symbol: Option<Word<'a>>,
    base: Option<Reg>,
    index: Option<(Reg, bool)>,
    pieces: &[Piece<'a>],
) -> Option<Address<'a>>
    ensures { result ≡ spec.number_part symbol.entry base index pieces.now }
{
    match pieces {
        [number, right] if right.is_mark(Mark::Close) => {
            let alone = symbol.is_none() && base.is_none() && index.is_none();
            match numeral_of(alone, number) {
                Some(digits) => Some(Address {
                    symbol,
                    base,
                    index,
                    number: Some(Numeral {
                        negative: false,
                        digits,
                    }),
                }),
                None => None,
            }
        }
        _ => None,
    }
}

// The end, or a number with its sign before it.
fn number_end<'a>(
    symbol: Option<Word<'a>>,
    base: Option<Reg>,
    index: Option<(Reg, bool)>,
    pieces: &[Piece<'a>],
) -> Option<Address<'a>>
    ensures { result ≡ spec.number_end symbol.entry base index pieces.now }
{
    match pieces {
        [right] if right.is_mark(Mark::Close) => Some(Address {
            symbol,
            base,
            index,
            number: None,
        }),
        [minus, number, right] if minus.is_mark(Mark::Minus) && right.is_mark(Mark::Close) => {
            match numeral_of(false, number) {
                Some(digits) => Some(Address {
                    symbol,
                    base,
                    index,
                    number: Some(Numeral {
                        negative: true,
                        digits,
                    }),
                }),
                None => None,
            }
        }
        _ => None,
    }
}

// The digits of a number, which may be 0 only if that is said.
fn numeral_of<'a>(may_be_zero: bool, piece: &Piece<'a>) -> Option<Word<'a>>
    ensures { result ≡ spec.numeral_of may_be_zero piece.now }
{
    match piece {
        Piece::Word(word) if is_positive(word) || (may_be_zero && word.is_numeral()) => {
            Some(word.again())
        }
        _ => None,
    }
}
