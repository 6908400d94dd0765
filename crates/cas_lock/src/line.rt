//! Lines of lock texts.

ghost use Rattle.std.specs.Prelude.{◌≡◌, ◌∷◌, ◌++◌, [], IfOk};
ghost use Rattle.std.specs.List.{list_all};
ghost use Rattle.std.specs.Char.{is_ascii_lowercase};
ghost use Rattle.cas_pieces.specs.Pieces.{pieces};
ghost use Rattle.cas_lock.specs.Lines as spec;

use crate::step::{Step, are_digits, step_of};
use cas_base::{Name, NoMemory};
use cas_pieces::{Mark, Piece, Word, first_piece};

/// What a line of a lock text is.
#[derive(Debug, Drop)]
pub enum Entry<'a> {
    /// Nothing but blanks and a comment.
    Blank,
    /// It sets a label.
    Label(Word<'a>),
    /// An instruction.
    Step(Step<'a>),
    /// None of a lock text.
    Fault,
}

/// Puts the pieces of a line into `solid`, in place of what was there, but for its blanks and its comment.
pub fn split_solid<'a>(solid: &mut Vec<Piece<'a>>, line: &'a [u8]) -> Result<(), NoMemory>
    ensures { IfOk result (λ _. solid.new.items ≡ spec.without_blanks (pieces line.now)) }
{
    solid.clear();
    let mut rest = line;
    while let Some((piece, after)) = first_piece(rest) {
        if piece.is_mark(Mark::Semicolon) {
            return Ok(());
        }
        put_solid(solid, piece)?;
        rest = after;
    }
    Ok(())
}

// Puts a piece behind the others if it isn't a blank.
fn put_solid<'a>(solid: &mut Vec<Piece<'a>>, piece: Piece<'a>) -> Result<(), NoMemory>
    ensures { IfOk result (λ _. solid.new.items ≡ solid.old.items ++ spec.solid piece.entry) }
{
    if is_blank(&piece) {
        return Ok(());
    }
    solid.push(piece)?;
    Ok(())
}

// Whether a piece is a space or a tab.
fn is_blank(piece: &Piece) -> bool
    ensures { result ≡ spec.is_blank piece.now }
{
    piece.is_mark(Mark::Space) || piece.is_mark(Mark::Other(b'\t'))
}

/// What the line with these pieces is, of which none is a blank.
pub fn entry_of<'a>(pieces: &[Piece<'a>]) -> Entry<'a>
    ensures { result ≡ spec.entry_of pieces.now }
{
    match pieces {
        [] => Entry::Blank,
        [name, colon] if colon.is_mark(Mark::Colon) => label(name),
        _ => instruction(pieces),
    }
}

fn label<'a>(piece: &Piece<'a>) -> Entry<'a>
    ensures { result ≡ spec.label piece.now }
{
    match piece {
        Piece::Word(word) if Name::has_shape(word.as_str()) => Entry::Label(word.again()),
        _ => Entry::Fault,
    }
}

fn instruction<'a>(pieces: &[Piece<'a>]) -> Entry<'a>
    ensures { result ≡ spec.instruction pieces.now }
{
    if is_instruction(pieces) {
        Entry::Step(step_of(pieces))
    } else {
        Entry::Fault
    }
}

// Whether these are one or two words and operands.
fn is_instruction(pieces: &[Piece]) -> bool
    ensures { result ≡ spec.is_instruction pieces.now }
{
    match pieces.split_first() {
        Some((word, rest)) => is_lowercase(word) && (are_operands(rest) || has_second_word(rest)),
        None => false,
    }
}

// Whether these are a second word and operands.
fn has_second_word(pieces: &[Piece]) -> bool
    ensures { result ≡ spec.has_second_word pieces.now }
{
    match pieces.split_first() {
        Some((word, rest)) => is_lowercase(word) && are_operands(rest),
        None => false,
    }
}

// Whether a piece is a word of lower-case letters.
fn is_lowercase(piece: &Piece) -> bool
    ensures { result ≡ spec.is_lowercase piece.now }
{
    match piece {
        Piece::Word(word) => are_lowercase(word.as_str()),
        Piece::Mark(_) => false,
    }
}

fn are_lowercase(text: &str) -> bool
    ensures { result ≡ list_all is_ascii_lowercase text.now }
{
    text.as_bytes().iter().all(|byte| byte.is_ascii_lowercase())
}

// Whether these are no operand, one, or two with a comma between.
fn are_operands(pieces: &[Piece]) -> bool
    ensures { result ≡ spec.are_operands pieces.now }
{
    match pieces {
        [] => true,
        [a] => is_word(a),
        [a, b, c] => {
            is_register_at(a, b, c) || (is_word(a) && b.is_mark(Mark::Comma) && is_word(c))
        }
        [a, b, c, d, e] => {
            (is_word(a) && b.is_mark(Mark::Comma) && is_register_at(c, d, e))
                || (is_register_at(a, b, c) && d.is_mark(Mark::Comma) && is_word(e))
        }
        [a, b, c, d, e, f, g] => {
            is_register_at(a, b, c) && d.is_mark(Mark::Comma) && is_register_at(e, f, g)
        }
        _ => false,
    }
}

// Whether a piece is a register, a decimal number or a name.
fn is_word(piece: &Piece) -> bool
    ensures { result ≡ spec.is_word piece.now }
{
    match piece {
        Piece::Word(word) => are_digits(word.as_str()) || Name::has_shape(word.as_str()),
        Piece::Mark(_) => false,
    }
}

// Whether these are a register in brackets.
fn is_register_at(left: &Piece, reg: &Piece, right: &Piece) -> bool
    ensures { result ≡ spec.is_register_at left.now reg.now right.now }
{
    left.is_mark(Mark::Open) && is_register(reg) && right.is_mark(Mark::Close)
}

// Whether a piece is a register.
fn is_register(piece: &Piece) -> bool
    ensures { result ≡ spec.is_register piece.now }
{
    piece.spells("eax")
        || piece.spells("ecx")
        || piece.spells("edx")
        || piece.spells("ebx")
        || piece.spells("esp")
        || piece.spells("ebp")
        || piece.spells("esi")
        || piece.spells("edi")
}
