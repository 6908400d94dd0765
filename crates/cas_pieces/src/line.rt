//! Splitting a line.

ghost use Rattle.std.specs.Prelude.{◌≡◌, ◌≤◌, ◌<◌, ◌∷◌, [], length, IfOk, IfSome, IsTrue, MatchOption};
ghost use Rattle.std.specs.List.{prefix_len};
ghost use Rattle.cas_base.specs.Name.{is_name_byte};
ghost use Rattle.cas_pieces.specs.Pieces as spec;
ghost use Rattle.cas_pieces.specs.Words.{is_word};

use crate::piece::{Mark, Piece, Word};
use cas_base::NoMemory;

/// Puts the pieces of a line into `pieces`, in place of what was there. Time is linear in the line.
pub fn split<'a>(pieces: &mut Vec<Piece<'a>>, line: &'a [u8]) -> Result<(), NoMemory>
    ensures { IfOk result (λ _. pieces.new.items ≡ spec.pieces line.now) }
{
    pieces.clear();
    let mut rest = line;
    while let Some((piece, after)) = first_piece(rest) {
        pieces.push(piece)?;
        rest = after;
    }
    Ok(())
}

/// The first piece of a text, and what follows it.
pub fn first_piece<'a>(text: &'a [u8]) -> Option<(Piece<'a>, &'a [u8])>
    ensures piece { MatchOption result (text.now ≡ []) (λ p. spec.pieces text.now ≡ p.0 ∷ spec.pieces p.1.now) }
    ensures shorter { IfSome result (λ p. length p.1.now < length text.now) }
{
    let (first, after) = text.split_first()?;
    if goes_on_word(*first) {
        let (word, after) = text.split_at(word_len(text));
        Some((Piece::Word(word_of(word)), after))
    } else {
        Some((Piece::Mark(mark_of(*first)), after))
    }
}

// The word with these bytes.
fn word_of<'a>(bytes: &'a [u8]) -> Word<'a>
    requires { IsTrue (is_word bytes.now) }
    ensures { result ≡ bytes.now }
{
    match str::from_utf8(bytes) {
        Ok(word) => Word::of(word),
        Err(_) => unreachable!(),
    }
}

// How many letters, digits and `_` begin a text.
fn word_len(text: &[u8]) -> usize
    ensures value { result ≡ prefix_len is_name_byte text.now }
    ensures within { result ≤ length text.now }
{
    text.iter().take_while(|byte| goes_on_word(**byte)).count()
}

// Whether a word may have this byte.
fn goes_on_word(byte: u8) -> bool
    ensures { result ≡ is_name_byte byte }
{
    byte.is_ascii_alphanumeric() || byte == b'_'
}

// The mark that a byte is.
fn mark_of(byte: u8) -> Mark
    ensures { result ≡ spec.mark_of byte }
{
    match byte {
        b' ' => Mark::Space,
        b',' => Mark::Comma,
        b':' => Mark::Colon,
        b';' => Mark::Semicolon,
        b'@' => Mark::At,
        b'.' => Mark::Dot,
        b'+' => Mark::Plus,
        b'-' => Mark::Minus,
        b'*' => Mark::Star,
        b'[' => Mark::Open,
        b']' => Mark::Close,
        _ => Mark::Other(byte),
    }
}
