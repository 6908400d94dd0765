//! What is at the front of a text.

ghost use Rattle.std.specs.Prelude.{◌≡◌, ◌≤◌, length, take_while, IfOk, IsTrue, not, ◌&&◌};
ghost use Rattle.std.specs.List.{list_all, prefix_len};
ghost use Rattle.cas_base.specs.Name.{is_first_byte, is_name_byte};
ghost use Rattle.cas_lex.specs.Characters as characters;
ghost use Rattle.cas_lex.specs.Comments as comments;
ghost use Rattle.cas_lex.specs.Literals.{begins_with_letter};
ghost use Rattle.cas_lex.specs.Front as spec;
ghost use Rattle.cas_base.specs.Names.{IsRow};
ghost use Rattle.cas_lex.specs.Spellings.{reserved};

use crate::code::ReadCode;
use crate::comment::{block_comment_len, line_comment_len};
use crate::literal::literal_at;
use crate::sign::sign_at;
use crate::token::{Sign, TokenKind};
use crate::word::{WordTable, word_at};
use cas_base::{NAME_LIMIT, Name, NameFault, NoMemory};
use std::alloc::Global;

/// What is at the front of a text.
#[derive(Debug, Drop)]
pub enum Front {
    /// So many bytes that separate tokens: a blank or a comment.
    Blank(usize),
    /// A token of so many bytes.
    Token(TokenKind, usize),
    /// A fault, at the first byte.
    Fault(ReadCode),
}

/// What is at the front of a text.
#[tactic(auto, unfolding(crate::specs::Front::front_at))]
pub fn front_of(alloc: Global, words: &WordTable, text: &[u8]) -> Result<Front, NoMemory>
    ensures { IfOk result (λ found. found ≡ spec.front text.now) }
{
    match text {
        [] => Ok(Front::Blank(0)),
        [first, ..] => {
            let first = *first;
            if begins_name(first) {
                name_at(alloc, words, name_text(text))
            } else if first.is_ascii_digit() {
                Ok(literal_at(text))
            } else {
                Ok(mark_at(first, text))
            }
        }
    }
}

// What is at the front of a text that begins with no name and no literal.
#[tactic(auto, unfolding(crate::specs::Front::mark_at))]
fn mark_at(first: u8, text: &[u8]) -> Front
    ensures { result ≡ spec.mark_at first text.now }
{
    if is_blank(first) {
        Front::Blank(1)
    } else if !is_character(first) {
        Front::Fault(ReadCode::R1)
    } else if text.starts_with(b"//") {
        Front::Blank(line_comment_len(text))
    } else if text.starts_with(b"/*") {
        block_comment(text)
    } else if text.starts_with(b"->") {
        Front::Fault(ReadCode::R7)
    } else {
        sign_front(sign_at(text))
    }
}

fn block_comment(text: &[u8]) -> Front
    requires { 2 ≤ length text.now }
    ensures { result ≡ spec.block_comment (comments.block_comment_len text.now) }
{
    match block_comment_len(text) {
        Some(len) => Front::Blank(len),
        None => Front::Fault(ReadCode::R2),
    }
}

fn sign_front(sign: Option<Sign>) -> Front
    ensures { result ≡ spec.sign_front sign }
{
    match sign {
        Some(sign) => Front::Token(TokenKind::Sign(sign), sign.as_str().len()),
        None => Front::Fault(ReadCode::R7),
    }
}

// What the text of a name or a word is.
fn name_at(alloc: Global, words: &WordTable, text: &str) -> Result<Front, NoMemory>
    requires begins { IsTrue (begins_with_letter text.now) }
    requires goes_on { IsTrue (list_all is_name_byte text.now) }
    ensures { IfOk result (λ found. found ≡ spec.name_at text.now) }
{
    match words.find(text) {
        Some(row) => Ok(reserved_front(row, text)),
        None => plain_name(alloc, text),
    }
}

// What the text of a row is.
fn reserved_front(row: usize, text: &str) -> Front
    requires { IsRow reserved row text.now }
    ensures { result ≡ spec.name_at text.now }
{
    match word_at(row) {
        Some(word) => Front::Token(TokenKind::Word(word), text.len()),
        None => Front::Fault(ReadCode::R7),
    }
}

// A name that is no row.
fn plain_name(alloc: Global, text: &str) -> Result<Front, NoMemory>
    requires begins { IsTrue (begins_with_letter text.now) }
    requires goes_on { IsTrue (list_all is_name_byte text.now) }
    ensures { IfOk result (λ found. found ≡ spec.word_or_name None text.now) }
{
    if text.len() > NAME_LIMIT {
        return Ok(Front::Fault(ReadCode::R4));
    }
    match Name::new(alloc, text) {
        Ok(name) => Ok(Front::Token(TokenKind::Name(name), text.len())),
        Err(NameFault::Memory) => Err(NoMemory),
        Err(NameFault::Shape) => unreachable!(),
    }
}

// The letters, digits and `_` that begin a text.
fn name_text(text: &[u8]) -> &str
    ensures { result.now ≡ take_while is_name_byte text.now }
{
    let len = name_len(text);
    match str::from_utf8(&text[..len]) {
        Ok(name) => name,
        Err(_) => unreachable!(),
    }
}

// How many letters, digits and `_` begin a text.
fn name_len(text: &[u8]) -> usize
    ensures value { result ≡ prefix_len is_name_byte text.now }
    ensures within { result ≤ length text.now }
{
    text.iter().take_while(|byte| goes_on_name(**byte)).count()
}

// Whether a name may begin with this byte.
fn begins_name(byte: u8) -> bool
    ensures { result ≡ is_first_byte byte }
{
    byte.is_ascii_alphabetic() || byte == b'_'
}

// Whether a name may go on with this byte.
fn goes_on_name(byte: u8) -> bool
    ensures { result ≡ is_name_byte byte }
{
    byte.is_ascii_alphanumeric() || byte == b'_'
}

fn is_blank(byte: u8) -> bool
    ensures { result ≡ characters.is_blank byte }
{
    byte == b' ' || byte == b'\t' || byte == b'\n' || byte == b'\r'
}

// Whether no text has this byte outside comments, though it is printable ASCII.
fn is_unused(byte: u8) -> bool
    ensures { result ≡ characters.is_unused byte }
{
    byte == b'@' || byte == b'$' || byte == b'`' || byte == b'\\'
}

// Whether this byte may be outside comments.
fn is_character(byte: u8) -> bool
    ensures { result ≡ characters.is_character byte }
{
    is_blank(byte) || (byte.is_ascii_graphic() && !is_unused(byte))
}
