//! The instructions of lock texts.

ghost use Rattle.std.specs.Prelude.{◌≡◌, ◌<◌, length};
ghost use Rattle.std.specs.Char.{is_ascii_digit};
ghost use Rattle.std.specs.List.{list_all};
ghost use Rattle.cas_lock.specs.Steps as spec;

use cas_pieces::{Mark, Piece, Word};

/// An instruction of a lock text, as far as the accepted body needs them told apart.
#[derive(Debug, Drop)]
pub enum Step<'a> {
    /// `lock dec [eax]`
    LockDec,
    /// `jns` to a label.
    Jns(Word<'a>),
    /// `cmp [eax], 0`
    CmpZero,
    /// `jle` to a label.
    Jle(Word<'a>),
    /// `jmp` to a label.
    Jmp(Word<'a>),
    /// `ret`
    Ret,
    /// `mov [eax], 1`
    MovOne,
    /// Any other.
    Other,
}

/// The instruction that these pieces are, without blanks and comment.
pub fn step_of<'a>(pieces: &[Piece<'a>]) -> Step<'a>
    ensures { result ≡ spec.step_of pieces.now }
{
    match pieces {
        [word] => lone(word),
        [word, label] => jump(word, label),
        [first, second, left, reg, right] => {
            if first.spells("lock") && second.spells("dec") && is_at_eax(left, reg, right) {
                Step::LockDec
            } else {
                Step::Other
            }
        }
        [word, left, reg, right, comma, number] => {
            if is_at_eax(left, reg, right) && comma.is_mark(Mark::Comma) {
                with_number(word, number)
            } else {
                Step::Other
            }
        }
        _ => Step::Other,
    }
}

fn lone<'a>(word: &Piece<'a>) -> Step<'a>
    ensures { result ≡ spec.lone word.now }
{
    if word.spells("ret") {
        Step::Ret
    } else {
        Step::Other
    }
}

fn jump<'a>(word: &Piece<'a>, label: &Piece<'a>) -> Step<'a>
    ensures { result ≡ spec.jump word.now label.now }
{
    match label {
        Piece::Word(label) => jump_to(word, label),
        Piece::Mark(_) => Step::Other,
    }
}

fn jump_to<'a>(word: &Piece<'a>, label: &Word<'a>) -> Step<'a>
    ensures { result ≡ spec.jump_to word.now label.now }
{
    if word.spells("jns") {
        Step::Jns(label.again())
    } else if word.spells("jle") {
        Step::Jle(label.again())
    } else if word.spells("jmp") {
        Step::Jmp(label.again())
    } else {
        Step::Other
    }
}

fn with_number<'a>(word: &Piece<'a>, number: &Piece<'a>) -> Step<'a>
    ensures { result ≡ spec.with_number word.now number.now }
{
    if word.spells("cmp") && has_value(number, 0) {
        Step::CmpZero
    } else if word.spells("mov") && has_value(number, 1) {
        Step::MovOne
    } else {
        Step::Other
    }
}

// Whether these are `[eax]`.
fn is_at_eax(left: &Piece, reg: &Piece, right: &Piece) -> bool
    ensures { result ≡ spec.is_at_eax left.now reg.now right.now }
{
    left.is_mark(Mark::Open) && reg.spells("eax") && right.is_mark(Mark::Close)
}

// Whether a piece is a decimal number of this value, perhaps with zeros before it.
fn has_value(piece: &Piece, value: u64) -> bool
    ensures { result ≡ spec.has_value piece.now value }
{
    match piece {
        Piece::Word(word) => is_value(word.as_str(), value),
        Piece::Mark(_) => false,
    }
}

fn is_value(text: &str, value: u64) -> bool
    requires { 0 < length text.now }
    ensures { result ≡ spec.is_value text.now value }
{
    if !are_digits(text) {
        return false;
    }
    match text.parse::<u64>() {
        Ok(read) => read == value,
        Err(_) => false,
    }
}

/// Whether a text has decimal digits alone.
pub fn are_digits(text: &str) -> bool
    ensures { result ≡ list_all is_ascii_digit text.now }
{
    text.as_bytes().iter().all(|byte| byte.is_ascii_digit())
}
