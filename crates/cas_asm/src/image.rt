//! Images of linked code.

ghost use Rattle.std.specs.Prelude.{◌≡◌, ◌≤◌, length};

use crate::instr::Instr;
use cas_base::Seq;

/// The most instructions of an image.
pub const CODE_LIMIT: usize = 4_194_304;
/// The most words of an image's globals and locks.
pub const WORD_COUNT_LIMIT: usize = 65_536;
/// The most threads.
pub const ENTRY_LIMIT: usize = 64;
/// The address of word 0; word k is at 4 * k after it.
pub const WORD_BASE: u32 = 4096;
/// The place of the lock object's `lock`.
pub const LOCK_PLACE: u32 = 0;
/// The place of the lock object's `unlock`.
pub const UNLOCK_PLACE: u32 = 6;

/// Linked code and its words. Each symbol is an address or a place, and each label a place. The code, the words and the
/// entries are within their limits.
#[derive(Debug, Drop, PartialEq, Eq)]
pub struct Image {
    /// The instructions by their places, the lock object's first.
    pub code: Seq<Instr<u32>>,
    /// The initial words.
    pub words: Seq<u32>,
    /// Whether each word is of a table of constants.
    pub constant: Seq<bool>,
    /// The number of each word's guarding lock's word, if it has one.
    pub guards: Seq<Option<u32>>,
    /// The numbers of the locks' words.
    pub locks: Seq<u32>,
    /// The place where each thread begins.
    pub entries: Seq<u32>,
    ghost within_code: { length code ≤ 4194304 },
    ghost within_words: { length words ≤ 65536 },
    ghost constants: { length constant ≡ length words },
    ghost guarded: { length guards ≡ length words },
    ghost threads: { length entries ≤ 64 },
}
