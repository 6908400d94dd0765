//! Tables of names: each name has a number, so that the reader and the printer of a text take both
//! directions from one table. A table borrows its text, and none of its calls takes memory.

ghost use Rattle.std.specs.Prelude.{◌≡◌, ◌<◌, ◌↔◌, length, nat_eq, slice_get};
ghost use Rattle.std.specs.Prelude.{IsTrue, IfSome, IsNone, Some, false, List, ℕ};
ghost use Rattle.std.specs.Option.{option_map};
ghost use Rattle.cas_base.specs.Names.{rows_of, IsRow, IsDistinct, IsTable, IsNewAt, IsFirstRow};

use std::marker::Model;

/// A table of `N` rows of text, no two of them equal. Its rows are numbered from 0. Contracts see it as the
/// list of its rows. It borrows its text; build it once, and pass it by reference.
#[derive(Debug, Drop)]
pub struct Names<'a, const N: usize> {
    text: &'a str,
}

impl<'a, const N: usize> Model for Names<'a, N> {
    ghost use Rattle.std.specs.Prelude.{List, ℕ};
    ghost use Rattle.cas_base.specs.Names.{rows_of, IsTable};

    ghost Value = { List (List ℕ) };

    ghost view = { λ n. rows_of n.text.now };

    ghost invariant = { λ n. IsTable N (rows_of n.text.now) };
}

impl<'a, const N: usize> Names<'a, N> {
    /// The table of the parts of a text, split at each space: two spaces in a row have the empty row between
    /// them, and the empty text has one row, which is empty.
    ///
    /// None exactly if there aren't `N` rows, or two are equal.
    pub fn new(rows: &'a str) -> Option<Names<'a, N>>
        ensures rows { IfSome result (λ names. names ≡ rows_of rows.entry.now) }
        ensures table { IfSome result (λ names. IsTable N names) }
        ensures none { IsNone result ↔ ¬ (IsTable N (rows_of rows.entry.now)) }
    {
        if has_rows(rows, N) && is_distinct(rows, N) {
            Some(Names { text: rows })
        } else {
            None
        }
    }

    /// The number of the row that equals a text. None exactly if no row does.
    pub fn find(&self, text: &str) -> Option<usize>
        ensures found { (k : ℕ) → (result ≡ Some k) ↔ IsRow self.now k text.now }
        ensures below { IfSome result (λ k. k < N) }
        ensures none { IsNone result ↔ ((k : ℕ) → ¬ (IsRow self.now k text.now)) }
    {
        first_row(self.text, text)
    }

    /// The row with a number.
    pub fn spell(&self, k: usize) -> &'a str
        requires { k < N }
        ensures { IsRow self.now k result.now }
    {
        match row_at(self.text, k) {
            Some(row) => row,
            None => unreachable!(),
        }
    }
}

// The row with a number.
fn row_at<'a>(text: &'a str, k: usize) -> Option<&'a str>
    ensures { option_map (λ row. row.now) result ≡ slice_get (rows_of text.entry.now) k }
{
    let row = bytes_at(text, k)?;
    std::str::from_utf8(row).ok()
}

// The bytes of the row with a number.
fn bytes_at<'a>(text: &'a str, k: usize) -> Option<&'a [u8]>
    ensures { option_map (λ row. row.now) result ≡ slice_get (rows_of text.entry.now) k }
{
    text.as_bytes().split(|byte| *byte == b' ').nth(k)
}

// Whether a text has so many rows.
fn has_rows(text: &str, count: usize) -> bool
    ensures { result ≡ nat_eq (length (rows_of text.now)) count }
{
    text.as_bytes().split(|byte| *byte == b' ').count() == count
}

// The number of the first row that is a text.
fn first_row(rows: &str, text: &str) -> Option<usize>
    ensures { IsFirstRow (rows_of rows.now) text.now result }
{
    let wanted = text.as_bytes();
    rows.as_bytes()
        .split(|byte| *byte == b' ')
        .position(|row| row == wanted)
}

// Whether no two rows of a text are equal.
fn is_distinct(text: &str, count: usize) -> bool
    requires { length (rows_of text.now) ≡ count }
    ensures { IsTrue result ↔ IsDistinct (rows_of text.now) }
{
    for k in 0..count {
        if !is_new_at(text, k) {
            return false;
        }
    }
    true
}

// Whether no row before this number is equal to its row.
fn is_new_at(text: &str, k: usize) -> bool
    requires { k < length (rows_of text.now) }
    ensures new { IsTrue result → (row : List ℕ) → IsRow (rows_of text.now) k row → IsNewAt (rows_of text.now) k row }
    ensures old { result ≡ false → ¬ (IsDistinct (rows_of text.now)) }
{
    match row_at(text, k) {
        Some(row) => first_row(text, row) == Some(k),
        None => unreachable!(),
    }
}

/// Makes the match over the rows of a table, inside a function's body, in either direction. The rows are
/// the row numbers of a `Names`; a table of few rows may have the texts themselves, and then wants no
/// `Names`. Each row has its case, a path to a value without fields.
///
/// - `cases!(case_at row; ..)` is the case of a row, or None where no row of the table is this one.
/// - `cases!(row_of case; ..)` is the row of a case.
///
/// A table is written once, by a macro of its own that takes the direction:
///
/// ```text
/// const FLAG_COUNT: usize = 3;
///
/// const FLAGS: &str = "carry zero sign";
///
/// macro_rules! flags {
///     ($direction:ident $of:expr) => {
///         cases!($direction $of;
///             0 => Flag::Carry,
///             1 => Flag::Zero,
///             2 => Flag::Sign,
///         )
///     };
/// }
///
/// fn read(table: &Names<'static, FLAG_COUNT>, text: &str) -> Option<Flag> {
///     let row = table.find(text)?;
///     flags!(case_at row)
/// }
///
/// fn spell(table: &Names<'static, FLAG_COUNT>, flag: Flag) -> &'static str {
///     table.spell(flags!(row_of flag))
/// }
/// ```
#[macro_export]
macro_rules! cases {
    (case_at $row:expr; $($at:literal => $case:path),+ $(,)?) => {
        match $row {
            $($at => Some($case),)+
            _ => None,
        }
    };
    (row_of $case:expr; $($row:literal => $of:path),+ $(,)?) => {
        match $case {
            $($of => $row,)+
        }
    };
}
