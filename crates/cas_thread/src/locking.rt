//! The lock that a thread takes next.

ghost use Rattle.std.specs.Prelude.{◌≡◌, ℕ, List, reverse};
ghost use Rattle.cas_step.specs.Continuation as items;
ghost use Rattle.cas_step.specs.Continuation.{next};
ghost use Rattle.cas_typed.specs.Numbered.{IsRow};
ghost use Rattle.cas_typed.specs.Resolved.{TypedStmtTree};
ghost use Rattle.cas_typed.specs.declared.rows.StmtRow.{StmtRow};
ghost use Rattle.cas_thread.specs.Effects.{first_lock, lock_in};
ghost use Rattle.cas_thread.specs.Thread.{OfNextStep, lock_of as lock_taken};
ghost use Rattle.cas_thread.specs.Continuations.{IsContinuation};

use crate::config::{Config, rows_of};
use crate::continuation::ContItem;
use crate::first::first_row;
use crate::step::newest;
use crate::take::lock_of;
use cas_typed::{StmtRow, StmtRowForm};
use cas_whole::Program;

// The item of the lock that a row takes, if it takes one.
fn locked_in(row: &StmtRow) -> Option<u32>
    ensures { (rows : List StmtRow) (n : ℕ) (a : TypedStmtTree) → IsRow rows n a row.now.place row.now.form →
        result ≡ lock_in a }
{
    match &row.form {
        StmtRowForm::Lock(item) => Some(*item),
        _ => None,
    }
}

// The item of the lock that the first item takes, if it takes one.
fn first_locked(rows: &[StmtRow], cont: &[ContItem]) -> Option<u32>
    ensures { (it : List items.ContItem) → IsContinuation rows.now (reverse cont.now) it → result ≡ first_lock it }
{
    locked_in(first_row(rows, cont)?)
}

/// The word of the lock that the next step of a thread takes, if it takes one. It evaluates nothing.
pub fn next_lock(program: &Program, config: &Config) -> Option<u32>
    ensures { (words : List ℕ) → OfNextStep program.now config.now words (λ s. result ≡ lock_taken s.act) }
{
    let frame = newest(config)?;
    let rows = rows_of(program.modules(), frame.unit, frame.place);
    let item = first_locked(rows, frame.cont.as_slice())?;
    lock_of(program.items(frame.unit), item)
}
