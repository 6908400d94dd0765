//! The first item of a continuation, and the row of its statement.

ghost use Rattle.std.specs.Prelude.{IfNone, IfSome, ◌≡◌, ⊤, [], ◌∷◌, ℕ, List, reverse};
ghost use Rattle.cas_step.specs.Continuation as items;
ghost use Rattle.cas_typed.specs.Numbered.{IsRow};
ghost use Rattle.cas_thread.specs.Effects.{FirstStatementIs};
ghost use Rattle.cas_thread.specs.Continuations.{IsAt, IsContinuation};
ghost use Rattle.cas_thread.specs.declared.continuation.ContItem as code;

use crate::continuation::ContItem;
use crate::control::{next_part, row_at};
use cas_typed::StmtRow;

/// The first item.
pub(crate) fn first_item(cont: &[ContItem]) -> Option<ContItem>
    ensures some { IfSome result (λ it. (rest : List code.ContItem) × (reverse cont.now ≡ it ∷ rest)) }
    ensures none { IfNone result (reverse cont.now ≡ []) }
{
    let (item, _) = cont.split_last()?;
    Some(*item)
}

// The number of the row of the first item's statement, if it has one.
fn first_number(rows: &[StmtRow], cont: &[ContItem]) -> Option<u32>
    ensures some { IfSome result (λ n. (it : List items.ContItem) → IsContinuation rows.now (reverse cont.now) it →
        FirstStatementIs (IsAt rows.now n) it) }
    ensures none { IfNone result ((it : List items.ContItem) → IsContinuation rows.now (reverse cont.now) it →
        ¬ (FirstStatementIs (λ _. ⊤) it)) }
{
    match first_item(cont)? {
        ContItem::Begin(number) => Some(number),
        ContItem::Next(number) => next_part(rows, number)?,
        ContItem::Begun(_) | ContItem::Loop(_) => None,
    }
}

/// The row of the first item's statement, if it has one.
pub(crate) fn first_row<'a>(rows: &'a [StmtRow], cont: &[ContItem]) -> Option<&'a StmtRow>
    ensures some { IfSome result (λ row. (it : List items.ContItem) → IsContinuation rows.now (reverse cont.now) it
        → FirstStatementIs (λ a. (n : ℕ) × IsRow rows.now n a row.now.place row.now.form) it) }
    ensures none { IfNone result ((it : List items.ContItem) → IsContinuation rows.now (reverse cont.now) it →
        ¬ (FirstStatementIs (λ _. ⊤) it)) }
{
    row_at(rows, first_number(rows, cont)?)
}
