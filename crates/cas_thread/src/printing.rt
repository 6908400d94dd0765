//! Whether a thread outputs a word next.

ghost use Rattle.std.specs.Prelude.{◌≡◌, ◌≢◌, [], ◌∷◌, ℕ, List, reverse, false};
ghost use Rattle.std.specs.Bool.{OnFalse};
ghost use Rattle.cas_base.specs.declared.act.Act.TheVariants as act;
ghost use Rattle.cas_step.specs.Continuation as items;
ghost use Rattle.cas_step.specs.Continuation.{next};
ghost use Rattle.cas_step.specs.Step as step;
ghost use Rattle.cas_typed.specs.Numbered.{IsRow};
ghost use Rattle.cas_typed.specs.Resolved.{TypedModuleTree, TypedStmtTree};
ghost use Rattle.cas_typed.specs.declared.rows.StmtRow.{StmtRow};
ghost use Rattle.cas_whole.specs.Program_of.{IsProgramOf};
ghost use Rattle.cas_thread.specs.Effects.{is_print, prints_first};
ghost use Rattle.cas_thread.specs.Thread.{IsThread, OfNextStep};
ghost use Rattle.cas_thread.specs.Continuations.{IsContinuation};

use crate::config::{Config, rows_of};
use crate::continuation::ContItem;
use crate::first::first_row;
use crate::step::newest;
use cas_typed::{StmtRow, StmtRowForm};
use cas_whole::Program;

// Whether a row outputs a word.
fn prints_in(row: &StmtRow) -> bool
    ensures { (rows : List StmtRow) (n : ℕ) (a : TypedStmtTree) → IsRow rows n a row.now.place row.now.form →
        result ≡ is_print a }
{
    match &row.form {
        StmtRowForm::Print(_) => true,
        _ => false,
    }
}

// Whether the first item outputs a word.
fn first_prints(rows: &[StmtRow], cont: &[ContItem]) -> bool
    ensures { (it : List items.ContItem) → IsContinuation rows.now (reverse cont.now) it → result ≡ prints_first it }
{
    first_row(rows, cont).is_some_and(prints_in)
}

/// Whether the next step of a thread outputs a word, if it isn't Bad. It evaluates nothing.
pub fn next_prints(program: &Program, config: &Config) -> bool
    ensures first { (ms : List TypedModuleTree) (names : List (List ℕ)) (c : step.Config) (a : step.Activation)
        (older : List step.Activation) → IsProgramOf program.now ms names → IsThread program.now config.now c
        → c.activations ≡ a ∷ older → result ≡ prints_first a.cont }
    ensures none { (c : step.Config) → IsThread program.now config.now c → c.activations ≡ [] → result ≡ false }
    ensures other { OnFalse result ((words : List ℕ) →
        OfNextStep program.now config.now words (λ s. (n : ℕ) → s.act ≢ act.Out n)) }
{
    match newest(config) {
        Some(frame) => {
            let rows = rows_of(program.modules(), frame.unit, frame.place);
            first_prints(rows, frame.cont.as_slice())
        }
        None => false,
    }
}
