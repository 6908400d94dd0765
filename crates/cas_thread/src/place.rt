//! The place of a thread's next step.

ghost use Rattle.std.specs.Prelude.{◌≡◌, ◌∷◌, ℕ, List, Some, option_map, reverse, slice_get};
ghost use Rattle.cas_base.specs.declared.place.Place.{Place};
ghost use Rattle.cas_step.specs.Continuation as items;
ghost use Rattle.cas_step.specs.Continuation.{place_of as place_among};
ghost use Rattle.cas_thread.specs.Thread.{IsUnfinished, OfNextStep};
ghost use Rattle.cas_thread.specs.Continuations.{IsContinuation};
ghost use Rattle.cas_thread.specs.declared.continuation.ContItem as code;
ghost use Rattle.cas_thread.specs.declared.continuation.ContItem.TheVariants.{Next};

use crate::config::{Config, rows_of};
use crate::continuation::ContItem;
use crate::control::{next_part, row_at};
use crate::first::first_item;
use crate::step::newest;
use cas_base::Place;
use cas_typed::StmtRow;
use cas_whole::Program;

// The place of the row with this number, if it exists.
fn place_at(rows: &[StmtRow], number: u32) -> Option<Place>
    ensures { result ≡ option_map (λ row. row.place) (slice_get rows.now number) }
{
    Some(row_at(rows, number)?.place)
}

// The place of the step of what a `for` does after a turn, if it is one.
#[tactic(auto, using(crate::proofs::Placing::never_next))]
fn next_place(rows: &[StmtRow], number: u32) -> Option<Place>
    ensures { (closing : Place) (rest : List code.ContItem) (it : List items.ContItem) →
        IsContinuation rows.now (Next number ∷ rest) it → result ≡ Some (place_among closing it) }
{
    match next_part(rows, number)? {
        Some(next) => place_at(rows, next),
        None => place_at(rows, number),
    }
}

// The place of an item's step, if it exists.
#[tactic(auto, using(crate::proofs::Placing::begin_is, crate::proofs::Placing::begun_is, crate::proofs::Placing::loop_is))]
fn item_place(rows: &[StmtRow], item: ContItem) -> Option<Place>
    ensures { (closing : Place) (rest : List code.ContItem) (it : List items.ContItem) →
        IsContinuation rows.now (item ∷ rest) it → result ≡ Some (place_among closing it) }
{
    match item {
        ContItem::Begin(number) => place_at(rows, number),
        ContItem::Begun(number) => place_at(rows, number),
        ContItem::Loop(number) => place_at(rows, number),
        ContItem::Next(number) => next_place(rows, number),
    }
}

// The place of the first item's step, or the closing brace.
fn first_place(rows: &[StmtRow], closing: Place, cont: &[ContItem]) -> Place
    ensures { (it : List items.ContItem) → IsContinuation rows.now (reverse cont.now) it →
        result ≡ place_among closing it }
{
    match first_item(cont) {
        Some(item) => match item_place(rows, item) {
            Some(place) => place,
            None => closing,
        },
        None => closing,
    }
}

/// The place of the next step of a thread that hasn't ended: the number of its module, and its place in the module's
/// text.
pub fn place_of(program: &Program, config: &Config) -> (u32, Place)
    requires { ∥ IsUnfinished program.now config.now ∥₁ }
    ensures { (words : List ℕ) → OfNextStep program.now config.now words
        (λ s. (result.0 ≡ s.unit) × (result.1 ≡ s.place)) }
{
    match newest(config) {
        Some(frame) => match program.function(frame.unit, frame.place) {
            Some(body) => {
                let rows = rows_of(program.modules(), frame.unit, frame.place);
                let place = first_place(rows, body.closing, frame.cont.as_slice());
                (frame.unit, place)
            }
            None => unreachable!(),
        },
        None => unreachable!(),
    }
}
