//! Names of an item, where a text has them: those of parameters, and those in `holds`.

ghost use Rattle.std.specs.Prelude.{◌≡◌, IfOk, OnOk, [], ◌∷◌, map};
ghost use Rattle.std.specs.List.{list_any};
ghost use Rattle.std.specs.Str.{bytes_eq};
ghost use Rattle.cas_type.specs.Parts.{first_place, later_places, ident_of};
ghost use Rattle.cas_typed.specs.Modules.{placed};

use cas_base::{Name, NoMemory, Place};
use cas_syntax::Ident;
use std::alloc::Global;

/// A name where a text has it.
#[derive(Clone, Copy)]
pub struct Named<'a> {
    pub name: &'a Name,
    pub place: Place,
}

// The place of the first of several names: that of the item where there is none.
fn first_place(places: &[Place], last: Place) -> Place
    ensures { result ≡ first_place last places.now }
{
    match places.split_first() {
        Some((place, _)) => *place,
        None => last,
    }
}

// The places of the others.
fn later_places(places: &[Place]) -> &[Place]
    ensures { result.now ≡ later_places places.now }
{
    match places.split_first() {
        Some((_, others)) => others,
        None => places,
    }
}

/// The names in an item's `holds`, at their places; one for which there is no place stands at the last place.
#[tactic(auto, using(crate::proofs::Part_lemmas::placed_step))]
pub fn held_names<'a>(
    alloc: Global,
    names: &'a [Name],
    places: &[Place],
    last: Place,
) -> Result<Vec<Named<'a>>, NoMemory>
    ensures { IfOk result (λ found. map ident_of found.items ≡ placed last names.now places.now) }
{
    let mut found = Vec::new(alloc);
    let mut rest = names;
    let mut behind = places;
    'each: while let Some((name, others)) = rest.split_first() {
        let place = first_place(behind, last);
        found.push(Named { name, place })?;
        rest = others;
        behind = later_places(behind);
    }
    Ok(found)
}

/// The names of parameters.
pub fn parameter_names<'a>(alloc: Global, params: &'a [Ident]) -> Result<Vec<Named<'a>>, NoMemory>
    ensures { IfOk result (λ found. map ident_of found.items ≡ params.now) }
{
    let mut found = Vec::new(alloc);
    let mut rest = params;
    'each: while let Some((ident, others)) = rest.split_first() {
        found.push(Named {
            name: &ident.name,
            place: ident.place,
        })?;
        rest = others;
    }
    Ok(found)
}
