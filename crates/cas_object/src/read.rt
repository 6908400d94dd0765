//! Reading objects texts.

ghost use Rattle.std.specs.Prelude.{◌≡◌, ◌≤◌, ◌⊎◌, Ok, Err, MatchResult, length, map};
ghost use Rattle.cas_object.specs.Texts as spec;
ghost use Rattle.cas_object.specs.declared.fault.ObjectFault.TheVariants.{Memory};

use crate::fault::{ObjectCode, ObjectFault};
use crate::inside::Inside;
use crate::next::{At, next};
use cas_object_line::Tables;
use cas_object_text::Object;
use cas_pieces::{cut_line, split};
use std::alloc::Global;

/// The objects of a text. Time is linear in the text.
///
/// # Errors
///
/// `At` exactly as the text's first fault is, with the number of its line; `Memory` for want of memory.
#[tactic(auto, using(crate::proofs::Steps::read_next, crate::proofs::Steps::read_fault, crate::proofs::Steps::read_last))]
pub fn read_objects(alloc: Global, bytes: &[u8]) -> Result<Vec<Object>, ObjectFault>
    requires { length bytes.now ≤ 16777216 }
    ensures { MatchResult result (λ objects. spec.read bytes.now ≡ Ok (map (λ object. object.unit) objects.items))
        (λ fault. (fault ≡ Memory) ⊎ (spec.read bytes.now ≡ Err fault)) }
{
    let tables = Tables::new();
    let mut objects = Vec::new(alloc);
    let mut pieces = Vec::new(alloc);
    let mut inside = Inside::Text;
    let mut line = 1;
    let mut text = bytes;
    while let Some((front, after)) = cut_line(text) {
        split(&mut pieces, front)?;
        let at = At {
            alloc,
            tables: &tables,
            line,
        };
        inside = next(at, &mut objects, inside, &pieces)?;
        line += 1;
        text = after;
    }
    last_line(line, objects, &inside, text)
}

// The objects, unless the text ends where it may not.
fn last_line(
    line: u32,
    objects: Vec<Object>,
    inside: &Inside,
    text: &[u8],
) -> Result<Vec<Object>, ObjectFault>
    ensures { MatchResult result
        (λ found. spec.last_line line (spec.going_on (map (λ object. object.unit) objects.items) inside.now) text.now
        ≡ Ok (map (λ object. object.unit) found.items))
        (λ fault. spec.last_line line (spec.going_on (map (λ object. object.unit) objects.items) inside.now) text.now
        ≡ Err fault) }
{
    if !text.is_empty() {
        return Err(ObjectFault::At {
            code: ObjectCode::B2,
            line,
        });
    }
    match inside {
        Inside::Text if !objects.is_empty() => Ok(objects),
        _ => Err(ObjectFault::At {
            code: ObjectCode::B4,
            line,
        }),
    }
}
