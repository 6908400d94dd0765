//! What a function takes and holds.

ghost use Rattle.std.specs.Prelude.{◌≡◌, None, Some, MatchOption};
ghost use Rattle.std.specs.Option.{option_map};
ghost use Rattle.cas_object_line.specs.Answers.{IsAnswer};
ghost use Rattle.cas_object_decl.specs.Chain.{all_of};
ghost use Rattle.cas_object_decl.specs.Heads as spec;
ghost use Rattle.cas_object_decl.specs.Types.{param_type};
ghost use Rattle.cas_pieces.specs.Numbers.{capped};

use crate::field::Field;
use crate::kind::{param_type, return_type};
use cas_base::{Form, Name, Seq, Ty};
use cas_object_line::{LineFault, name_of};
use std::alloc::Global;

/// What a function is declared as: its return, its parameters after their count, and the locks that it holds after
/// their count.
///
/// # Errors
///
/// `Form` exactly where the fields are none of these; `Memory`.
pub fn function_form(alloc: Global, fields: &[Field]) -> Result<Form, LineFault>
    ensures { IsAnswer result (spec.function_form fields.now) }
{
    match fields {
        [ret, rest @ ..] => match return_type(ret) {
            Ok(ret) => with_params(alloc, ret, rest),
            Err(fault) => Err(fault),
        },
        [] => Err(LineFault::Form),
    }
}

fn with_params(alloc: Global, ret: Ty, fields: &[Field]) -> Result<Form, LineFault>
    ensures { IsAnswer result (spec.with_params ret (spec.counted fields.now)) }
{
    match counted(fields) {
        Some((params, rest)) => {
            let params = types_of(alloc, params)?;
            let holds = held(alloc, rest)?;
            Ok(Form::Function { ret, params, holds })
        }
        None => Err(LineFault::Form),
    }
}

// As many fields as the count before them says, and what follows them.
fn counted<'f, 'a>(fields: &'f [Field<'a>]) -> Option<(&'f [Field<'a>], &'f [Field<'a>])>
    ensures { MatchOption result (spec.counted fields.now ≡ None) (λ p. spec.counted fields.now
        ≡ Some (p.0.now, p.1.now)) }
{
    match fields {
        [count, rest @ ..] => match count_of(count) {
            Some(count) if count <= rest.len() as u64 => Some(rest.split_at(count as usize)),
            _ => None,
        },
        [] => None,
    }
}

// A count, or the largest `u64` where it is larger.
fn count_of(field: &Field) -> Option<u64>
    ensures { result ≡ option_map capped (spec.count_of field.now) }
{
    match field {
        Field::Word(digits) => digits.number(),
        _ => None,
    }
}

// The locks that a function holds, with nothing after them.
fn held(alloc: Global, fields: &[Field]) -> Result<Seq<Name>, LineFault>
    ensures { IsAnswer result (spec.held (spec.counted fields.now)) }
{
    match counted(fields) {
        Some((locks, [])) => names_of(alloc, locks),
        _ => Err(LineFault::Form),
    }
}

#[tactic(auto, using(crate::proofs::Chains::behind_next, crate::proofs::Chains::behind_fault))]
fn types_of(alloc: Global, fields: &[Field]) -> Result<Seq<Ty>, LineFault>
    ensures { IsAnswer result (all_of param_type fields.now) }
{
    let mut types = Vec::new(alloc);
    for field in fields {
        types.push(param_type(field)?)?;
    }
    Ok(Seq::of(types))
}

#[tactic(auto, using(crate::proofs::Chains::behind_next, crate::proofs::Chains::behind_fault))]
fn names_of(alloc: Global, fields: &[Field]) -> Result<Seq<Name>, LineFault>
    ensures { IsAnswer result (all_of spec.name_at fields.now) }
{
    let mut names = Vec::new(alloc);
    for field in fields {
        names.push(name_at(alloc, field)?)?;
    }
    Ok(Seq::of(names))
}

/// The name that a field is.
///
/// # Errors
///
/// `Form` exactly where it is none; `Memory`.
pub fn name_at(alloc: Global, field: &Field) -> Result<Name, LineFault>
    ensures { IsAnswer result (spec.name_at field.now) }
{
    match field {
        Field::Word(word) => name_of(alloc, word),
        _ => Err(LineFault::Form),
    }
}
