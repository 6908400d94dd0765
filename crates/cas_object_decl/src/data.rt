//! The values of globals.

ghost use Rattle.std.specs.Prelude.{◌≡◌};
ghost use Rattle.std.specs.List.{list_all};
ghost use Rattle.cas_object_line.specs.Answers.{IsAnswer};
ghost use Rattle.cas_object_decl.specs.Chain.{all_of};
ghost use Rattle.cas_object_decl.specs.Data as spec;

use crate::field::Field;
use crate::kind::GlobalType;
use cas_base::{Seq, Ty};
use cas_object_line::{LineFault, Numeral, is_positive, word_of};
use std::alloc::Global;

/// The type of a global with its values, of which there is one for each element.
///
/// # Errors
///
/// `Form` exactly where they are no numbers or another count of them; else `Range` exactly where one of them or the
/// array's length is out of its range; `Memory`.
pub fn typed_values(
    alloc: Global,
    ty: &GlobalType,
    fields: &[Field],
) -> Result<(Ty, Seq<u32>), LineFault>
    ensures { IsAnswer result (spec.typed_values ty.now fields.now) }
{
    let values = values(alloc, ty, fields)?;
    match ty.ty() {
        Ok(ty) => Ok((ty, values)),
        Err(fault) => Err(fault),
    }
}

fn values(alloc: Global, ty: &GlobalType, fields: &[Field]) -> Result<Seq<u32>, LineFault>
    ensures { IsAnswer result (spec.values ty.now fields.now) }
{
    if are_numbers(fields) && fields.len() as u64 == ty.elements() {
        words_of(alloc, fields)
    } else {
        Err(LineFault::Form)
    }
}

fn are_numbers(fields: &[Field]) -> bool
    ensures { result ≡ list_all spec.is_number fields.now }
{
    fields.iter().all(|field| is_number(field))
}

/// Whether a field is a number, perhaps with `-`.
pub fn is_number(field: &Field) -> bool
    ensures { result ≡ spec.is_number field.now }
{
    numeral_of(field).is_some()
}

#[tactic(auto, using(crate::proofs::Chains::behind_next, crate::proofs::Chains::behind_fault))]
fn words_of(alloc: Global, fields: &[Field]) -> Result<Seq<u32>, LineFault>
    ensures { IsAnswer result (all_of spec.word_at fields.now) }
{
    let mut words = Vec::new(alloc);
    for field in fields {
        words.push(word_at(field)?)?;
    }
    Ok(Seq::of(words))
}

// The word whose signed reading is a number.
fn word_at(field: &Field) -> Result<u32, LineFault>
    ensures { result ≡ spec.word_at field.now }
{
    match numeral_of(field) {
        Some(numeral) => word_of(&numeral),
        None => Err(LineFault::Form),
    }
}

// A number, perhaps with `-`.
fn numeral_of<'a>(field: &Field<'a>) -> Option<Numeral<'a>>
    ensures { result ≡ spec.numeral_of field.now }
{
    match field {
        Field::Word(digits) if digits.is_numeral() => Some(Numeral {
            negative: false,
            digits: digits.again(),
        }),
        Field::Negative(digits) if is_positive(digits) => Some(Numeral {
            negative: true,
            digits: digits.again(),
        }),
        _ => None,
    }
}
