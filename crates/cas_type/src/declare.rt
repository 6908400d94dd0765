//! Locals, with what they begin with.

ghost use Rattle.std.specs.Prelude.{◌≡◌, OnOk, Some};
ghost use Rattle.cas_syntax.specs.Tree.{init_tree};
ghost use Rattle.cas_type.specs.Rows.{AnswersPlain};
ghost use Rattle.cas_typed.specs.Modules as m;
ghost use Rattle.cas_typed.specs.Scopes as s;
ghost use Rattle.cas_typed.specs.Walk as w;

use crate::fault::{TypeFault, misfit, refusal};
use crate::plain::{type_call, type_first};
use crate::scope::Scopes;
use cas_base::{Place, Ty};
use cas_syntax::{Ident, Init};
use cas_typed::{StmtRowForm, TypeCode};
use std::alloc::Global;

/// Whether a variable of this type has an element.
pub fn has_element(ty: Ty) -> bool
    ensures { result ≡ m.has_element (Some ty) }
{
    match ty {
        Ty::Void => false,
        Ty::Int(_) | Ty::Ptr(_) => true,
        Ty::Array(_, len) => len > 0,
    }
}

/// The declaration of a local, which is visible after its name.
pub fn declaration<'a>(
    alloc: Global,
    scopes: &mut Scopes<'a>,
    place: Place,
    ty: Ty,
    ident: &'a Ident,
    init: &Init,
) -> Result<StmtRowForm, TypeFault>
    ensures form { AnswersPlain place result (w.walk_declare scopes.old place ty ident.now (init_tree init.now)) }
    ensures scope { OnOk result (scopes.new ≡ s.declaring scopes.old ty ident.now) }
{
    if scopes.is_in_block(ident) {
        return Err(refusal(alloc, TypeCode::T2, ident));
    }
    scopes.declare(ident, ty)?;
    match init {
        Init::Nothing => {
            if has_element(ty) {
                Ok(StmtRowForm::Skip)
            } else {
                Err(misfit(TypeCode::T3, place))
            }
        }
        Init::Value(expr) => type_first(alloc, scopes, place, ident, expr),
        Init::Call(called, args) => type_call(
            alloc,
            scopes,
            place,
            Some(ident),
            called,
            args.as_slice(),
        ),
    }
}
