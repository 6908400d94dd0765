//! What items declare, and what functions return.

ghost use Rattle.std.specs.Prelude.{◌≡◌};
ghost use Rattle.cas_syntax.specs.Tree.{item_tree};
ghost use Rattle.cas_typed.specs.Modules as m;

use cas_base::{Decl, Form, Ty};
use cas_syntax::Item;

/// What an item declares.
pub fn declared(item: &Item) -> &Decl
    ensures { result.now ≡ m.decl_of (item_tree item.now) }
{
    match item {
        Item::Global { decl, .. } | Item::Prototype { decl, .. } => decl,
        Item::Define(fun) => &fun.decl,
    }
}

/// What a function of this form returns; `void` where the form isn't a function's.
pub fn return_type(form: &Form) -> Ty
    ensures { result ≡ m.return_type form.now }
{
    match form {
        Form::Function { ret, .. } => *ret,
        Form::Lock | Form::Shared { .. } | Form::Table { .. } => Ty::Void,
    }
}
