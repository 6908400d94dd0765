//! Functions with bodies, as steps need them.

ghost use Rattle.std.specs.Prelude.{◌≡◌, Some, IfSome, IsSome, slice_get};
ghost use Rattle.cas_typed.specs.Resolved.{TypedFunTree, TypedModuleTree};
ghost use Rattle.cas_typed.specs.Typed_as.{IsTypedAs};
ghost use Rattle.std.specs.Option.{option_map};
ghost use Rattle.cas_whole.specs.Bodies.{IsBodyIn, body_of, told};

use cas_base::{Place, Ty};
use cas_syntax::Item;
use cas_typed::{Typed, TypedFun, return_type};

/// A function with a body.
#[derive(Clone, Copy)]
pub struct Body<'a> {
    /// Its locals, and its statements by number.
    pub typed: &'a TypedFun,
    /// What it returns.
    pub ret: Ty,
    /// The place of its closing brace.
    pub closing: Place,
}

// A function with the item that it is, if that has a body.
fn body_at<'a>(typed: &'a TypedFun, items: &'a [Item]) -> Option<Body<'a>>
    ensures { option_map told result ≡ body_of typed.now (slice_get items.now typed.now.item) }
{
    match items.get(typed.item as usize) {
        Some(Item::Define(fun)) => Some(Body {
            typed,
            ret: return_type(&fun.decl.form),
            closing: fun.closing,
        }),
        _ => None,
    }
}

/// The function of a module at this place among those with bodies.
pub(crate) fn body_in(typed: &Typed, place: u32) -> Option<Body<'_>>
    ensures same { IfSome result (λ found. slice_get typed.now.functions place ≡ Some found.typed.now) }
    ensures found { IfSome result (λ found. (r : TypedModuleTree) → IsTypedAs typed.now r → IsBodyIn r place found) }
    ensures there { (r : TypedModuleTree) (it : TypedFunTree) → IsTypedAs typed.now r →
        slice_get r.functions place ≡ Some it → IsSome result }
{
    match typed.functions().get(place as usize) {
        Some(function) => body_at(function, typed.module().items.as_slice()),
        None => None,
    }
}
