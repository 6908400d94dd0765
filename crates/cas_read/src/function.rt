//! Functions, with a body or without.

ghost use Rattle.std.specs.Prelude.{◌≡◌, ◌≢◌, ◌<◌, ◌≤◌, ◌++◌, ◌∷◌, [], length, List, IfOk, IfErr, Bool, false};
ghost use Rattle.cas_base.specs.declared.kind.Ty.{Ty};
ghost use Rattle.cas_syntax.specs.Items.{declared};
ghost use Rattle.cas_syntax.specs.Tree as tree;
ghost use Rattle.cas_syntax.specs.Tree.{ItemTree, item_tree, no_more};
ghost use Rattle.cas_read_expr.specs.declared.stop.Stop.TheVariants.{Memory};
ghost use Rattle.cas_parse.specs.Frames.{Opening, FunctionName, WantParameters, WantFunction, AfterHead, InItems};
ghost use Rattle.cas_parse.specs.Frames.{InList, BodyOf};
ghost use Rattle.cas_parse.specs.Machine as machine;
ghost use Rattle.cas_read_expr.specs.Follow.{Follows, verdict};
ghost use Rattle.cas_read.specs.FollowItems.{opening};

use crate::held::held_at;
use crate::param::parameters_at;
use cas_base::{Decl, Form, Place, Seq, Ty};
use cas_lex::{Sign, Token, TokenKind};
use cas_read_expr::front::ident;
use cas_read_expr::stop::{Stop, left_out, next_token, unexpected_outside};
use cas_read_stmt::stmt::body;
use cas_syntax::{Fun, Ident, Item};
use std::alloc::Global;

// A function up to its body.
#[derive(Debug, Drop)]
struct Head {
    name: Ident,
    form: Form,
    // whether no `extern` precedes it
    defined: bool,
    // the parameters' names, of those that have one
    params: Vec<Option<Ident>>,
    // the places of the locks that it holds
    held: Seq<Place>,
}

/// A function that returns this type, from its name on, and the rest.
pub fn function(
    alloc: Global,
    tokens: &[Token],
    defined: bool,
    ret: Ty,
) -> Result<(Item, &[Token]), Stop>
    ensures follows { (items : List ItemTree) → Follows result
        (verdict tokens.now (WantFunction defined ret items) [])
        (λ p. verdict p.1.now (InItems (items ++ item_tree p.0 ∷ [])) []) }
    ensures shorter { IfOk result (λ p. length p.1.now < length tokens.now) }
{
    let (head, rest) = head_at(alloc, tokens, defined, ret)?;
    behind_head(alloc, rest, head)
}

// A function that returns this type, from its name up to its body.
fn head_at(
    alloc: Global,
    tokens: &[Token],
    defined: bool,
    ret: Ty,
) -> Result<(Head, &[Token]), Stop>
    ensures follows { (items : List ItemTree) → Follows result
        (verdict tokens.now (WantFunction defined ret items) [])
        (λ p. verdict p.1.now (AfterHead p.0.name p.0.form p.0.defined p.0.params.items p.0.held items) []) }
    ensures shorter { IfOk result (λ p. length p.1.now < length tokens.now) }
{
    let (name, rest) = function_name(alloc, tokens)?;
    let rest = opened(rest)?;
    let (parameters, rest) = parameters_at(alloc, rest)?;
    let (held, rest) = held_at(alloc, rest)?;
    let form = Form::Function {
        ret,
        params: Seq::of(parameters.types),
        holds: held.names,
    };
    let head = Head {
        name,
        form,
        defined,
        params: parameters.names,
        held: held.places,
    };
    Ok((head, rest))
}

// The name of a function.
fn function_name(alloc: Global, tokens: &[Token]) -> Result<(Ident, &[Token]), Stop>
    ensures follows { (d : Bool) (ret : Ty) (items : List ItemTree)
        → Follows result (verdict tokens.now (WantFunction d ret items) [])
        (λ p. verdict p.1.now (FunctionName (opening d ret p.0) items) []) }
    ensures shorter { IfOk result (λ p. length p.1.now < length tokens.now) }
{
    let (token, rest) = next_token(tokens)?;
    match &token.kind {
        TokenKind::Name(name) => Ok((ident(alloc, name, token.place)?, rest)),
        _ => Err(unexpected_outside(tokens)),
    }
}

// The rest after the `(` of a function. A global that is neither shared nor constant ends here.
fn opened(tokens: &[Token]) -> Result<&[Token], Stop>
    ensures follows { (o : Opening) (items : List ItemTree)
        → Follows result (verdict tokens.now (FunctionName o items) [])
        (λ rest. verdict rest.now (WantParameters o items) []) }
    ensures shorter { IfOk result (λ rest. length rest.now < length tokens.now) }
    ensures faults { IfErr result (λ e. e ≢ Memory) }
{
    let (token, rest) = next_token(tokens)?;
    match token.kind {
        TokenKind::Sign(Sign::OpenParen) => Ok(rest),
        TokenKind::Sign(Sign::OpenBracket | Sign::Equal | Sign::Semicolon) => Err(left_out(tokens)),
        _ => Err(unexpected_outside(tokens)),
    }
}

// The function with this head: without a body, or with one, and the rest.
fn behind_head(alloc: Global, tokens: &[Token], head: Head) -> Result<(Item, &[Token]), Stop>
    ensures follows { (items : List ItemTree) → Follows result
        (verdict tokens.now (AfterHead head.name head.form head.defined head.params.items head.held items) [])
        (λ p. verdict p.1.now (InItems (items ++ item_tree p.0 ∷ [])) []) }
    ensures shorter { IfOk result (λ p. length p.1.now < length tokens.now) }
{
    let (token, rest) = next_token(tokens)?;
    match token.kind {
        TokenKind::Sign(Sign::Semicolon) => Ok((prototype(head), rest)),
        TokenKind::Sign(Sign::OpenBrace) if head.defined => match all_named(alloc, head.params)? {
            Some(params) => define(alloc, rest, head.name, head.form, params, head.held),
            None => Err(unexpected_outside(tokens)),
        },
        _ => Err(unexpected_outside(tokens)),
    }
}

// A function without its body.
fn prototype(head: Head) -> Item
    ensures { item_tree result ≡ tree.prototype (declared head.name.name head.form false) head.held head.name.place }
{
    let Ident { name, place } = head.name;
    let decl = Decl {
        name,
        form: head.form,
        defined: false,
    };
    Item::Prototype {
        decl,
        held: head.held,
        place,
    }
}

// The function with this body, after `{`, and the rest after `}`.
fn define(
    alloc: Global,
    tokens: &[Token],
    name: Ident,
    form: Form,
    params: Seq<Ident>,
    held: Seq<Place>,
) -> Result<(Item, &[Token]), Stop>
    ensures follows { (items : List ItemTree) → Follows result
        (verdict tokens.now (InList 0 no_more) (BodyOf name form params held items ∷ []))
        (λ p. verdict p.1.now (InItems (items ++ item_tree p.0 ∷ [])) []) }
    ensures shorter { IfOk result (λ p. length p.1.now < length tokens.now) }
{
    let (body, closing, rest) = body(alloc, tokens)?;
    let Ident { name, place } = name;
    let decl = Decl {
        name,
        form,
        defined: true,
    };
    let body = Seq::of(body);
    let fun = Fun {
        decl,
        params,
        held,
        body,
        place,
        closing,
    };
    Ok((Item::Define(fun), rest))
}

// The names of parameters, if all have one.
fn all_named(alloc: Global, params: Vec<Option<Ident>>) -> Result<Option<Seq<Ident>>, Stop>
    ensures value { IfOk result (λ found. found ≡ machine.all_named params.items) }
    ensures memory { IfErr result (λ e. e ≡ Memory) }
{
    let mut names = Vec::new(alloc);
    for param in params {
        match param {
            Some(name) => names.push(name)?,
            None => return Ok(None),
        }
    }
    Ok(Some(Seq::of(names)))
}
