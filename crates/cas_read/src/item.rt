//! Items of modules.

ghost use Rattle.std.specs.Prelude.{◌≡◌, ◌<◌, ◌≤◌, ◌++◌, ◌∷◌, [], length, map, List, Option, None, Ok, IfOk, IfSome};
ghost use Rattle.std.specs.Prelude.{IfNone, Bool, true, false};
ghost use Rattle.cas_lex.specs.declared.token.Sign.TheVariants as sg;
ghost use Rattle.cas_syntax.specs.Items.{declared};
ghost use Rattle.cas_syntax.specs.Tree as tree;
ghost use Rattle.cas_syntax.specs.Tree.{ItemTree, item_tree};
ghost use Rattle.cas_parse.specs.Frames.{Constant, Expect, WantKind, ReturnKind, CellsKind, GlobalLock, GlobalGuard};
ghost use Rattle.cas_parse.specs.Frames.{InItems};
ghost use Rattle.cas_parse.specs.Machine.{Verdict};
ghost use Rattle.cas_read_expr.specs.Follow.{Follows, verdict};
ghost use Rattle.cas_read.specs.FollowItems.{begins_item};

use crate::cells::cells;
use crate::function::function;
use crate::param::typed;
use cas_base::{Decl, Form, Seq, Ty};
use cas_lex::{Sign, Token, TokenKind, Word};
use cas_read_expr::front::{expect_outside, ident};
use cas_read_expr::kind::kind;
use cas_read_expr::stop::{Stop, next_token, unexpected_outside};
use cas_syntax::{Ident, Item};
use std::alloc::Global;

/// The items that these tokens spell, all of them.
#[tactic(auto, using(crate::proofs::ItemSteps::items_push))]
pub fn items(alloc: Global, tokens: &[Token]) -> Result<Vec<Item>, Stop>
    ensures follows { Follows result (verdict tokens.now (InItems []) [])
        (λ all. let found : Verdict = Ok (map item_tree all.items) in found) }
{
    let mut all = Vec::new(alloc);
    let mut rest = tokens;
    'items: while !rest.is_empty() {
        let (next, after) = next_item(alloc, rest)?;
        all.push(next)?;
        rest = after;
    }
    Ok(all)
}

// The item that comes next, and the rest.
#[tactic(auto, using(crate::proofs::ItemSteps::behind_extern))]
fn next_item(alloc: Global, tokens: &[Token]) -> Result<(Item, &[Token]), Stop>
    requires { 0 < length tokens.now }
    ensures follows { (items : List ItemTree) → Follows result (verdict tokens.now (InItems items) [])
        (λ p. verdict p.1.now (InItems (items ++ item_tree p.0 ∷ [])) []) }
    ensures shorter { IfOk result (λ p. length p.1.now < length tokens.now) }
{
    let Some((token, rest)) = tokens.split_first() else {
        unreachable!()
    };
    match token.kind {
        TokenKind::Word(Word::Extern) => item(alloc, rest, false),
        _ => item(alloc, tokens, true),
    }
}

// An item, after `extern` if it isn't defined, and the rest.
fn item(alloc: Global, tokens: &[Token], defined: bool) -> Result<(Item, &[Token]), Stop>
    ensures follows { (items : List ItemTree) → Follows result (begins_item tokens.now defined items)
        (λ p. verdict p.1.now (InItems (items ++ item_tree p.0 ∷ [])) []) }
    ensures shorter { IfOk result (λ p. length p.1.now < length tokens.now) }
{
    let (token, rest) = next_token(tokens)?;
    match token.kind {
        TokenKind::Word(Word::Lock) => lock(alloc, rest, defined),
        TokenKind::Word(Word::Shared) => shared(alloc, rest, defined),
        TokenKind::Word(Word::Const) => table(alloc, rest, defined),
        TokenKind::Word(Word::Void) => function(alloc, rest, defined, Ty::Void),
        _ => typed_function(alloc, tokens, defined),
    }
}

// A function that returns a value.
fn typed_function(alloc: Global, tokens: &[Token], defined: bool) -> Result<(Item, &[Token]), Stop>
    ensures follows { (items : List ItemTree) → Follows result
        (verdict tokens.now (WantKind None) (ReturnKind defined items ∷ []))
        (λ p. verdict p.1.now (InItems (items ++ item_tree p.0 ∷ [])) []) }
    ensures shorter { IfOk result (λ p. length p.1.now < length tokens.now) }
{
    let (ty, rest) = typed(tokens)?;
    function(alloc, rest, defined, ty)
}

// A lock, from its name on.
fn lock(alloc: Global, tokens: &[Token], defined: bool) -> Result<(Item, &[Token]), Stop>
    ensures follows { (items : List ItemTree) → Follows result (verdict tokens.now (GlobalLock defined items) [])
        (λ p. verdict p.1.now (InItems (items ++ item_tree p.0 ∷ [])) []) }
    ensures shorter { IfOk result (λ p. length p.1.now < length tokens.now) }
{
    let (token, rest) = next_token(tokens)?;
    match &token.kind {
        TokenKind::Name(name) => {
            let name = ident(alloc, name, token.place)?;
            let rest = expect_outside(rest, Sign::Semicolon)?;
            let values = Seq::of(Vec::new(alloc));
            Ok((global(name, Form::Lock, defined, values), rest))
        }
        _ => Err(unexpected_outside(tokens)),
    }
}

// A shared global, after `shared`.
fn shared(alloc: Global, tokens: &[Token], defined: bool) -> Result<(Item, &[Token]), Stop>
    ensures follows { (items : List ItemTree) → Follows result
        (verdict tokens.now (Expect false sg.OpenParen (GlobalGuard defined items)) [])
        (λ p. verdict p.1.now (InItems (items ++ item_tree p.0 ∷ [])) []) }
    ensures shorter { IfOk result (λ p. length p.1.now < length tokens.now) }
{
    let rest = expect_outside(tokens, Sign::OpenParen)?;
    guarded(alloc, rest, defined)
}

// A shared global, from its guard's name on.
fn guarded(alloc: Global, tokens: &[Token], defined: bool) -> Result<(Item, &[Token]), Stop>
    ensures follows { (items : List ItemTree) → Follows result (verdict tokens.now (GlobalGuard defined items) [])
        (λ p. verdict p.1.now (InItems (items ++ item_tree p.0 ∷ [])) []) }
    ensures shorter { IfOk result (λ p. length p.1.now < length tokens.now) }
{
    let (token, rest) = next_token(tokens)?;
    match &token.kind {
        TokenKind::Name(name) => {
            let guard = ident(alloc, name, token.place)?;
            let rest = expect_outside(rest, Sign::CloseParen)?;
            let (kind, _, rest) = kind(rest, None)?;
            let (name, contents, rest) = cells(alloc, rest, defined, kind)?;
            let form = Form::Shared {
                ty: contents.ty,
                lock: guard.name,
            };
            Ok((global(name, form, defined, contents.values), rest))
        }
        _ => Err(unexpected_outside(tokens)),
    }
}

// A table of constants, after `const`.
fn table(alloc: Global, tokens: &[Token], defined: bool) -> Result<(Item, &[Token]), Stop>
    ensures follows { (items : List ItemTree) → Follows result
        (verdict tokens.now (WantKind None) (CellsKind Constant defined items ∷ []))
        (λ p. verdict p.1.now (InItems (items ++ item_tree p.0 ∷ [])) []) }
    ensures shorter { IfOk result (λ p. length p.1.now < length tokens.now) }
{
    let (kind, _, rest) = kind(tokens, None)?;
    let (name, contents, rest) = cells(alloc, rest, defined, kind)?;
    let form = Form::Table { ty: contents.ty };
    Ok((global(name, form, defined, contents.values), rest))
}

// A global that is no function, at the place of its name.
fn global(name: Ident, form: Form, defined: bool, values: Seq<u32>) -> Item
    ensures { item_tree result ≡ tree.global (declared name.name form defined) values name.place }
{
    let Ident { name, place } = name;
    let decl = Decl {
        name,
        form,
        defined,
    };
    Item::Global {
        decl,
        values,
        place,
    }
}
