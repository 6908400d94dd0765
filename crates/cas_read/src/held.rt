//! The locks that a function's caller holds.

ghost use Rattle.std.specs.Prelude.{◌≡◌, ◌≢◌, ◌<◌, ◌≤◌, ◌++◌, ◌∷◌, [], length, map, List, Option, IfOk, IfErr};
ghost use Rattle.cas_base.specs.declared.decl.Form.TheVariants as form;
ghost use Rattle.cas_base.specs.declared.kind.Ty.{Ty};
ghost use Rattle.cas_syntax.specs.declared.tree.Ident.{Ident};
ghost use Rattle.cas_syntax.specs.Items.{names_alone, places_alone};
ghost use Rattle.cas_syntax.specs.Tree.{ItemTree};
ghost use Rattle.cas_read_expr.specs.declared.stop.Stop.TheVariants.{Memory};
ghost use Rattle.cas_parse.specs.Frames.{Opening, AfterParameters, WantHeld, HaveHeld, AfterHead};
ghost use Rattle.cas_read_expr.specs.Follow.{Follows, verdict};
ghost use Rattle.cas_read.specs.FollowItems.{has_more_held};

use cas_base::{Name, Place, Seq};
use cas_lex::{Sign, Token, TokenKind, Word};
use cas_read_expr::front::{expect_outside, ident};
use cas_read_expr::stop::{Stop, next_token, unexpected_outside};
use cas_syntax::Ident;
use std::alloc::Global;

/// The names of locks that a function's caller holds, and their places.
#[derive(Debug, Drop)]
pub struct Held {
    pub names: Seq<Name>,
    pub places: Seq<Place>,
}

/// The locks that a function's caller holds, after the parameters, and the rest.
pub fn held_at(alloc: Global, tokens: &[Token]) -> Result<(Held, &[Token]), Stop>
    ensures follows { (o : Opening) (tys : List Ty) (xs : List (Option Ident)) (items : List ItemTree)
        → Follows result (verdict tokens.now (AfterParameters o tys xs items) [])
        (λ p. verdict p.1.now (AfterHead o.name (form.Function o.ret tys p.0.names) o.defined xs p.0.places items)
        []) }
    ensures no_longer { IfOk result (λ p. length p.1.now ≤ length tokens.now) }
{
    let (token, rest) = next_token(tokens)?;
    match token.kind {
        TokenKind::Word(Word::Holds) => {
            let rest = expect_outside(rest, Sign::OpenParen)?;
            let (locks, rest) = locks(alloc, rest)?;
            Ok((parted(alloc, locks)?, rest))
        }
        _ => Ok((none_held(alloc), tokens)),
    }
}

// No locks.
fn none_held(alloc: Global) -> Held
    ensures names { result.names ≡ [] }
    ensures places { result.places ≡ [] }
{
    Held {
        names: Seq::of(Vec::new(alloc)),
        places: Seq::of(Vec::new(alloc)),
    }
}

// The names of locks, after `(`, and the rest after `)`.
fn locks(alloc: Global, tokens: &[Token]) -> Result<(Vec<Ident>, &[Token]), Stop>
    ensures follows { (o : Opening) (tys : List Ty) (xs : List (Option Ident)) (items : List ItemTree)
        → Follows result (verdict tokens.now (WantHeld o tys xs [] items) [])
        (λ p. verdict p.1.now
        (AfterHead o.name (form.Function o.ret tys (names_alone p.0.items)) o.defined xs (places_alone p.0.items)
        items) []) }
    ensures shorter { IfOk result (λ p. length p.1.now < length tokens.now) }
{
    let mut all = Vec::new(alloc);
    let mut rest = tokens;
    'locks: loop {
        let (name, after) = lock(alloc, rest)?;
        all.push(name)?;
        let (goes_on, after) = more_locks(after)?;
        if !goes_on {
            return Ok((all, after));
        }
        rest = after;
    }
}

// The name of a lock.
fn lock(alloc: Global, tokens: &[Token]) -> Result<(Ident, &[Token]), Stop>
    ensures follows { (o : Opening) (tys : List Ty) (xs : List (Option Ident)) (held : List Ident)
        (items : List ItemTree) → Follows result (verdict tokens.now (WantHeld o tys xs held items) [])
        (λ p. verdict p.1.now (HaveHeld o tys xs (held ++ p.0 ∷ []) items) []) }
    ensures shorter { IfOk result (λ p. length p.1.now < length tokens.now) }
{
    let (token, rest) = next_token(tokens)?;
    match &token.kind {
        TokenKind::Name(name) => Ok((ident(alloc, name, token.place)?, rest)),
        _ => Err(unexpected_outside(tokens)),
    }
}

// Whether a further lock follows one, and the rest after the comma or the `)`.
fn more_locks(tokens: &[Token]) -> Result<(bool, &[Token]), Stop>
    ensures follows { (o : Opening) (tys : List Ty) (xs : List (Option Ident)) (held : List Ident)
        (items : List ItemTree) → Follows result (verdict tokens.now (HaveHeld o tys xs held items) [])
        (λ p. has_more_held p.0 p.1.now o tys xs held items) }
    ensures shorter { IfOk result (λ p. length p.1.now < length tokens.now) }
    ensures faults { IfErr result (λ e. e ≢ Memory) }
{
    let (token, rest) = next_token(tokens)?;
    match token.kind {
        TokenKind::Sign(Sign::Comma) => Ok((true, rest)),
        TokenKind::Sign(Sign::CloseParen) => Ok((false, rest)),
        _ => Err(unexpected_outside(tokens)),
    }
}

// The names and the places of locks.
#[tactic(auto, using(crate::proofs::ItemSteps::names_push, crate::proofs::ItemSteps::places_push))]
fn parted(alloc: Global, locks: Vec<Ident>) -> Result<Held, Stop>
    ensures names { IfOk result (λ h. h.names ≡ names_alone locks.items) }
    ensures places { IfOk result (λ h. h.places ≡ places_alone locks.items) }
    ensures memory { IfErr result (λ e. e ≡ Memory) }
{
    let mut names = Vec::new(alloc);
    let mut places = Vec::new(alloc);
    for lock in locks {
        places.push(lock.place)?;
        names.push(lock.name)?;
    }
    Ok(Held {
        names: Seq::of(names),
        places: Seq::of(places),
    })
}
