//! Initial values of globals.

ghost use Rattle.std.specs.Prelude.{◌≡◌, ◌≢◌, ◌<◌, ◌≤◌, ◌++◌, ◌∷◌, [], ℕ, Bool, length, List, Option, Some, None};
ghost use Rattle.std.specs.Prelude.{IfOk, IfErr};
ghost use Rattle.cas_base.specs.declared.kind.Ty.TheVariants.{Int, Array};
ghost use Rattle.cas_syntax.specs.declared.tree.Ident.{Ident};
ghost use Rattle.cas_syntax.specs.Tree.{ItemTree};
ghost use Rattle.cas_read_expr.specs.declared.stop.Stop.TheVariants.{Memory};
ghost use Rattle.cas_parse.specs.Frames.{Sort, CellValue, CellNegative, WantCells, NegativeCells, HaveCells};
ghost use Rattle.cas_parse.specs.Frames.{MoreCells, CellsEnd};
ghost use Rattle.cas_read_expr.specs.Follow.{Follows, verdict};
ghost use Rattle.cas_read.specs.FollowItems.{data_of, has_value_or_end};

use cas_base::{Kind, Seq, narrow, sub};
use cas_lex::{Sign, Token, TokenKind};
use cas_read_expr::stop::{Stop, next_token, unexpected_outside};
use std::alloc::Global;

/// An initial value of a cell of this kind, and the rest.
pub fn value(tokens: &[Token], kind: Kind) -> Result<(u32, &[Token]), Stop>
    ensures single { (s : Sort) (d : Bool) (x : Ident) (items : List ItemTree)
        → Follows result (verdict tokens.now (CellValue (data_of s d kind) x items) [])
        (λ p. verdict p.1.now (CellsEnd (data_of s d kind) x (Int kind) (p.0 ∷ []) items) []) }
    ensures listed { (s : Sort) (d : Bool) (x : Ident) (n : ℕ) (vs : List ℕ) (items : List ItemTree)
        → Follows result (verdict tokens.now (WantCells (data_of s d kind) x n vs items) [])
        (λ p. verdict p.1.now (HaveCells (data_of s d kind) x n (vs ++ p.0 ∷ []) items) []) }
    ensures shorter { IfOk result (λ p. length p.1.now < length tokens.now) }
    ensures faults { IfErr result (λ e. e ≢ Memory) }
{
    let (token, rest) = next_token(tokens)?;
    match token.kind {
        TokenKind::Literal(value, _) => Ok((narrow(value, kind), rest)),
        TokenKind::Sign(Sign::Minus) => negative(rest, kind),
        _ => Err(unexpected_outside(tokens)),
    }
}

// A negative value of a cell of this kind, after `-`.
fn negative(tokens: &[Token], kind: Kind) -> Result<(u32, &[Token]), Stop>
    ensures single { (s : Sort) (d : Bool) (x : Ident) (items : List ItemTree)
        → Follows result (verdict tokens.now (CellNegative (data_of s d kind) x items) [])
        (λ p. verdict p.1.now (CellsEnd (data_of s d kind) x (Int kind) (p.0 ∷ []) items) []) }
    ensures listed { (s : Sort) (d : Bool) (x : Ident) (n : ℕ) (vs : List ℕ) (items : List ItemTree)
        → Follows result (verdict tokens.now (NegativeCells (data_of s d kind) x n vs items) [])
        (λ p. verdict p.1.now (HaveCells (data_of s d kind) x n (vs ++ p.0 ∷ []) items) []) }
    ensures shorter { IfOk result (λ p. length p.1.now < length tokens.now) }
    ensures faults { IfErr result (λ e. e ≢ Memory) }
{
    let (token, rest) = next_token(tokens)?;
    match token.kind {
        TokenKind::Literal(value, _) => Ok((narrow(sub(0, value), kind), rest)),
        _ => Err(unexpected_outside(tokens)),
    }
}

/// The initial values of cells of this kind, after `{`, and the rest after `}`.
pub fn values(alloc: Global, tokens: &[Token], kind: Kind) -> Result<(Seq<u32>, &[Token]), Stop>
    ensures follows { (s : Sort) (d : Bool) (x : Ident) (n : ℕ) (items : List ItemTree)
        → Follows result (verdict tokens.now (WantCells (data_of s d kind) x n [] items) [])
        (λ p. verdict p.1.now (CellsEnd (data_of s d kind) x (Array kind n) p.0 items) []) }
    ensures shorter { IfOk result (λ p. length p.1.now < length tokens.now) }
{
    let (first, mut rest) = value(tokens, kind)?;
    let mut all = Vec::new(alloc);
    all.push(first)?;
    'values: loop {
        let (next, after) = next_value(rest, kind)?;
        rest = after;
        match next {
            Some(value) => all.push(value)?,
            None => return Ok((Seq::of(all), rest)),
        }
    }
}

// A further value after one of a list, or none if the list ends.
fn next_value(tokens: &[Token], kind: Kind) -> Result<(Option<u32>, &[Token]), Stop>
    ensures follows { (s : Sort) (d : Bool) (x : Ident) (n : ℕ) (vs : List ℕ) (items : List ItemTree)
        → Follows result (verdict tokens.now (HaveCells (data_of s d kind) x n vs items) [])
        (λ p. has_value_or_end p.0 p.1.now (data_of s d kind) x n vs items) }
    ensures shorter { IfOk result (λ p. length p.1.now < length tokens.now) }
    ensures faults { IfErr result (λ e. e ≢ Memory) }
{
    let (token, rest) = next_token(tokens)?;
    match token.kind {
        TokenKind::Sign(Sign::Comma) => value_or_end(rest, kind),
        TokenKind::Sign(Sign::CloseBrace) => Ok((None, rest)),
        _ => Err(unexpected_outside(tokens)),
    }
}

// A further value after a comma, or none if the list ends.
fn value_or_end(tokens: &[Token], kind: Kind) -> Result<(Option<u32>, &[Token]), Stop>
    ensures follows { (s : Sort) (d : Bool) (x : Ident) (n : ℕ) (vs : List ℕ) (items : List ItemTree)
        → Follows result (verdict tokens.now (MoreCells (data_of s d kind) x n vs items) [])
        (λ p. has_value_or_end p.0 p.1.now (data_of s d kind) x n vs items) }
    ensures shorter { IfOk result (λ p. length p.1.now < length tokens.now) }
    ensures faults { IfErr result (λ e. e ≢ Memory) }
{
    let (token, rest) = next_token(tokens)?;
    match token.kind {
        TokenKind::Sign(Sign::CloseBrace) => Ok((None, rest)),
        _ => further_value(tokens, kind),
    }
}

// A further value of a list.
fn further_value(tokens: &[Token], kind: Kind) -> Result<(Option<u32>, &[Token]), Stop>
    ensures follows { (s : Sort) (d : Bool) (x : Ident) (n : ℕ) (vs : List ℕ) (items : List ItemTree)
        → Follows result (verdict tokens.now (WantCells (data_of s d kind) x n vs items) [])
        (λ p. has_value_or_end p.0 p.1.now (data_of s d kind) x n vs items) }
    ensures shorter { IfOk result (λ p. length p.1.now < length tokens.now) }
    ensures faults { IfErr result (λ e. e ≢ Memory) }
{
    let (value, rest) = value(tokens, kind)?;
    Ok((Some(value), rest))
}
