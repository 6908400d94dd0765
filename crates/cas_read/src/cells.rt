//! Names, types and initial values of globals.

ghost use Rattle.std.specs.Prelude.{◌≡◌, ◌≢◌, ◌<◌, ◌≤◌, ◌++◌, ◌∷◌, [], ℕ, length, List, Option, IfOk, IfErr, Bool};
ghost use Rattle.std.specs.Prelude.{false};
ghost use Rattle.cas_base.specs.declared.kind.Ty.{Ty};
ghost use Rattle.cas_lex.specs.declared.token.Sign.TheVariants as sg;
ghost use Rattle.cas_syntax.specs.declared.tree.Ident.{Ident};
ghost use Rattle.cas_syntax.specs.Tree.{ItemTree};
ghost use Rattle.cas_read_expr.specs.declared.stop.Stop.TheVariants.{Memory};
ghost use Rattle.cas_parse.specs.Frames.{Data, Sort, Expect, HaveKind, CellsKind, CellName, CellLength, CellArray};
ghost use Rattle.cas_parse.specs.Frames.{CellValue, WantCells, CellsEnd, InItems};
ghost use Rattle.cas_parse.specs.Machine as machine;
ghost use Rattle.cas_read_expr.specs.Follow.{Follows, verdict};
ghost use Rattle.cas_read.specs.FollowItems.{data_of};

use crate::values::{value, values};
use cas_base::{Kind, Seq, Ty};
use cas_lex::{Sign, Token, TokenKind};
use cas_read_expr::front::{expect_outside, ident};
use cas_read_expr::stop::{Stop, left_out, next_token, unexpected_outside};
use cas_syntax::Ident;
use std::alloc::Global;

/// A global's type and its initial values.
#[derive(Debug, Drop)]
pub struct Contents {
    pub ty: Ty,
    pub values: Seq<u32>,
}

/// The name, the type and the initial values of a global of this kind, and the rest after `;`.
pub fn cells(
    alloc: Global,
    tokens: &[Token],
    defined: bool,
    kind: Kind,
) -> Result<(Ident, Contents, &[Token]), Stop>
    ensures follows { (b : Option ℕ) (s : Sort) (items : List ItemTree)
        → Follows result (verdict tokens.now (HaveKind b kind) (CellsKind s defined items ∷ []))
        (λ p. verdict p.2.now (InItems (items ++ machine.cells (data_of s defined kind) p.0 p.1.ty p.1.values ∷ []))
        []) }
    ensures shorter { IfOk result (λ p. length p.2.now < length tokens.now) }
{
    let (token, rest) = next_token(tokens)?;
    match &token.kind {
        TokenKind::Name(name) => {
            let name = ident(alloc, name, token.place)?;
            let (contents, rest) = behind_name(alloc, rest, defined, kind)?;
            Ok((name, contents, rest))
        }
        _ => Err(unexpected_outside(tokens)),
    }
}

// The type and the initial values of a global, after its name.
fn behind_name(
    alloc: Global,
    tokens: &[Token],
    defined: bool,
    kind: Kind,
) -> Result<(Contents, &[Token]), Stop>
    ensures follows { (s : Sort) (x : Ident) (items : List ItemTree)
        → Follows result (verdict tokens.now (CellName (data_of s defined kind) x items) [])
        (λ p. verdict p.1.now (InItems (items ++ machine.cells (data_of s defined kind) x p.0.ty p.0.values ∷ []))
        []) }
    ensures shorter { IfOk result (λ p. length p.1.now < length tokens.now) }
{
    let (token, rest) = next_token(tokens)?;
    match token.kind {
        TokenKind::Sign(Sign::OpenBracket) => array(alloc, rest, defined, kind),
        TokenKind::Sign(Sign::Equal) if defined => one_cell(alloc, rest, kind),
        TokenKind::Sign(Sign::Semicolon) => Ok((without_values(alloc, Ty::Int(kind)), rest)),
        _ => Err(unexpected_outside(tokens)),
    }
}

// The initial value of a global of one cell, after `=`.
fn one_cell(alloc: Global, tokens: &[Token], kind: Kind) -> Result<(Contents, &[Token]), Stop>
    ensures follows { (s : Sort) (d : Bool) (x : Ident) (items : List ItemTree)
        → Follows result (verdict tokens.now (CellValue (data_of s d kind) x items) [])
        (λ p. verdict p.1.now (InItems (items ++ machine.cells (data_of s d kind) x p.0.ty p.0.values ∷ [])) []) }
    ensures shorter { IfOk result (λ p. length p.1.now < length tokens.now) }
{
    let (value, rest) = value(tokens, kind)?;
    let rest = ended(rest)?;
    let mut values = Vec::new(alloc);
    values.push(value)?;
    let values = Seq::of(values);
    Ok((
        Contents {
            ty: Ty::Int(kind),
            values,
        },
        rest,
    ))
}

// The length and the initial values of an array, after `[`.
fn array(
    alloc: Global,
    tokens: &[Token],
    defined: bool,
    kind: Kind,
) -> Result<(Contents, &[Token]), Stop>
    ensures follows { (s : Sort) (x : Ident) (items : List ItemTree)
        → Follows result (verdict tokens.now (CellLength (data_of s defined kind) x items) [])
        (λ p. verdict p.1.now (InItems (items ++ machine.cells (data_of s defined kind) x p.0.ty p.0.values ∷ []))
        []) }
    ensures shorter { IfOk result (λ p. length p.1.now < length tokens.now) }
{
    let (token, rest) = next_token(tokens)?;
    match token.kind {
        TokenKind::Literal(len, _) => {
            let rest = expect_outside(rest, Sign::CloseBracket)?;
            elements(alloc, rest, defined, kind, len)
        }
        _ => Err(unexpected_outside(tokens)),
    }
}

// The initial values of an array of this length, after `]`.
fn elements(
    alloc: Global,
    tokens: &[Token],
    defined: bool,
    kind: Kind,
    len: u32,
) -> Result<(Contents, &[Token]), Stop>
    ensures follows { (s : Sort) (x : Ident) (items : List ItemTree)
        → Follows result (verdict tokens.now (CellArray (data_of s defined kind) x len items) [])
        (λ p. verdict p.1.now (InItems (items ++ machine.cells (data_of s defined kind) x p.0.ty p.0.values ∷ []))
        []) }
    ensures shorter { IfOk result (λ p. length p.1.now < length tokens.now) }
{
    let (token, rest) = next_token(tokens)?;
    match token.kind {
        TokenKind::Sign(Sign::OpenBracket) => Err(left_out(tokens)),
        TokenKind::Sign(Sign::Equal) if defined => some_elements(alloc, rest, kind, len),
        TokenKind::Sign(Sign::Semicolon) => Ok((without_values(alloc, Ty::Array(kind, len)), rest)),
        _ => Err(unexpected_outside(tokens)),
    }
}

// The initial values of an array of this length, after `=`.
fn some_elements(
    alloc: Global,
    tokens: &[Token],
    kind: Kind,
    len: u32,
) -> Result<(Contents, &[Token]), Stop>
    ensures follows { (s : Sort) (d : Bool) (x : Ident) (items : List ItemTree)
        → Follows result (verdict tokens.now
        (Expect false sg.OpenBrace (WantCells (data_of s d kind) x len [] items)) [])
        (λ p. verdict p.1.now (InItems (items ++ machine.cells (data_of s d kind) x p.0.ty p.0.values ∷ [])) []) }
    ensures shorter { IfOk result (λ p. length p.1.now < length tokens.now) }
{
    let rest = expect_outside(tokens, Sign::OpenBrace)?;
    let (values, rest) = values(alloc, rest, kind)?;
    let rest = ended(rest)?;
    Ok((
        Contents {
            ty: Ty::Array(kind, len),
            values,
        },
        rest,
    ))
}

// The rest after the `;` of a global.
fn ended(tokens: &[Token]) -> Result<&[Token], Stop>
    ensures follows { (d : Data) (x : Ident) (t : Ty) (vs : List ℕ) (items : List ItemTree)
        → Follows result (verdict tokens.now (CellsEnd d x t vs items) [])
        (λ rest. verdict rest.now (InItems (items ++ machine.cells d x t vs ∷ [])) []) }
    ensures shorter { IfOk result (λ rest. length rest.now < length tokens.now) }
    ensures faults { IfErr result (λ e. e ≢ Memory) }
{
    let (token, rest) = next_token(tokens)?;
    match token.kind {
        TokenKind::Sign(Sign::Semicolon) => Ok(rest),
        _ => Err(unexpected_outside(tokens)),
    }
}

// This type, and no initial value.
fn without_values(alloc: Global, ty: Ty) -> Contents
    ensures kept { result.ty ≡ ty }
    ensures values { result.values ≡ [] }
{
    Contents {
        ty,
        values: Seq::of(Vec::new(alloc)),
    }
}
