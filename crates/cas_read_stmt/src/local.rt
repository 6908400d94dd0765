//! Locals.

ghost use Rattle.std.specs.Prelude.{◌≡◌, ◌≢◌, ◌<◌, ◌≤◌, ◌∷◌, ℕ, length, List, IfOk, IfErr, true};
ghost use Rattle.cas_syntax.specs.Tree.{stmt_tree, stmt_trees};
ghost use Rattle.cas_syntax.specs.Tree as tree;
ghost use Rattle.cas_read_expr.specs.declared.stop.Stop.TheVariants.{Memory};
ghost use Rattle.cas_parse.specs.Frames.{Frame, Begun, WantValue, WantLocal, LocalName, LocalStar, LocalPointer};
ghost use Rattle.cas_parse.specs.Frames.{LocalLength, HaveLocal, InList, Locals};
ghost use Rattle.cas_read_expr.specs.Follow.{Follows, verdict, next_begins_kind};
ghost use Rattle.cas_read_stmt.specs.FollowStmts.{begins_listed};

use cas_base::{Kind, Ty};
use cas_lex::{Sign, Token, TokenKind};
use cas_read_expr::call::{Value, value_at};
use cas_read_expr::front::{expect, ident};
use cas_read_expr::kind::kind;
use cas_read_expr::stop::{Stop, left_out, next_token, past_limit, unexpected};
use cas_syntax::{DEPTH_LIMIT, Ident, Init, Stmt, StmtForm};
use std::alloc::Global;

/// Locals inside so many statements, up to `;`, which are pushed to all, and the rest.
#[tactic(auto, using(crate::proofs::StmtSteps::listed_kind, crate::proofs::StmtSteps::listed_too_deep, crate::proofs::StmtSteps::had_locals_kind))]
pub fn locals_in<'a>(
    alloc: Global,
    tokens: &'a [Token],
    around: usize,
    all: &mut Vec<Stmt>,
) -> Result<&'a [Token], Stop>
    requires { next_begins_kind tokens.now ≡ true }
    ensures follows { (st : List Frame) → Follows result
        (begins_listed tokens.now around (stmt_trees all.old.items) st)
        (λ rest. verdict rest.now (InList around (stmt_trees all.new.items)) st) }
    ensures shorter { IfOk result (λ rest. length rest.now < length tokens.now) }
{
    if around >= DEPTH_LIMIT {
        return Err(past_limit(tokens));
    }
    let (kind, _, rest) = kind(tokens, None)?;
    locals(alloc, kind, rest, all)
}

/// Locals of this kind up to `;`, which are pushed to all, and the rest.
#[tactic(auto, using(crate::proofs::Steps::had_local, crate::proofs::Trees::stmts_push))]
pub fn locals<'a>(
    alloc: Global,
    kind: Kind,
    tokens: &'a [Token],
    all: &mut Vec<Stmt>,
) -> Result<&'a [Token], Stop>
    ensures follows { (n : ℕ) (st : List Frame) → Follows result
        (verdict tokens.now (WantLocal kind) (Locals n kind (stmt_trees all.old.items) ∷ st))
        (λ rest. verdict rest.now (InList n (stmt_trees all.new.items)) st) }
    ensures shorter { IfOk result (λ rest. length rest.now < length tokens.now) }
{
    let mut rest = tokens;
    'locals: loop {
        let (next, after) = local(alloc, kind, rest)?;
        all.push(next)?;
        let (token, behind) = next_token(after)?;
        match token.kind {
            TokenKind::Sign(Sign::Comma) => rest = behind,
            TokenKind::Sign(Sign::Semicolon) => return Ok(behind),
            _ => return Err(unexpected(&token.kind, after)),
        }
    }
}

/// A local of this kind.
pub fn local(alloc: Global, kind: Kind, tokens: &[Token]) -> Result<(Stmt, &[Token]), Stop>
    ensures follows { (st : List Frame) → Follows result (verdict tokens.now (WantLocal kind) st)
        (λ p. verdict p.1.now (HaveLocal (stmt_tree p.0)) st) }
    ensures shorter { IfOk result (λ p. length p.1.now < length tokens.now) }
{
    let (token, rest) = next_token(tokens)?;
    match &token.kind {
        TokenKind::Name(name) => {
            let name = ident(alloc, name, token.place)?;
            variable(alloc, kind, name, rest)
        }
        TokenKind::Sign(Sign::Star) => pointer(alloc, kind, rest),
        _ => Err(unexpected(&token.kind, tokens)),
    }
}

// A variable or an array, after its name.
fn variable(
    alloc: Global,
    kind: Kind,
    name: Ident,
    tokens: &[Token],
) -> Result<(Stmt, &[Token]), Stop>
    ensures follows { (st : List Frame) → Follows result (verdict tokens.now (LocalName kind name) st)
        (λ p. verdict p.1.now (HaveLocal (stmt_tree p.0)) st) }
    ensures no_longer { IfOk result (λ p. length p.1.now ≤ length tokens.now) }
{
    let (token, rest) = next_token(tokens)?;
    match token.kind {
        TokenKind::Sign(Sign::OpenBracket) => array(kind, name, rest),
        TokenKind::Sign(Sign::Equal) => begun(alloc, Ty::Int(kind), name, rest),
        _ => Ok((declared(Ty::Int(kind), name, Init::Nothing), tokens)),
    }
}

// A pointer, after `*`.
fn pointer(alloc: Global, kind: Kind, tokens: &[Token]) -> Result<(Stmt, &[Token]), Stop>
    ensures follows { (st : List Frame) → Follows result (verdict tokens.now (LocalStar kind) st)
        (λ p. verdict p.1.now (HaveLocal (stmt_tree p.0)) st) }
    ensures shorter { IfOk result (λ p. length p.1.now < length tokens.now) }
{
    let (token, rest) = next_token(tokens)?;
    match &token.kind {
        TokenKind::Name(name) => {
            let name = ident(alloc, name, token.place)?;
            named_pointer(alloc, kind, name, rest)
        }
        TokenKind::Sign(Sign::Star) => Err(left_out(tokens)),
        _ => Err(unexpected(&token.kind, tokens)),
    }
}

// A pointer, after its name.
fn named_pointer(
    alloc: Global,
    kind: Kind,
    name: Ident,
    tokens: &[Token],
) -> Result<(Stmt, &[Token]), Stop>
    ensures follows { (st : List Frame) → Follows result (verdict tokens.now (LocalPointer kind name) st)
        (λ p. verdict p.1.now (HaveLocal (stmt_tree p.0)) st) }
    ensures no_longer { IfOk result (λ p. length p.1.now ≤ length tokens.now) }
{
    let (token, rest) = next_token(tokens)?;
    match token.kind {
        TokenKind::Sign(Sign::OpenBracket) => Err(left_out(tokens)),
        TokenKind::Sign(Sign::Equal) => begun(alloc, Ty::Ptr(kind), name, rest),
        _ => Ok((declared(Ty::Ptr(kind), name, Init::Nothing), tokens)),
    }
}

// An array, after `[`.
fn array(kind: Kind, name: Ident, tokens: &[Token]) -> Result<(Stmt, &[Token]), Stop>
    ensures follows { (st : List Frame) → Follows result (verdict tokens.now (LocalLength kind name) st)
        (λ p. verdict p.1.now (HaveLocal (stmt_tree p.0)) st) }
    ensures shorter { IfOk result (λ p. length p.1.now < length tokens.now) }
    ensures faults { IfErr result (λ e. e ≢ Memory) }
{
    let (token, rest) = next_token(tokens)?;
    let TokenKind::Literal(len, _) = token.kind else {
        return Err(unexpected(&token.kind, tokens));
    };
    let rest = expect(rest, Sign::CloseBracket)?;
    match rest.split_first() {
        Some(
            (
                Token {
                    kind: TokenKind::Sign(Sign::OpenBracket | Sign::Equal),
                    ..
                },
                _,
            ),
        ) => Err(left_out(rest)),
        _ => Ok((declared(Ty::Array(kind, len), name, Init::Nothing), rest)),
    }
}

// A local that begins with a value, after `=`.
#[tactic(auto, using(crate::proofs::Steps::begun_value))]
fn begun(alloc: Global, ty: Ty, name: Ident, tokens: &[Token]) -> Result<(Stmt, &[Token]), Stop>
    ensures follows { (st : List Frame) → Follows result (verdict tokens.now (WantValue (Begun ty name)) st)
        (λ p. verdict p.1.now (HaveLocal (stmt_tree p.0)) st) }
    ensures shorter { IfOk result (λ p. length p.1.now < length tokens.now) }
{
    let (value, rest) = value_at(alloc, tokens)?;
    let init = match value {
        Value::Expr(value) => Init::Value(value),
        Value::Call(function, arguments) => Init::Call(function, arguments),
    };
    Ok((declared(ty, name, init), rest))
}

// The declaration of a local, at the place of its name.
fn declared(ty: Ty, name: Ident, init: Init) -> Stmt
    ensures { stmt_tree result ≡ tree.declare name.place ty name (tree.init_tree init) }
{
    Stmt {
        place: name.place,
        form: StmtForm::Declare(ty, name, init),
    }
}
