//! Statements, and what is in them.

ghost use Rattle.std.specs.Prelude.{◌≡◌, ◌<◌, ◌≤◌, ◌+◌, ◌∷◌, ◌++◌, [], length, List, IfOk, true, false};
ghost use Rattle.cas_base.specs.declared.decl.Form.{Form};
ghost use Rattle.cas_syntax.specs.declared.tree.Ident.{Ident};
ghost use Rattle.cas_base.specs.declared.place.Place.{Place};
ghost use Rattle.cas_lex.specs.declared.token.Sign.TheVariants as sg;
ghost use Rattle.cas_syntax.specs.Reading.{within};
ghost use Rattle.cas_syntax.specs.Tree.{stmt_tree, stmt_trees, no_more, ItemTree, ExprTree, StmtTree, if_};
ghost use Rattle.cas_parse.specs.Frames.{Frame, BodyOf, InItems, IfCondition, IfThen, WhileCondition, DoBody};
ghost use Rattle.cas_parse.specs.Frames.{ForFirst, BlockOf, Expect, WantOutermost, WantStmt, HaveStmt, InList};
ghost use Rattle.cas_parse.specs.Machine as machine;
ghost use Rattle.cas_read_expr.specs.Follow.{Follows, taken, verdict};
ghost use Rattle.cas_read_stmt.specs.FollowStmts.{begins_stmt, begins_listed, boxed_tree};

use crate::depth::{starts_simple, too_deep};
use crate::head::{do_end, first, second, third};
use crate::local::locals_in;
use crate::parts::{block, boxed, do_stmt, for_stmt, if_stmt, while_stmt};
use crate::plain::{
    break_stmt, continue_stmt, lock_stmt, opened, print_stmt, return_stmt, simple_stmt, unlock_stmt,
};
use cas_base::Place;
use cas_lex::{Sign, Token, TokenKind, Word};
use cas_read_expr::front::{behind_else, closes_block, expect};
use cas_read_expr::keep::{beside, followed};
use cas_read_expr::kind::begins_kind_at;
use cas_read_expr::stop::{Stop, fault, next_token, unexpected};
use cas_syntax::{DEPTH_LIMIT, Stmt, StmtForm};
use std::alloc::Global;

// A statement inside so many others.
#[cycle(stmt)]
#[tactic(auto, using(crate::proofs::StmtSteps::wants_stmt_within))]
fn stmt(alloc: Global, tokens: &[Token], around: usize) -> Result<(Stmt, &[Token]), Stop>
    requires { around ≤ DEPTH_LIMIT }
    ensures follows { (st : List Frame) → Follows result (verdict tokens.now (WantStmt around) st)
        (λ p. verdict p.1.now (HaveStmt (stmt_tree p.0)) st) }
    ensures shorter { IfOk result (λ p. length p.1.now < length tokens.now) }
{
    let (token, _) = next_token(tokens)?;
    if around < DEPTH_LIMIT {
        started(alloc, tokens, around)
    } else {
        Err(fault(too_deep(&token.kind), tokens))
    }
}

// A statement inside so many others, in its own place in memory.
#[cycle(stmt)]
fn inner(alloc: Global, tokens: &[Token], around: usize) -> Result<(Box<Stmt>, &[Token]), Stop>
    requires { around ≤ DEPTH_LIMIT }
    ensures follows { (st : List Frame) → Follows result (verdict tokens.now (WantStmt around) st)
        (λ p. verdict p.1.now (HaveStmt (stmt_tree p.0.value)) st) }
    ensures shorter { IfOk result (λ p. length p.1.now < length tokens.now) }
{
    let (stmt, rest) = stmt(alloc, tokens, around)?;
    Ok((boxed(alloc, stmt)?, rest))
}

// A statement that may be inside so many others.
#[cycle(stmt)]
#[tactic(auto, using(crate::proofs::StmtSteps::starts_as_simple))]
fn started(alloc: Global, tokens: &[Token], around: usize) -> Result<(Stmt, &[Token]), Stop>
    requires { around < DEPTH_LIMIT }
    ensures follows { (st : List Frame) → Follows result (begins_stmt tokens.now around st)
        (λ p. verdict p.1.now (HaveStmt (stmt_tree p.0)) st) }
    ensures shorter { IfOk result (λ p. length p.1.now < length tokens.now) }
{
    let (token, rest) = next_token(tokens)?;
    if starts_simple(&token.kind) {
        return simple_stmt(alloc, tokens);
    }
    let place = token.place;
    match token.kind {
        TokenKind::Sign(Sign::Semicolon) => Ok((
            Stmt {
                place,
                form: StmtForm::Skip,
            },
            rest,
        )),
        TokenKind::Sign(Sign::OpenBrace) => {
            let (all, _, rest) = list(alloc, rest, around + 1)?;
            Ok((block(place, all), rest))
        }
        TokenKind::Word(Word::If) => conditional(alloc, place, rest, around),
        TokenKind::Word(Word::While) => while_loop(alloc, place, rest, around),
        TokenKind::Word(Word::Do) => do_loop(alloc, place, rest, around),
        TokenKind::Word(Word::For) => for_loop(alloc, place, rest, around),
        TokenKind::Word(Word::Break) => break_stmt(place, rest),
        TokenKind::Word(Word::Continue) => continue_stmt(place, rest),
        TokenKind::Word(Word::Return) => return_stmt(alloc, place, rest),
        TokenKind::Word(Word::Lock) => lock_stmt(alloc, place, rest),
        TokenKind::Word(Word::Unlock) => unlock_stmt(alloc, place, rest),
        TokenKind::Word(Word::Print) => print_stmt(alloc, place, rest),
        _ => Err(unexpected(&token.kind, tokens)),
    }
}

// The statements up to `}` inside so many others, the place of the `}`, and the rest.
#[cycle(stmt)]
#[tactic(auto, using(crate::proofs::StmtSteps::goes_on_in_list))]
fn list(
    alloc: Global,
    tokens: &[Token],
    around: usize,
) -> Result<(Vec<Stmt>, Place, &[Token]), Stop>
    requires { around ≤ DEPTH_LIMIT }
    ensures follows { (st : List Frame) → Follows result (verdict tokens.now (InList around no_more) st)
        (λ p. taken p.2.now (machine.list_closed (within 0) false false (stmt_trees p.0.items) st p.1)) }
    ensures shorter { IfOk result (λ p. length p.2.now < length tokens.now) }
{
    let mut all = Vec::new(alloc);
    let mut rest = tokens;
    'stmts: loop {
        let (token, behind) = next_token(rest)?;
        if closes_block(&token.kind) {
            // many lists of a text are short, and their room is more than they need
            all.shrink_to_fit();
            return Ok((all, token.place, behind));
        }
        rest = match listed(alloc, rest, around, &mut all) {
            Ok(after) => after,
            Err(stop) => return Err(stop),
        };
    }
}

// A statement or the locals of a list, which are pushed to all, and the rest.
#[cycle(stmt)]
#[tactic(auto, using(crate::proofs::StmtSteps::listed_stmt, crate::proofs::StmtSteps::had_listed, crate::proofs::Trees::stmts_push))]
fn listed<'a>(
    alloc: Global,
    tokens: &'a [Token],
    around: usize,
    all: &mut Vec<Stmt>,
) -> Result<&'a [Token], Stop>
    requires { around ≤ DEPTH_LIMIT }
    ensures follows { (st : List Frame) → Follows result
        (begins_listed tokens.now around (stmt_trees all.old.items) st)
        (λ rest. verdict rest.now (InList around (stmt_trees all.new.items)) st) }
    ensures shorter { IfOk result (λ rest. length rest.now < length tokens.now) }
{
    if begins_kind_at(tokens) {
        return locals_in(alloc, tokens, around, all);
    }
    let (next, rest) = stmt(alloc, tokens, around)?;
    all.push(next)?;
    Ok(rest)
}

// An `if`, after its word.
#[cycle(stmt)]
#[tactic(auto, using(crate::proofs::StmtSteps::given_if))]
fn conditional(
    alloc: Global,
    place: Place,
    tokens: &[Token],
    around: usize,
) -> Result<(Stmt, &[Token]), Stop>
    requires { around < DEPTH_LIMIT }
    ensures follows { (st : List Frame) → Follows result
        (verdict tokens.now (Expect true sg.OpenParen WantOutermost) (IfCondition around place ∷ st))
        (λ p. verdict p.1.now (HaveStmt (stmt_tree p.0)) st) }
    ensures shorter { IfOk result (λ p. length p.1.now < length tokens.now) }
{
    let (condition, _, rest) = opened(alloc, tokens)?;
    let (condition, rest) = followed(condition, rest, Sign::CloseParen)?;
    let (condition, (chosen, rest)) = beside(condition, inner(alloc, rest, around + 1))?;
    let (condition, (other, rest)) = beside(condition, otherwise(alloc, rest, around))?;
    Ok((if_stmt(place, condition, chosen, other), rest))
}

// The rest after the first statement of an `if`: the other one, if there is an `else`.
#[cycle(stmt)]
#[tactic(auto, using(crate::proofs::StmtSteps::no_else, crate::proofs::StmtSteps::had_else))]
fn otherwise(
    alloc: Global,
    tokens: &[Token],
    around: usize,
) -> Result<(Option<Box<Stmt>>, &[Token]), Stop>
    requires { around < DEPTH_LIMIT }
    ensures follows { (q : Place) (c : ExprTree) (a : StmtTree) (st : List Frame)
        → Follows result (verdict tokens.now (HaveStmt a) (IfThen around q c ∷ st))
        (λ p. verdict p.1.now (HaveStmt (if_ q c a (boxed_tree p.0))) st) }
    ensures no_longer { IfOk result (λ p. length p.1.now ≤ length tokens.now) }
{
    let Some(rest) = behind_else(tokens) else {
        return Ok((None, tokens));
    };
    let (other, rest) = inner(alloc, rest, around + 1)?;
    Ok((Some(other), rest))
}

// A `while`, after its word.
#[cycle(stmt)]
#[tactic(auto, using(crate::proofs::StmtSteps::given_while, crate::proofs::StmtSteps::had_while))]
fn while_loop(
    alloc: Global,
    place: Place,
    tokens: &[Token],
    around: usize,
) -> Result<(Stmt, &[Token]), Stop>
    requires { around < DEPTH_LIMIT }
    ensures follows { (st : List Frame) → Follows result
        (verdict tokens.now (Expect true sg.OpenParen WantOutermost) (WhileCondition around place ∷ st))
        (λ p. verdict p.1.now (HaveStmt (stmt_tree p.0)) st) }
    ensures shorter { IfOk result (λ p. length p.1.now < length tokens.now) }
{
    let (condition, _, rest) = opened(alloc, tokens)?;
    let (condition, rest) = followed(condition, rest, Sign::CloseParen)?;
    let (condition, (body, rest)) = beside(condition, inner(alloc, rest, around + 1))?;
    Ok((while_stmt(place, condition, body), rest))
}

// A `do`, after its word.
#[cycle(stmt)]
fn do_loop(
    alloc: Global,
    place: Place,
    tokens: &[Token],
    around: usize,
) -> Result<(Stmt, &[Token]), Stop>
    requires { around < DEPTH_LIMIT }
    ensures follows { (st : List Frame) → Follows result
        (verdict tokens.now (WantStmt (around + 1)) (DoBody place ∷ st))
        (λ p. verdict p.1.now (HaveStmt (stmt_tree p.0)) st) }
    ensures shorter { IfOk result (λ p. length p.1.now < length tokens.now) }
{
    let (body, rest) = inner(alloc, tokens, around + 1)?;
    let (condition, rest) = do_end(alloc, rest)?;
    Ok((do_stmt(place, body, condition), rest))
}

// A `for`, after its word.
#[cycle(stmt)]
#[tactic(auto, using(crate::proofs::StmtSteps::had_for))]
fn for_loop(
    alloc: Global,
    place: Place,
    tokens: &[Token],
    around: usize,
) -> Result<(Stmt, &[Token]), Stop>
    requires { around < DEPTH_LIMIT }
    ensures follows { (st : List Frame) → Follows result
        (verdict tokens.now (Expect true sg.OpenParen (ForFirst around place)) st)
        (λ p. verdict p.1.now (HaveStmt (stmt_tree p.0)) st) }
    ensures shorter { IfOk result (λ p. length p.1.now < length tokens.now) }
{
    let rest = expect(tokens, Sign::OpenParen)?;
    let (first, rest) = first(alloc, rest, around)?;
    let (condition, rest) = second(alloc, rest)?;
    let (condition, (after, rest)) = beside(condition, third(alloc, rest, around))?;
    let (condition, (body, rest)) = beside(condition, inner(alloc, rest, around + 1))?;
    Ok((for_stmt(place, first, condition, after, body), rest))
}

/// The body of a function, after `{`: its statements, the place of its `}`, and the rest.
pub fn body(alloc: Global, tokens: &[Token]) -> Result<(Vec<Stmt>, Place, &[Token]), Stop>
    ensures follows { (x : Ident) (f : Form) (xs : List Ident) (held : List Place) (items : List ItemTree)
        (st : List Frame) → Follows result (verdict tokens.now (InList 0 no_more) (BodyOf x f xs held items ∷ st))
        (λ r. verdict r.2.now
        (InItems (items ++ machine.closing_of_function x f xs held (stmt_trees r.0.items) r.1 ∷ [])) st) }
    ensures shorter { IfOk result (λ r. length r.2.now < length tokens.now) }
{
    list(alloc, tokens, 0)
}
