//! Statements from their parts.

ghost use Rattle.std.specs.Prelude.{◌≡◌, IfOk, IfErr};
ghost use Rattle.cas_syntax.specs.Tree as tree;
ghost use Rattle.cas_syntax.specs.Tree.{stmt_tree, stmt_trees, expr_tree, optional_tree};
ghost use Rattle.cas_read_expr.specs.declared.stop.Stop.TheVariants.{Memory};
ghost use Rattle.cas_read_stmt.specs.FollowStmts.{boxed_tree};

use cas_base::Place;
use cas_read_expr::stop::Stop;
use cas_syntax::{Expr, Stmt, StmtForm};
use std::alloc::Global;

/// A statement in its own place in memory.
pub fn boxed(alloc: Global, stmt: Stmt) -> Result<Box<Stmt>, Stop>
    ensures value { IfOk result (λ b. b.value ≡ stmt) }
    ensures memory { IfErr result (λ e. e ≡ Memory) }
{
    Ok(Box::new(alloc, stmt)?)
}

/// A block of these statements.
pub fn block(place: Place, all: Vec<Stmt>) -> Stmt
    ensures { stmt_tree result ≡ tree.block place (stmt_trees all.items) }
{
    Stmt {
        place,
        form: StmtForm::Block(all),
    }
}

/// An `if`.
#[tactic(auto, using(crate::proofs::Trees::if_parts))]
pub fn if_stmt(place: Place, condition: Expr, chosen: Box<Stmt>, other: Option<Box<Stmt>>) -> Stmt
    ensures { stmt_tree result ≡ tree.if_ place (expr_tree condition) (stmt_tree chosen.value) (boxed_tree other) }
{
    let form = StmtForm::If(condition, chosen, other);
    Stmt { place, form }
}

/// A `while`.
pub fn while_stmt(place: Place, condition: Expr, body: Box<Stmt>) -> Stmt
    ensures { stmt_tree result ≡ tree.while_ place (expr_tree condition) (stmt_tree body.value) }
{
    let form = StmtForm::While(condition, body);
    Stmt { place, form }
}

/// A `do`.
pub fn do_stmt(place: Place, body: Box<Stmt>, condition: Expr) -> Stmt
    ensures { stmt_tree result ≡ tree.do_ place (stmt_tree body.value) (expr_tree condition) }
{
    let form = StmtForm::Do(body, condition);
    Stmt { place, form }
}

/// A `for`.
#[tactic(auto, using(crate::proofs::Trees::for_parts))]
pub fn for_stmt(
    place: Place,
    first: Option<Box<Stmt>>,
    condition: Option<Expr>,
    after: Option<Box<Stmt>>,
    body: Box<Stmt>,
) -> Stmt
    ensures { stmt_tree result ≡ tree.for_ place (boxed_tree first) (optional_tree condition) (boxed_tree after)
        (stmt_tree body.value) }
{
    let form = StmtForm::For(first, condition, after, body);
    Stmt { place, form }
}
