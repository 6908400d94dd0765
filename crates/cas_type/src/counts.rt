//! What is counted of a module: nodes, cells, functions and words. A count stands still at the greatest `u64`.

ghost use Rattle.std.specs.Prelude.{◌≡◌, ◌+◌, ◌<◌, ◌-◌, ◌^◌, ℕ, List, sum, map, ◌++◌, ◌∷◌, []};
ghost use Rattle.cas_base.specs.Ty.{words_of_ty};
ghost use Rattle.cas_base.specs.declared.decl.Decl.{Decl};
ghost use Rattle.cas_syntax.specs.Tree.{expr_tree, init_tree, optional_tree, stmt_tree, stmt_trees, target_tree};
ghost use Rattle.cas_type.specs.Answer.{Passes};
ghost use Rattle.cas_type.specs.Parts.{capped};
ghost use Rattle.cas_typed.specs.Counts as c;
ghost use Rattle.cas_typed.specs.Faults.{above};

use crate::fault::TypeFault;
use cas_base::{Decl, Place, Ty};
use cas_syntax::{Expr, Init, LValue, Stmt, StmtForm};
use cas_typed::TypeCount;

/// The most parameters of a function.
pub const MOST_PARAMETERS: u64 = 16;

/// The most cells of a function's parameters and locals.
pub const MOST_CELLS: u64 = 4_096;

/// The most statements and expressions of a function.
pub const MOST_NODES: u64 = 65_536;

/// The most functions that a module defines.
pub const MOST_FUNCTIONS: u64 = 1_024;

/// The most words of the globals and locks that a module defines.
pub const MOST_WORDS: u64 = 65_536;

/// Whether a count passes its limit.
pub fn check_count(most: u64, place: Place, what: TypeCount, counted: u64) -> Result<(), TypeFault>
    ensures { Passes result (above most place what counted) }
{
    if most < counted {
        Err(TypeFault::Limit {
            place,
            what,
            counted,
        })
    } else {
        Ok(())
    }
}

/// The nodes of an expression, after those counted so far.
pub fn count_expr(before: u64, expr: &Expr) -> u64
    ensures { result ≡ capped (before + c.nodes_of_expr (expr_tree expr.now)) }
{
    let here = before.saturating_add(1);
    match expr {
        Expr::Lit(..) | Expr::Name(_) | Expr::Addr(_) => here,
        Expr::Index(_, a) | Expr::AddrIndex(_, a) => count_expr(here, a),
        Expr::Deref(a) | Expr::Unary(_, a) | Expr::Cast(_, a) => count_expr(here, a),
        Expr::Binary(_, a, b) | Expr::And(a, b) | Expr::Or(a, b) => {
            count_expr(count_expr(here, a), b)
        }
        Expr::Cond(c, a, b) => count_expr(count_expr(count_expr(here, c), a), b),
    }
}

// The nodes of expressions.
fn count_exprs(before: u64, exprs: &[Expr]) -> u64
    ensures { result ≡ capped (before + c.nodes_of_exprs (map expr_tree exprs.now)) }
{
    let mut count = before;
    let mut rest = exprs;
    'each: while let Some((expr, others)) = rest.split_first() {
        count = count_expr(count, expr);
        rest = others;
    }
    count
}

// The nodes of an expression that may be missing.
fn count_optional(before: u64, expr: &Option<Expr>) -> u64
    ensures { result ≡ capped (before + c.nodes_of_optional (optional_tree expr.now)) }
{
    match expr {
        Some(expr) => count_expr(before, expr),
        None => before,
    }
}

// The nodes of what an assignment writes.
fn count_target(before: u64, target: &LValue) -> u64
    ensures { result ≡ capped (before + c.nodes_of_target (target_tree target.now)) }
{
    match target {
        LValue::Name(_) => before,
        LValue::Index(_, index) => count_expr(before, index),
        LValue::Deref(pointer) => count_expr(before, pointer),
    }
}

// The nodes of what a local begins with.
fn count_init(before: u64, init: &Init) -> u64
    ensures { result ≡ capped (before + c.nodes_of_init (init_tree init.now)) }
{
    match init {
        Init::Nothing => before,
        Init::Value(value) => count_expr(before, value),
        Init::Call(_, args) => count_exprs(before, args.as_slice()),
    }
}

// The nodes of a statement.
#[cycle(count)]
fn count_stmt(before: u64, stmt: &Stmt) -> u64
    ensures { result ≡ capped (before + c.nodes_of_stmt (stmt_tree stmt.now)) }
{
    let here = before.saturating_add(1);
    match &stmt.form {
        StmtForm::Skip => here,
        StmtForm::Declare(_, _, init) => count_init(here, init),
        StmtForm::Assign(target, _, value) => count_expr(count_target(here, target), value),
        StmtForm::Call(_, _, args) => count_exprs(here, args.as_slice()),
        StmtForm::Block(inner) => count_stmts(here, inner),
        StmtForm::If(condition, first, second) => {
            let first = count_stmt(count_expr(here, condition), first);
            match second {
                None => first,
                Some(second) => count_stmt(first, second),
            }
        }
        StmtForm::While(condition, body) => count_stmt(count_expr(here, condition), body),
        StmtForm::Do(body, condition) => count_expr(count_stmt(here, body), condition),
        StmtForm::For(first, condition, after, body) => {
            let first = match first {
                None => here,
                Some(first) => count_stmt(here, first),
            };
            let condition = count_optional(first, condition);
            let after = match after {
                None => condition,
                Some(after) => count_stmt(condition, after),
            };
            count_stmt(after, body)
        }
        StmtForm::Break => here,
        StmtForm::Continue => here,
        StmtForm::Return(value) => count_optional(here, value),
        StmtForm::Lock(_) => here,
        StmtForm::Unlock(_) => here,
        StmtForm::Print(value) => count_expr(here, value),
    }
}

/// The nodes of statements, after those counted so far.
#[cycle(count)]
pub fn count_stmts(before: u64, stmts: &[Stmt]) -> u64
    ensures { result ≡ capped (before + c.nodes_of_stmts (stmt_trees stmts.now)) }
{
    let mut count = before;
    for inner in stmts {
        count = count_stmt(count, inner);
    }
    count
}

/// The cells of locals of these types, after those counted so far.
pub fn count_cells(before: u64, tys: &[Ty]) -> u64
    ensures { result ≡ capped (before + sum (map words_of_ty tys.now)) }
{
    let mut count = before;
    let mut rest = tys;
    'each: while let Some((ty, others)) = rest.split_first() {
        count = count.saturating_add(u64::from(ty.words()));
        rest = others;
    }
    count
}

/// How many functions, and how many words of globals and locks, declarations define.
#[derive(Clone, Copy)]
pub struct Totals {
    pub functions: u64,
    pub words: u64,
}

impl Totals {
    /// Of no declaration.
    pub fn none() -> Totals
        ensures functions { result.functions ≡ 0 }
        ensures words { result.words ≡ 0 }
    {
        Totals {
            functions: 0,
            words: 0,
        }
    }

    /// With a further declaration.
    pub fn with(self, decl: &Decl) -> Totals
        ensures functions { (before : List Decl) → self.functions ≡ capped (c.function_count before)
            → result.functions ≡ capped (c.function_count (before ++ decl.now ∷ [])) }
        ensures words { (before : List Decl) → self.words ≡ capped (c.word_count before)
            → result.words ≡ capped (c.word_count (before ++ decl.now ∷ [])) }
    {
        if !decl.defined {
            self
        } else if decl.form.is_function() {
            Totals {
                functions: self.functions.saturating_add(1),
                words: self.words,
            }
        } else {
            Totals {
                functions: self.functions,
                words: self.words.saturating_add(u64::from(decl.form.words())),
            }
        }
    }
}
