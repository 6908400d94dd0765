//! Statements: each is walked through in order of text, and stands in a row before those of its parts.

ghost use Rattle.std.specs.Prelude.{◌≡◌, ◌++◌, [], ◌∷◌, OnOk, IfOk, false};
ghost use Rattle.cas_syntax.specs.Tree as tree;
ghost use Rattle.cas_syntax.specs.Tree.{expr_tree, init_tree, optional_tree, stmt_tree, stmt_trees};
ghost use Rattle.cas_type.specs.Rows.{StmtWalks, PartWalks, ListWalks, BodyWalks, after_list, part_tree};
ghost use Rattle.cas_typed.specs.Scopes as s;
ghost use Rattle.cas_typed.specs.Walk as w;

use crate::declare::declaration;
use crate::fault::TypeFault;
use crate::plain::{plain, unboxed};
use crate::rows::Made;
use crate::scope::Scopes;
use crate::values;
use crate::values::condition;
use crate::within::Within;
use cas_base::{Place, Seq, Ty};
use cas_syntax::{Expr, Ident, Init, Stmt, StmtForm};
use cas_typed::{StmtRow, StmtRowForm};
use std::alloc::Global;

/// A statement of a block.
#[cycle(statement)]
pub fn statement<'a>(
    scopes: &mut Scopes<'a>,
    made: &mut Made,
    within: Within,
    stmt: &'a Stmt,
) -> Result<u32, TypeFault>
    ensures rows { StmtWalks made.old.rows.items made.new.rows.items result
        (w.walk within.ret within.in_loop scopes.old (stmt_tree stmt.now)) }
    ensures locals { OnOk result (made.new.locals.items ≡ made.old.locals.items ++ s.locals_of (stmt_tree stmt.now)) }
    ensures scope { OnOk result (scopes.new ≡ s.after scopes.old (stmt_tree stmt.now)) }
{
    let place = stmt.place;
    match &stmt.form {
        StmtForm::Declare(ty, ident, init) => local(scopes, made, place, *ty, ident, init),
        StmtForm::Block(stmts) => block(scopes, made, within, place, stmts),
        StmtForm::If(test, first, second) => {
            branches(scopes, made, within, place, test, first, second)
        }
        StmtForm::While(test, body) => while_loop(scopes, made, within, place, test, body),
        StmtForm::Do(body, test) => do_loop(scopes, made, within, place, body, test),
        StmtForm::For(first, test, next, body) => for_loop(
            scopes, made, within, place, first, test, next, body,
        ),
        StmtForm::Skip
        | StmtForm::Assign(..)
        | StmtForm::Call(..)
        | StmtForm::Break
        | StmtForm::Continue
        | StmtForm::Return(_)
        | StmtForm::Lock(_)
        | StmtForm::Unlock(_)
        | StmtForm::Print(_) => plain(scopes, made, within, stmt),
    }
}

// A local, which is visible from here on.
fn local<'a>(
    scopes: &mut Scopes<'a>,
    made: &mut Made,
    place: Place,
    ty: Ty,
    ident: &'a Ident,
    init: &Init,
) -> Result<u32, TypeFault>
    ensures rows { StmtWalks made.old.rows.items made.new.rows.items result
        (w.walk_declare scopes.old place ty ident.now (init_tree init.now)) }
    ensures locals { OnOk result (made.new.locals.items ≡ made.old.locals.items ++ ty ∷ []) }
    ensures scope { OnOk result (scopes.new ≡ s.declaring scopes.old ty ident.now) }
{
    let form = declaration(made.alloc, scopes, place, ty, ident, init)?;
    let number = made.plain(place, Ok(form))?;
    made.locals.push(ty)?;
    Ok(number)
}

// A part of a statement, whose locals are visible in it alone.
#[cycle(statement)]
fn part<'a>(
    scopes: &mut Scopes<'a>,
    made: &mut Made,
    within: Within,
    stmt: &'a Stmt,
) -> Result<u32, TypeFault>
    ensures rows { StmtWalks made.old.rows.items made.new.rows.items result
        (w.walk within.ret within.in_loop scopes.old (stmt_tree stmt.now)) }
    ensures locals { OnOk result (made.new.locals.items ≡ made.old.locals.items ++ s.locals_of (stmt_tree stmt.now)) }
    ensures scope { OnOk result (scopes.new ≡ s.past scopes.old (stmt_tree stmt.now)) }
{
    let visible = scopes.visible();
    let number = statement(scopes, made, within, stmt)?;
    scopes.forget(visible);
    Ok(number)
}

// The first part of a `for`, whose local is visible in all of it.
#[cycle(statement)]
fn first_part<'a>(
    scopes: &mut Scopes<'a>,
    made: &mut Made,
    within: Within,
    stmt: &'a Option<Box<Stmt>>,
) -> Result<Option<u32>, TypeFault>
    ensures rows { PartWalks made.old.rows.items made.new.rows.items result
        (w.walk_part within.ret within.in_loop scopes.old (part_tree stmt.now)) }
    ensures locals { OnOk result (made.new.locals.items ≡ made.old.locals.items ++ s.locals_of_option
        (part_tree stmt.now)) }
    ensures scope { OnOk result (scopes.new ≡ s.after_option scopes.old (part_tree stmt.now)) }
{
    match stmt {
        Some(stmt) => Ok(Some(statement(scopes, made, within, stmt)?)),
        None => Ok(None),
    }
}

// A part that may be missing.
#[cycle(statement)]
fn optional_part<'a>(
    scopes: &mut Scopes<'a>,
    made: &mut Made,
    within: Within,
    stmt: &'a Option<Box<Stmt>>,
) -> Result<Option<u32>, TypeFault>
    ensures rows { PartWalks made.old.rows.items made.new.rows.items result
        (w.walk_part within.ret within.in_loop scopes.old (part_tree stmt.now)) }
    ensures locals { OnOk result (made.new.locals.items ≡ made.old.locals.items ++ s.locals_of_option
        (part_tree stmt.now)) }
    ensures scope { OnOk result (scopes.new ≡ s.past_option scopes.old (part_tree stmt.now)) }
{
    match stmt {
        Some(stmt) => Ok(Some(part(scopes, made, within, stmt)?)),
        None => Ok(None),
    }
}

// Statements, one after another.
#[cycle(statement)]
fn list<'a>(
    scopes: &mut Scopes<'a>,
    made: &mut Made,
    within: Within,
    stmts: &'a [Stmt],
) -> Result<Seq<u32>, TypeFault>
    ensures rows { ListWalks made.old.rows.items made.new.rows.items result
        (w.walk_list within.ret within.in_loop scopes.old (stmt_trees stmts.now)) }
    ensures locals { OnOk result (made.new.locals.items ≡ made.old.locals.items ++ s.locals_of_list
        (stmt_trees stmts.now)) }
    ensures scope { OnOk result (scopes.new ≡ after_list scopes.old (stmt_trees stmts.now)) }
{
    let mut numbers = Vec::new(made.alloc);
    for stmt in stmts {
        let number = statement(scopes, made, within, stmt)?;
        numbers.push(number)?;
    }
    Ok(Seq::of(numbers))
}

// A block.
#[cycle(statement)]
fn block<'a>(
    scopes: &mut Scopes<'a>,
    made: &mut Made,
    within: Within,
    place: Place,
    stmts: &'a [Stmt],
) -> Result<u32, TypeFault>
    ensures rows { StmtWalks made.old.rows.items made.new.rows.items result
        (w.walk within.ret within.in_loop scopes.old (tree.block place (stmt_trees stmts.now))) }
    ensures locals { OnOk result (made.new.locals.items ≡ made.old.locals.items ++ s.locals_of
        (tree.block place (stmt_trees stmts.now))) }
    ensures scope { OnOk result (scopes.new ≡ s.past scopes.old (tree.block place (stmt_trees stmts.now))) }
{
    let number = made.begin(place)?;
    let mark = scopes.enter();
    let numbers = list(scopes, made, within, stmts)?;
    scopes.leave(mark);
    made.set(number, place, StmtRowForm::Block(numbers));
    Ok(number)
}

// `if`, with or without `else`.
#[cycle(statement)]
fn branches<'a>(
    scopes: &mut Scopes<'a>,
    made: &mut Made,
    within: Within,
    place: Place,
    test: &Expr,
    first: &'a Stmt,
    second: &'a Option<Box<Stmt>>,
) -> Result<u32, TypeFault>
    ensures rows { StmtWalks made.old.rows.items made.new.rows.items result
        (w.walk within.ret within.in_loop scopes.old (tree.if_ place (expr_tree test.now) (stmt_tree first.now)
        (part_tree second.now))) }
    ensures locals { OnOk result (made.new.locals.items
        ≡ made.old.locals.items
        ++ s.locals_of (tree.if_ place (expr_tree test.now) (stmt_tree first.now) (part_tree second.now))) }
    ensures scope { OnOk result (scopes.new
        ≡ s.past scopes.old (tree.if_ place (expr_tree test.now) (stmt_tree first.now) (part_tree second.now))) }
{
    let number = made.begin(place)?;
    let test = values::test(made.alloc, scopes, place, test)?;
    let first = part(scopes, made, within, first)?;
    let second = optional_part(scopes, made, within, second)?;
    let test = Box::into_inner(test);
    made.set(number, place, StmtRowForm::If(test, first, second));
    Ok(number)
}

// `while`.
#[cycle(statement)]
fn while_loop<'a>(
    scopes: &mut Scopes<'a>,
    made: &mut Made,
    within: Within,
    place: Place,
    test: &Expr,
    body: &'a Stmt,
) -> Result<u32, TypeFault>
    ensures rows { StmtWalks made.old.rows.items made.new.rows.items result
        (w.walk within.ret within.in_loop scopes.old (tree.while_ place (expr_tree test.now) (stmt_tree body.now))) }
    ensures locals { OnOk result (made.new.locals.items
        ≡ made.old.locals.items ++ s.locals_of (tree.while_ place (expr_tree test.now) (stmt_tree body.now))) }
    ensures scope { OnOk result (scopes.new ≡ s.past scopes.old
        (tree.while_ place (expr_tree test.now) (stmt_tree body.now))) }
{
    let number = made.begin(place)?;
    let test = values::test(made.alloc, scopes, place, test)?;
    let body = part(scopes, made, within.looped(), body)?;
    let test = Box::into_inner(test);
    made.set(number, place, StmtRowForm::While(test, body));
    Ok(number)
}

// `do`.
#[cycle(statement)]
fn do_loop<'a>(
    scopes: &mut Scopes<'a>,
    made: &mut Made,
    within: Within,
    place: Place,
    body: &'a Stmt,
    test: &Expr,
) -> Result<u32, TypeFault>
    ensures rows { StmtWalks made.old.rows.items made.new.rows.items result
        (w.walk within.ret within.in_loop scopes.old (tree.do_ place (stmt_tree body.now) (expr_tree test.now))) }
    ensures locals { OnOk result (made.new.locals.items
        ≡ made.old.locals.items ++ s.locals_of (tree.do_ place (stmt_tree body.now) (expr_tree test.now))) }
    ensures scope { OnOk result (scopes.new ≡ s.past scopes.old
        (tree.do_ place (stmt_tree body.now) (expr_tree test.now))) }
{
    // The condition stands outside of the body's scope, and its fault comes after the body's.
    let number = made.begin(place)?;
    let test = values::test(made.alloc, scopes, place, test);
    let body = part(scopes, made, within.looped(), body)?;
    let test = Box::into_inner(test?);
    made.set(number, place, StmtRowForm::Do(body, test));
    Ok(number)
}

// `for`.
#[cycle(statement)]
fn for_loop<'a>(
    scopes: &mut Scopes<'a>,
    made: &mut Made,
    within: Within,
    place: Place,
    first: &'a Option<Box<Stmt>>,
    test: &Option<Expr>,
    next: &'a Option<Box<Stmt>>,
    body: &'a Stmt,
) -> Result<u32, TypeFault>
    ensures rows { StmtWalks made.old.rows.items made.new.rows.items result (w.walk within.ret within.in_loop scopes.old
        (tree.for_ place (part_tree first.now) (optional_tree test.now) (part_tree next.now) (stmt_tree body.now))) }
    ensures locals { OnOk result (made.new.locals.items ≡ made.old.locals.items ++ s.locals_of
        (tree.for_ place (part_tree first.now) (optional_tree test.now) (part_tree next.now) (stmt_tree body.now))) }
    ensures scope { OnOk result (scopes.new ≡ s.past scopes.old
        (tree.for_ place (part_tree first.now) (optional_tree test.now) (part_tree next.now) (stmt_tree body.now))) }
{
    let number = made.begin(place)?;
    let mark = scopes.enter();
    let first = first_part(scopes, made, within, first)?;
    let test = condition(made.alloc, scopes, place, test)?;
    let next = optional_part(scopes, made, within, next)?;
    let body = part(scopes, made, within.looped(), body)?;
    scopes.leave(mark);
    let form = StmtRowForm::For(first, unboxed(test), next, body);
    made.set(number, place, form);
    Ok(number)
}

/// A body that is typed: its rows, the numbers of its own statements, and the types of the locals that it declares.
#[derive(Drop)]
pub struct Walked {
    pub rows: Seq<StmtRow>,
    pub body: Seq<u32>,
    pub locals: Seq<Ty>,
}

/// The body of a function of this type.
pub fn body<'a>(
    alloc: Global,
    scopes: &mut Scopes<'a>,
    ret: Ty,
    stmts: &'a [Stmt],
) -> Result<Walked, TypeFault>
    ensures body { BodyWalks result (w.walk_list ret false scopes.old (stmt_trees stmts.now)) }
    ensures locals { IfOk result (λ walked. walked.locals ≡ s.locals_of_list (stmt_trees stmts.now)) }
    ensures decls { OnOk result (scopes.new.decls ≡ scopes.old.decls) }
{
    let mut made = Made::new(alloc);
    let within = Within {
        ret,
        in_loop: false,
    };
    let body = list(scopes, &mut made, within, stmts)?;
    let Made { rows, locals, .. } = made;
    Ok(Walked {
        rows: Seq::of(rows),
        body,
        locals: Seq::of(locals),
    })
}
