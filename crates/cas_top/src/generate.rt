//! The generator: from a module of the first form, one function that prints one sum of literals, to the machine's code.
ghost use Rattle.std.specs.Prelude.{◌≡◌, ◌∷◌, [], ℕ, List, false, map, true, IfOk, IfSome, IfNone};
ghost use Rattle.cas_base.specs.declared.kind.Kind.TheVariants as kind;
ghost use Rattle.cas_base.specs.declared.place.Place.{Place};
ghost use Rattle.cas_syntax.specs.Tree as syntax;
ghost use Rattle.cas_syntax.specs.declared.tree.BinaryOperator.TheVariants as operator;
ghost use Rattle.cas_top.specs.First_form as form;
ghost use Rattle.cas_top.specs.Machine.{IsItemsCode};
ghost use Rattle.cas_top.specs.View.{IsPrintCode, IsSumCode};

use crate::machine::Instr;
use cas_base::{Kind, NoMemory};
use cas_syntax::{BinaryOperator, Expr, Fun, Item, Module, Stmt, StmtForm};
use std::alloc::Global;

/// The code of a module of the first form whose function has this name, and of no other module.
#[tactic(auto, using(crate::proofs::Form_laws::other_entry, crate::proofs::Form_laws::of_function))]
pub(crate) fn generate(
    alloc: Global,
    tree: &Module,
    name: &str,
) -> Result<Option<Vec<Instr>>, NoMemory>
    ensures form { IfOk result (λ o. IfSome o (λ code.
        form.is_first_form name.now (syntax.module_tree tree.now) ≡ true)) }
    ensures generated { IfOk result (λ o. IfSome o
        (λ code. IsItemsCode (syntax.module_tree tree.now).items code.items)) }
    ensures others { IfOk result (λ o. IfNone o (form.is_first_form name.now (syntax.module_tree tree.now) ≡ false)) }
{
    let Some(fun) = only_function(tree.items.as_slice()) else {
        return Ok(None);
    };
    if !is_entry_named(fun, name) {
        return Ok(None);
    }
    let Some(printed) = only_printed(fun.body.as_slice()) else {
        return Ok(None);
    };
    print_code(alloc, printed)
}

// The function that is a module's only item.
#[tactic(auto, using(crate::proofs::Form_laws::two_items, crate::proofs::Form_laws::no_function))]
fn only_function(items: &[Item]) -> Option<&Fun>
    ensures found { IfSome result (λ f. map syntax.item_tree items.now ≡ syntax.define (syntax.fun_tree f.now) ∷ []) }
    ensures others { IfNone result ((name : List ℕ) →
        form.is_first_form_of name (map syntax.item_tree items.now) ≡ false) }
{
    let (first, others) = items.split_first()?;
    if let Some(_) = others.split_first() {
        return None;
    }
    match first {
        Item::Define(fun) => Some(fun),
        _ => None,
    }
}

// Whether a thread may enter the function, and this is its name.
fn is_entry_named(fun: &Fun, name: &str) -> bool
    ensures { result ≡ form.is_entry_named name.now (syntax.fun_tree fun.now) }
{
    fun.decl.form.is_entry() && fun.decl.name.as_str() == name
}

// The expression that a body prints, where it does nothing else.
#[tactic(auto, using(crate::proofs::Form_laws::two_statements, crate::proofs::Form_laws::not_printing))]
fn only_printed(body: &[Stmt]) -> Option<&Expr>
    ensures found { IfSome result (λ a. (p : Place) ×
        (syntax.stmt_trees body.now ≡ syntax.one_more (syntax.print p (syntax.expr_tree a.now)) syntax.no_more)) }
    ensures others { IfNone result (form.prints_sum (syntax.stmt_trees body.now) ≡ false) }
{
    let (statement, others) = body.split_first()?;
    if let Some(_) = others.split_first() {
        return None;
    }
    match &statement.form {
        StmtForm::Print(printed) => Some(printed),
        _ => None,
    }
}

// The code that outputs a sum and ends, where the expression is one.
fn print_code(alloc: Global, printed: &Expr) -> Result<Option<Vec<Instr>>, NoMemory>
    ensures { IfOk result (λ o. IsPrintCode (syntax.expr_tree printed.now) o) }
{
    let Some(mut code) = sum_code(alloc, printed)? else {
        return Ok(None);
    };
    code.push(Instr::OutEax)?;
    code.push(Instr::Ret)?;
    Ok(Some(code))
}

// The code of a sum of literals, which leaves its value in the register, where the expression is one.
fn sum_code(alloc: Global, expr: &Expr) -> Result<Option<Vec<Instr>>, NoMemory>
    ensures { IfOk result (λ o. IsSumCode (syntax.expr_tree expr.now) o) }
{
    match expr {
        Expr::Lit(value, Kind::I32) => Ok(Some(vec![in alloc; Instr::MovEax(*value)]?)),
        Expr::Binary(BinaryOperator::Add, left, right) => match &**right {
            Expr::Lit(value, Kind::I32) => with_literal(sum_code(alloc, left)?, *value),
            _ => Ok(None),
        },
        _ => Ok(None),
    }
}

// The code of the sum and a further literal.
fn with_literal(code: Option<Vec<Instr>>, value: u32) -> Result<Option<Vec<Instr>>, NoMemory>
    ensures { (a : syntax.ExprTree) → IsSumCode a code →
        IfOk result (λ o. IsSumCode (syntax.binary operator.Add a (syntax.literal value kind.I32)) o) }
{
    let Some(mut code) = code else {
        return Ok(None);
    };
    code.push(Instr::AddEax(value))?;
    Ok(Some(code))
}
