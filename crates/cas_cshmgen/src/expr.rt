//! What is made of expressions.

ghost use Rattle.std.specs.Prelude.{◌≡◌, IfOk, map};
ghost use Rattle.cas_mid.specs.Code.{csharp_expression};
ghost use Rattle.cas_mid.specs.Trees as x;
ghost use Rattle.cas_typed.specs.Resolved.{typed_expr_tree};
ghost use Rattle.cas_cshmgen.specs.Makes.{condition_of, is_null, made_expr, made_exprs, name_at};

use cas_base::{Decl, Name, NoMemory, Seq};
use cas_mid::{AddressOf, Binop, CsharpExpr, Expr, Unop};
use cas_syntax::BinaryOperator;
use cas_typed::TypedExpr;
use std::alloc::Global;

/// The name of the item with this number.
pub fn name_at(alloc: Global, decls: &[Decl], item: u32) -> Result<Name, NoMemory>
    ensures { IfOk result (λ name. name ≡ name_at decls.now item) }
{
    match decls.get(item as usize) {
        Some(decl) => decl.name.copy(alloc),
        None => Name::new(alloc, "_").map_err(|_| NoMemory),
    }
}

// Whether the expression is the word 0.
fn is_null(a: &CsharpExpr) -> bool
    ensures { result ≡ is_null (csharp_expression a.now) }
{
    match a {
        Expr::Word(n) => *n == 0,
        _ => false,
    }
}

/// An expression as a condition: whether a pointer differs from null is whether it is true.
pub fn condition(a: CsharpExpr) -> CsharpExpr
    ensures { csharp_expression result ≡ condition_of (csharp_expression a) }
{
    match a {
        Expr::Binop(Binop::Compare(BinaryOperator::Ne), p, q) => {
            if is_null(&q) {
                Box::into_inner(p)
            } else {
                Expr::Binop(Binop::Compare(BinaryOperator::Ne), p, q)
            }
        }
        a => a,
    }
}

fn load(alloc: Global, pointer: CsharpExpr) -> Result<CsharpExpr, NoMemory>
    ensures { IfOk result (λ made. csharp_expression made ≡ x.load (csharp_expression pointer)) }
{
    Ok(Expr::Load(Box::new(alloc, pointer)?))
}

fn unop(alloc: Global, operator: Unop, a: CsharpExpr) -> Result<CsharpExpr, NoMemory>
    ensures { IfOk result (λ made. csharp_expression made ≡ x.unop operator (csharp_expression a)) }
{
    Ok(Expr::Unop(operator, Box::new(alloc, a)?))
}

fn binop(
    alloc: Global,
    operator: Binop,
    a: CsharpExpr,
    b: CsharpExpr,
) -> Result<CsharpExpr, NoMemory>
    ensures { IfOk result (λ made. csharp_expression made ≡ x.binop operator (csharp_expression a)
        (csharp_expression b)) }
{
    let a = Box::new(alloc, a)?;
    let b = Box::new(alloc, b)?;
    Ok(Expr::Binop(operator, a, b))
}

// One or the other, by a condition.
fn choice(
    alloc: Global,
    c: CsharpExpr,
    a: CsharpExpr,
    b: CsharpExpr,
) -> Result<CsharpExpr, NoMemory>
    ensures { IfOk result (λ made. csharp_expression made ≡ x.if_ (condition_of (csharp_expression c))
        (csharp_expression a) (csharp_expression b)) }
{
    let c = Box::new(alloc, condition(c))?;
    let a = Box::new(alloc, a)?;
    let b = Box::new(alloc, b)?;
    Ok(Expr::If(c, a, b))
}

/// What is made of an expression, in a module with these declarations.
pub fn make_expr(alloc: Global, decls: &[Decl], expr: &TypedExpr) -> Result<CsharpExpr, NoMemory>
    ensures { IfOk result (λ made. csharp_expression made ≡ made_expr decls.now (typed_expr_tree expr.now)) }
{
    match expr {
        TypedExpr::Literal(n) => Ok(Expr::Word(*n)),
        TypedExpr::Null => Ok(Expr::Word(0)),
        TypedExpr::Local(n) => load(alloc, Expr::Own(AddressOf(*n))),
        TypedExpr::Global(g, _) => Ok(Expr::Global(name_at(alloc, decls, *g)?)),
        TypedExpr::Element(g, _, sign, index) => {
            let index = Box::new(alloc, make_expr(alloc, decls, index)?)?;
            Ok(Expr::Element(name_at(alloc, decls, *g)?, *sign, index))
        }
        TypedExpr::PlaceOf(n) => Ok(Expr::Own(AddressOf(*n))),
        TypedExpr::Behind(_, p) => load(alloc, make_expr(alloc, decls, p)?),
        TypedExpr::PointerPlus(sign, p, a) => binop(
            alloc,
            Binop::PointerPlus(*sign),
            make_expr(alloc, decls, p)?,
            make_expr(alloc, decls, a)?,
        ),
        TypedExpr::PlusPointer(sign, a, p) => binop(
            alloc,
            Binop::PlusPointer(*sign),
            make_expr(alloc, decls, a)?,
            make_expr(alloc, decls, p)?,
        ),
        TypedExpr::PointerMinus(sign, p, a) => binop(
            alloc,
            Binop::PointerMinus(*sign),
            make_expr(alloc, decls, p)?,
            make_expr(alloc, decls, a)?,
        ),
        TypedExpr::PointerDifference(p, q) => binop(
            alloc,
            Binop::PointerDifference,
            make_expr(alloc, decls, p)?,
            make_expr(alloc, decls, q)?,
        ),
        TypedExpr::Compare(operator, p, q) => binop(
            alloc,
            Binop::Compare(*operator),
            make_expr(alloc, decls, p)?,
            make_expr(alloc, decls, q)?,
        ),
        TypedExpr::Unary(operator, a) => unop(
            alloc,
            Unop::OnWord(*operator),
            make_expr(alloc, decls, a)?,
        ),
        TypedExpr::Binary(operator, sign, a, b) => binop(
            alloc,
            Binop::OnWords(*operator, *sign),
            make_expr(alloc, decls, a)?,
            make_expr(alloc, decls, b)?,
        ),
        TypedExpr::Narrow(kind, a) => unop(alloc, Unop::Narrow(*kind), make_expr(alloc, decls, a)?),
        TypedExpr::And(a, b) => {
            let a = make_expr(alloc, decls, a)?;
            let b = make_expr(alloc, decls, b)?;
            let truth = choice(alloc, b, Expr::Word(1), Expr::Word(0))?;
            choice(alloc, a, truth, Expr::Word(0))
        }
        TypedExpr::Or(a, b) => {
            let a = make_expr(alloc, decls, a)?;
            let b = make_expr(alloc, decls, b)?;
            let truth = choice(alloc, b, Expr::Word(1), Expr::Word(0))?;
            choice(alloc, a, Expr::Word(1), truth)
        }
        TypedExpr::Choose(c, a, b) => choice(
            alloc,
            make_expr(alloc, decls, c)?,
            make_expr(alloc, decls, a)?,
            make_expr(alloc, decls, b)?,
        ),
    }
}

/// What is made of expressions, one by one.
pub fn make_exprs(
    alloc: Global,
    decls: &[Decl],
    exprs: &[TypedExpr],
) -> Result<Seq<CsharpExpr>, NoMemory>
    ensures { IfOk result (λ made. map csharp_expression made ≡ made_exprs decls.now (map typed_expr_tree exprs.now)) }
{
    let mut made = Vec::new(alloc);
    for expr in exprs {
        made.push(make_expr(alloc, decls, expr)?)?;
    }
    Ok(Seq::of(made))
}
