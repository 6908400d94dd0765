//! Expressions from their parts.

ghost use Rattle.std.specs.Prelude.{◌≡◌, IfOk, IfErr};
ghost use Rattle.cas_syntax.specs.Operators as operators;
ghost use Rattle.cas_syntax.specs.Tree as tree;
ghost use Rattle.cas_read_expr.specs.declared.stop.Stop.TheVariants.{Memory};
ghost use Rattle.cas_parse.specs.Machine as machine;
ghost use Rattle.cas_read_expr.specs.Follow.{infix_shape, prefix_shape};

use crate::operator::{Infix, Prefix};
use crate::stop::Stop;
use cas_syntax::{Expr, Ident};
use std::alloc::Global;

/// A name, or the address of what it names.
pub fn name(addressed: bool, name: Ident) -> Expr
    ensures { tree.expr_tree result ≡ machine.named addressed name }
{
    if addressed {
        Expr::Addr(name)
    } else {
        Expr::Name(name)
    }
}

/// An element, or its address.
pub fn element(alloc: Global, addressed: bool, name: Ident, index: Expr) -> Result<Expr, Stop>
    ensures value { IfOk result (λ x. tree.expr_tree x ≡ machine.bracketed addressed name (tree.expr_tree index)) }
    ensures memory { IfErr result (λ e. e ≡ Memory) }
{
    let index = Box::new(alloc, index)?;
    if addressed {
        Ok(Expr::AddrIndex(name, index))
    } else {
        Ok(Expr::Index(name, index))
    }
}

/// An operand with what precedes it.
pub fn prefixed(alloc: Global, prefix: Prefix, operand: Expr) -> Result<Expr, Stop>
    ensures value { IfOk result (λ x. tree.expr_tree x
        ≡ machine.prefixed (prefix_shape prefix) (tree.expr_tree operand)) }
    ensures memory { IfErr result (λ e. e ≡ Memory) }
{
    let operand = Box::new(alloc, operand)?;
    Ok(match prefix {
        Prefix::Operates(operator) => Expr::Unary(operator, operand),
        Prefix::Points => Expr::Deref(operand),
        Prefix::Casts(kind) => Expr::Cast(kind, operand),
    })
}

/// Two operands with an operator between them.
pub fn joined(alloc: Global, operator: Infix, left: Expr, right: Expr) -> Result<Expr, Stop>
    ensures value { IfOk result (λ x. tree.expr_tree x
        ≡ operators.joined (infix_shape operator) (tree.expr_tree left) (tree.expr_tree right)) }
    ensures memory { IfErr result (λ e. e ≡ Memory) }
{
    let left = Box::new(alloc, left)?;
    let right = Box::new(alloc, right)?;
    Ok(match operator {
        Infix::Both(operator) => Expr::Binary(operator, left, right),
        Infix::And => Expr::And(left, right),
        Infix::Or => Expr::Or(left, right),
    })
}

/// An expression in its own place in memory.
pub fn boxed(alloc: Global, expr: Expr) -> Result<Box<Expr>, Stop>
    ensures value { IfOk result (λ b. b.value ≡ expr) }
    ensures memory { IfErr result (λ e. e ≡ Memory) }
{
    Ok(Box::new(alloc, expr)?)
}
