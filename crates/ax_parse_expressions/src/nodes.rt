//! Nodes of trees, from the trees below them.
ghost use Rattle.std.specs.Prelude.{◌≡◌, IfOk};

use ax_parse_grammar::tree::{Expr, Name, Prefix};
use ax_prog::{Bin, Span};
use sqlite_items::{Boxed, Items};
use std::alloc::{AllocError, Global};

/// A unary operator and its operand.
pub fn unary_node(alloc: Global, span: Span, op: Prefix, a: Expr) -> Result<Expr, AllocError>
    ensures { IfOk result (λ x. x ≡ Expr.Unary span op a) }
{
    Ok(Expr::Unary(span, op, Boxed::new(alloc, a)?))
}

/// A binary operator and its operands.
pub fn binary_node(alloc: Global, span: Span, op: Bin, a: Expr, b: Expr) -> Result<Expr, AllocError>
    ensures { IfOk result (λ x. x ≡ Expr.Binary span op a b) }
{
    Ok(Expr::Binary(span, op, Boxed::new(alloc, a)?, Boxed::new(alloc, b)?))
}

/// `c ? a : b`
pub fn cond_node(alloc: Global, span: Span, c: Expr, a: Expr, b: Expr) -> Result<Expr, AllocError>
    ensures { IfOk result (λ x. x ≡ Expr.Cond span c a b) }
{
    Ok(Expr::Cond(
        span,
        Boxed::new(alloc, c)?,
        Boxed::new(alloc, a)?,
        Boxed::new(alloc, b)?,
    ))
}

/// `a[i]`
pub fn index_node(alloc: Global, span: Span, a: Expr, i: Expr) -> Result<Expr, AllocError>
    ensures { IfOk result (λ x. x ≡ Expr.Index span a i) }
{
    Ok(Expr::Index(span, Boxed::new(alloc, a)?, Boxed::new(alloc, i)?))
}

/// `a.n`
pub fn member_node(alloc: Global, span: Span, a: Expr, n: Name) -> Result<Expr, AllocError>
    ensures { IfOk result (λ x. x ≡ Expr.Member span a n) }
{
    Ok(Expr::Member(span, Boxed::new(alloc, a)?, n))
}

/// `a->n`
pub fn arrow_node(alloc: Global, span: Span, a: Expr, n: Name) -> Result<Expr, AllocError>
    ensures { IfOk result (λ x. x ≡ Expr.Arrow span a n) }
{
    Ok(Expr::Arrow(span, Boxed::new(alloc, a)?, n))
}

/// `f(xs)`
pub fn call_node(alloc: Global, span: Span, f: Expr, xs: Items<Expr>) -> Result<Expr, AllocError>
    ensures { IfOk result (λ x. x ≡ Expr.Call span f xs) }
{
    Ok(Expr::Call(span, Boxed::new(alloc, f)?, xs))
}
