//! Equality of trees.
ghost use Rattle.std.specs.Prelude.{◌≡◌, ◌↔◌, IsTrue};

use crate::{Atom, Expr, Lval, Pexpr};

#[cycle(same_tree)]
pub fn same_expr(a: &Expr, b: &Expr) -> bool
    ensures { IsTrue result ↔ (a.now ≡ b.now) }
{
    match (a, b) {
        (Expr::Num(m), Expr::Num(n)) => *m == *n,
        (Expr::Atom(a), Expr::Atom(b)) => same_atom(a.get(), b.get()),
        (Expr::Un(op, a), Expr::Un(with, b)) => *op == *with && same_expr(a.get(), b.get()),
        (Expr::Bin(op, a, b), Expr::Bin(with, c, d)) => {
            *op == *with && same_expr(a.get(), c.get()) && same_expr(b.get(), d.get())
        }
        (Expr::Cond(f, a, b), Expr::Cond(g, c, d)) => {
            same_expr(f.get(), g.get())
                && same_expr(a.get(), c.get())
                && same_expr(b.get(), d.get())
        }
        _ => false,
    }
}

#[cycle(same_tree)]
pub fn same_atom(a: &Atom, b: &Atom) -> bool
    ensures { IsTrue result ↔ (a.now ≡ b.now) }
{
    match (a, b) {
        (Atom::Read(a), Atom::Read(b)) => same_lval(a, b),
        (Atom::Same(p, q), Atom::Same(r, s)) => same_pexpr(p, r) && same_pexpr(q, s),
        (Atom::Differ(p, q), Atom::Differ(r, s)) => same_pexpr(p, r) && same_pexpr(q, s),
        _ => false,
    }
}

#[cycle(same_tree)]
pub fn same_lval(a: &Lval, b: &Lval) -> bool
    ensures { IsTrue result ↔ (a.now ≡ b.now) }
{
    match (a, b) {
        (Lval::Var(m), Lval::Var(n)) => m.0 == n.0,
        (Lval::Deref(p), Lval::Deref(q)) => same_pexpr(p.get(), q.get()),
        (Lval::Field(a, m), Lval::Field(b, n)) => *m == *n && same_lval(a.get(), b.get()),
        _ => false,
    }
}

#[cycle(same_tree)]
pub fn same_pexpr(a: &Pexpr, b: &Pexpr) -> bool
    ensures { IsTrue result ↔ (a.now ≡ b.now) }
{
    match (a, b) {
        (Pexpr::Null, Pexpr::Null) => true,
        (Pexpr::Read(a), Pexpr::Read(b)) => same_lval(a.get(), b.get()),
        (Pexpr::Decay(a), Pexpr::Decay(b)) => same_lval(a.get(), b.get()),
        (Pexpr::Address(a), Pexpr::Address(b)) => same_lval(a.get(), b.get()),
        (Pexpr::Plus(p, i), Pexpr::Plus(q, j)) => {
            same_pexpr(p.get(), q.get()) && same_expr(i.get(), j.get())
        }
        (Pexpr::Minus(p, i), Pexpr::Minus(q, j)) => {
            same_pexpr(p.get(), q.get()) && same_expr(i.get(), j.get())
        }
        _ => false,
    }
}
