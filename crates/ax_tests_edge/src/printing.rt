use ax_print::{expr_text, splice};
use ax_prog::{
    Atom, Bin, Expr, FunId, Lval, Pexpr, Program, Slot, SlotId, Span, Ty, Un, Var, VarId,
};
use sqlite_items::{Boxed, Items};
use std::alloc::{AllocError, Global};

const SOURCE: &str = "int x; int *p; int main() { return x + (p == 0); }";

fn binary(alloc: Global, op: Bin, a: Expr, b: Expr) -> Result<Expr, AllocError> {
    let a = Boxed::new(alloc, a)?;
    Ok(Expr::Bin(op, a, Boxed::new(alloc, b)?))
}

fn x(alloc: Global) -> Result<Expr, AllocError> {
    Ok(Expr::Atom(Boxed::new(alloc, Atom::Read(Lval::Var(VarId(0))))?))
}

fn p_is_null(alloc: Global) -> Result<Atom, AllocError> {
    let p = Boxed::new(alloc, Lval::Var(VarId(1)))?;
    Ok(Atom::Same(Pexpr::Read(p), Pexpr::Null))
}

/// The program of `SOURCE`, but for its statements.
fn sample(alloc: Global) -> Result<Program, AllocError> {
    let mut atoms = Items::new(alloc);
    atoms.push((p_is_null(alloc)?, Span { from: 40, to: 46 }))?;
    let mut slots = Items::new(alloc);
    slots.push(Slot {
        span: Span { from: 35, to: 47 },
        expr: Expr::Num(0),
        scope: Items::new(alloc),
        atoms,
    })?;
    let name = Items::from_slice(alloc, b"x")?;
    let mut vars = Items::new(alloc);
    vars.push(Var { name, ty: Ty::Int })?;
    Ok(Program {
        structs: Items::new(alloc),
        vars,
        globals: Items::new(alloc),
        funs: Items::new(alloc),
        main: FunId(0),
        slots,
    })
}

/// `(x <= 18) ? -x : x + (p == 0)`.
fn choice(alloc: Global) -> Result<Expr, AllocError> {
    let test = Boxed::new(alloc, binary(alloc, Bin::Le, x(alloc)?, Expr::Num(18))?)?;
    let x_again = Boxed::new(alloc, x(alloc)?)?;
    let negative = Boxed::new(alloc, Expr::Un(Un::Neg, x_again))?;
    let null = Expr::Atom(Boxed::new(alloc, p_is_null(alloc)?)?);
    let sum = binary(alloc, Bin::Add, x(alloc)?, null)?;
    Ok(Expr::Cond(test, negative, Boxed::new(alloc, sum)?))
}

/// `!(x << 1)`.
fn shifted(alloc: Global) -> Result<Expr, AllocError> {
    let shift = binary(alloc, Bin::Shl, x(alloc)?, Expr::Num(1))?;
    Ok(Expr::Un(Un::Not, Boxed::new(alloc, shift)?))
}

fn is_written(alloc: Global, tree: Expr, wanted: &str) -> Result<bool, AllocError> {
    let program = sample(alloc)?;
    let text = expr_text(alloc, SOURCE.as_bytes(), &program, SlotId(0), &tree)?;
    Ok(text.as_slice() == wanted.as_bytes())
}

#[test]
fn trees_are_written(rt: HostRuntime) -> Result<(), AllocError> {
    let alloc = rt.alloc();
    assert!(rt; is_written(alloc, x(alloc)?, "(x)")?);
    assert!(rt; is_written(alloc, Expr::Num(2147483647), "(2147483647)")?);
    assert!(rt; is_written(alloc, shifted(alloc)?, "(!(x << 1))")?);
    let conditional = "((x <= 18) ? (-x) : (x + (p == 0)))";
    assert!(rt; is_written(alloc, choice(alloc)?, conditional)?);
    Ok(())
}

#[test]
fn parts_are_replaced(rt: HostRuntime) -> Result<(), AllocError> {
    let alloc = rt.alloc();
    let first = (Span { from: 4, to: 5 }, Items::from_slice(alloc, b"size")?);
    let second = (Span { from: 5, to: 5 }, Items::from_slice(alloc, b"[2]")?);
    let text = splice(alloc, b"int x;", &[first, second])?;
    assert!(rt; text.as_slice() == b"int size[2];".as_slice());
    assert!(rt; splice(alloc, b"int x;", &[])?.as_slice() == b"int x;".as_slice());
    Ok(())
}
