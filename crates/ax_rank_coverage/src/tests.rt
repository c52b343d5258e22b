//! Worked examples over a program made by hand, as a tree.
use crate::{choose, report};
use ax_prog::{
    Atom, Bin, Expr, Fun, FunId, Init, Lval, Program, Slot, SlotId, Span, Stmt, Test, Ty, Value,
    Var, VarId,
};
use ax_rank::{Jaccard, Ranker, Tarantula};
use sqlite_items::{Boxed, Items};
use std::alloc::{AllocError, Global};
use std::test::Fail;

fn list<T: Drop>(all: Vec<T>) -> Result<Items<T>, AllocError> {
    Ok(Items::from_vec(all))
}

fn var(alloc: Global, ty: Ty) -> Var {
    Var {
        name: Items::new(alloc),
        ty,
    }
}

fn slot(alloc: Global, expr: Expr) -> Slot {
    Slot {
        span: Span { from: 0, to: 0 },
        expr,
        scope: Items::new(alloc),
        atoms: Items::new(alloc),
    }
}

fn num(alloc: Global, n: i32) -> Slot {
    slot(alloc, Expr::Num(n))
}

fn place(v: u32) -> Lval {
    Lval::Var(VarId(v))
}

fn read(alloc: Global, v: u32) -> Result<Expr, AllocError> {
    Ok(Expr::Atom(Boxed::new(alloc, Atom::Read(place(v)))?))
}

fn bin(alloc: Global, op: Bin, a: Expr, b: Expr) -> Result<Slot, AllocError> {
    let a = Boxed::new(alloc, a)?;
    Ok(slot(alloc, Expr::Bin(op, a, Boxed::new(alloc, b)?)))
}

fn declares(v: u32) -> Stmt {
    Stmt::Decl(VarId(v), Init::Nothing)
}

fn prints(id: u32) -> Stmt {
    Stmt::Print(SlotId(id))
}

fn returns(id: u32) -> Stmt {
    Stmt::Return(Some(Value::Int(SlotId(id))))
}

fn fun(alloc: Global, params: Items<VarId>, body: Items<Stmt>) -> Fun {
    Fun {
        name: Items::new(alloc),
        params,
        result: Some(Ty::Int),
        body,
    }
}

fn program(alloc: Global, vars: Items<Var>, funs: Items<Fun>, slots: Items<Slot>) -> Program {
    Program {
        structs: Items::new(alloc),
        vars,
        globals: Items::new(alloc),
        funs,
        main: FunId(0),
        slots,
    }
}

/// `int main() { int x; int y; scanf("%d", &x); scanf("%d", &y); if (x < y) printf("%d", 1); else printf("%d", 0); return 0; }`
fn below(alloc: Global) -> Result<Program, AllocError> {
    let first = Boxed::new(alloc, prints(1))?;
    let second = Some(Boxed::new(alloc, prints(2))?);
    let decide = Stmt::If(SlotId(0), first, second);
    let reads = vec![in alloc;
        declares(0),
        declares(1),
        Stmt::Read(place(0)),
        Stmt::Read(place(1)),
    ]?;
    let mut body = list(reads)?;
    body.append(list(vec![in alloc; decide, returns(3)]?)?)?;
    let funs = list(vec![in alloc; fun(alloc, Items::new(alloc), body)]?)?;
    let less = bin(alloc, Bin::Lt, read(alloc, 0)?, read(alloc, 1)?)?;
    let zero = num(alloc, 0);
    let slots = list(vec![in alloc; less, num(alloc, 1), num(alloc, 0), zero]?)?;
    let vars = list(vec![in alloc; var(alloc, Ty::Int), var(alloc, Ty::Int)]?)?;
    Ok(program(alloc, vars, funs, slots))
}

fn test(alloc: Global, inputs: &[i32], outputs: &[i32], ret: i32) -> Result<Test, AllocError> {
    Ok(Test {
        inputs: Items::from_slice(alloc, inputs)?,
        outputs: Items::from_slice(alloc, outputs)?,
        ret,
    })
}

// The second test alone fails. It and the third cover the expressions 1, 3 and 4, the others 1, 2 and 4.
fn four(alloc: Global) -> Result<Vec<Test>, AllocError> {
    let first = test(alloc, &[1, 2], &[1], 0)?;
    let second = test(alloc, &[2, 2], &[1], 0)?;
    let third = test(alloc, &[3, 2], &[0], 0)?;
    let fourth = test(alloc, &[5, 7], &[1], 0)?;
    Ok(vec![in alloc; first, second, third, fourth]?)
}

#[test]
fn four_tests_by_jaccard(rt: HostRuntime) -> Result<(), Fail> {
    let alloc = rt.alloc();
    let mut ranker = Jaccard::new(alloc);
    let text = report(
        alloc,
        &mut ranker,
        &below(alloc)?,
        four(alloc)?.as_slice(),
        100,
    )?;
    let want = b"expression 3: 1/2\nexpression 1: 1/4\nexpression 4: 1/4\nexpression 2: 0/3\n";
    assert!(rt; text.as_slice() == want.as_slice());
    Ok(())
}

#[test]
fn runs_out_of_steps_cover_what_they_began(rt: HostRuntime) -> Result<(), Fail> {
    let alloc = rt.alloc();
    let mut ranker = Jaccard::new(alloc);
    let text = report(
        alloc,
        &mut ranker,
        &below(alloc)?,
        four(alloc)?.as_slice(),
        5,
    )?;
    let want = b"expression 1: 4/4\nexpression 2: 0/4\nexpression 3: 0/4\nexpression 4: 0/4\n";
    assert!(rt; text.as_slice() == want.as_slice());
    Ok(())
}

#[test]
fn runs_seen_before_count(rt: HostRuntime) -> Result<(), Fail> {
    let alloc = rt.alloc();
    let mut ranker = Tarantula::new(alloc);
    ranker.see(&[], true)?;
    let tests = vec![in alloc;
        test(alloc, &[1, 2], &[1], 0)?,
        test(alloc, &[2, 2], &[1], 0)?,
    ]?;
    let text = report(alloc, &mut ranker, &below(alloc)?, tests.as_slice(), 100)?;
    let want = b"expression 3: 2/2\nexpression 1: 2/3\nexpression 4: 2/3\nexpression 2: 0/1\n";
    assert!(rt; text.as_slice() == want.as_slice());
    Ok(())
}

// The numbers of the first candidates.
fn chosen(alloc: Global, count: u32) -> Result<Items<u64>, AllocError> {
    let mut ranker = Jaccard::new(alloc);
    choose(
        alloc,
        &mut ranker,
        &below(alloc)?,
        four(alloc)?.as_slice(),
        100,
        count,
    )
}

#[test]
fn the_first_of_the_order(rt: HostRuntime) -> Result<(), Fail> {
    assert!(rt; chosen(rt.alloc(), 1)?.as_slice() == [3].as_slice());
    assert!(rt; chosen(rt.alloc(), 2)?.as_slice() == [3, 1].as_slice());
    assert!(rt; chosen(rt.alloc(), 9)?.as_slice() == [3, 1, 4, 2].as_slice());
    Ok(())
}
