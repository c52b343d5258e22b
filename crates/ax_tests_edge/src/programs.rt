use ax_prog::copy::{copy_program, copy_suite, copy_tokens};
use ax_prog::nodes::node_count;
use ax_prog::same::same_expr;
use ax_prog::tokens::{Kind, Token};
use ax_prog::{
    Expr, Fun, FunId, Init, Program, Slot, SlotId, Span, Stmt, Suite, Test, Ty, Un, Value, Var,
    VarId,
};
use sqlite_items::{Boxed, Items};
use std::alloc::{AllocError, Global};

const NOWHERE: Span = Span { from: 0, to: 0 };

/// The slot of `- - .. 7` with that many signs.
fn slot(alloc: Global, signs: u32) -> Result<Slot, AllocError> {
    let mut expr = Expr::Num(7);
    for _ in 0..signs {
        expr = Expr::Un(Un::Neg, Boxed::new(alloc, expr)?);
    }
    Ok(Slot {
        span: NOWHERE,
        expr,
        scope: Items::new(alloc),
        atoms: Items::new(alloc),
    })
}

/// `int main() { printf("%d", ..); return ..; }`.
fn main_of(alloc: Global) -> Result<Fun, AllocError> {
    let mut main = Fun {
        name: Items::from_slice(alloc, b"main")?,
        params: Items::new(alloc),
        result: Some(Ty::Int),
        body: Items::new(alloc),
    };
    main.body.push(Stmt::Print(SlotId(0)))?;
    main.body.push(Stmt::Return(Some(Value::Int(SlotId(1)))))?;
    Ok(main)
}

/// `int x = ..; int main() { printf("%d", ..); return ..; }`, and a third slot of 32 nodes.
fn sample(alloc: Global) -> Result<Program, AllocError> {
    let mut program = Program {
        structs: Items::new(alloc),
        vars: Items::new(alloc),
        globals: Items::new(alloc),
        funs: Items::new(alloc),
        main: FunId(0),
        slots: Items::new(alloc),
    };
    let name = Items::from_slice(alloc, b"x")?;
    program.vars.push(Var { name, ty: Ty::Int })?;
    let three = Init::List(Items::from_slice(alloc, &[3])?);
    program.globals.push((VarId(0), three))?;
    program.funs.push(main_of(alloc)?)?;
    for signs in [0, 30, 31] {
        program.slots.push(slot(alloc, signs)?)?;
    }
    Ok(program)
}

/// Whether the program has three slots, of which the third has 32 nodes.
fn has_its_slots(program: &Program) -> bool {
    program.slots.len() == 3 && node_count(program.expr_at(SlotId(2))) == 32
}

/// Whether the third slot of a program is 5, and the second one that of the other.
fn is_replaced(changed: &Program, program: &Program) -> bool {
    changed.slots.len() == 3
        && program.slots.len() == 3
        && same_expr(changed.expr_at(SlotId(1)), program.expr_at(SlotId(1)))
        && same_expr(changed.expr_at(SlotId(2)), &Expr::Num(5))
}

/// Whether the candidates are the first two slots, and a copy has three slots too.
fn are_found(alloc: Global, program: &Program) -> Result<bool, AllocError> {
    let candidates = program.candidates(alloc)?;
    if candidates.as_slice() != [SlotId(0), SlotId(1)].as_slice() {
        return Ok(false);
    }
    Ok(copy_program(alloc, program)?.slots.len() == 3)
}

/// Whether 5 takes the third slot's place, and is a candidate there.
fn are_replaced(alloc: Global, program: &Program) -> Result<bool, AllocError> {
    if program.slots.len() != 3 {
        return Ok(false);
    }
    let changed = program.substitute(alloc, SlotId(2), Expr::Num(5))?;
    Ok(is_replaced(&changed, program) && changed.candidates(alloc)?.len() == 3)
}

#[test]
fn slots_are_found_and_replaced(rt: HostRuntime) -> Result<(), AllocError> {
    let alloc = rt.alloc();
    let program = sample(alloc)?;
    assert!(rt; has_its_slots(&program));
    assert!(rt; are_found(alloc, &program)?);
    assert!(rt; are_replaced(alloc, &program)?);
    Ok(())
}

#[test]
fn suites_and_tokens_are_copied(rt: HostRuntime) -> Result<(), AllocError> {
    let alloc = rt.alloc();
    let mut tests = Items::new(alloc);
    tests.push(Test {
        inputs: Items::from_slice(alloc, &[1, 2])?,
        outputs: Items::new(alloc),
        ret: -1,
    })?;
    assert!(rt; copy_suite(alloc, &Suite { tests })?.tests.len() == 1);
    let kind = Kind::Number(4);
    let token = Token {
        kind,
        span: NOWHERE,
    };
    assert!(rt; copy_tokens(alloc, &[token])?.len() == 1);
    Ok(())
}
