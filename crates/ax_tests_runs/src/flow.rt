//! A program lowered, with its places found by hand.

use ax_flow::{Flow, Op, lower};
use ax_prog::{Fun, FunId, Init, Lval, Program, SlotId, Stmt, Value, VarId};
use sqlite_items::{Boxed, Items};
use std::alloc::{AllocError, Global};

/// The place that the op at a place goes to, other than the next one.
fn goes(flow: &Flow, at: usize) -> Option<usize> {
    match flow.code.get(at) {
        Some(Op::Test(_, to) | Op::Jump(to)) => Some(*to),
        _ => None,
    }
}

/// The variable that the op at a place ends.
fn ends(flow: &Flow, at: usize) -> Option<VarId> {
    match flow.code.get(at) {
        Some(Op::End(var)) => Some(*var),
        _ => None,
    }
}

fn fun(alloc: Global, body: Items<Stmt>) -> Fun {
    Fun {
        name: Items::new(alloc),
        params: Items::new(alloc),
        result: None,
        body,
    }
}

/// `for (int i; ..; i++) { int t; if (..) continue; break; }`
fn turns(alloc: Global) -> Result<Stmt, AllocError> {
    let inside = vec![in alloc;
        Stmt::Decl(VarId(1), Init::Nothing),
        Stmt::If(SlotId(1), Boxed::new(alloc, Stmt::Continue)?, None),
        Stmt::Break,
    ]?;
    let header = vec![in alloc; Stmt::Decl(VarId(0), Init::Nothing)]?;
    let next = Boxed::new(alloc, Stmt::Bump(Lval::Var(VarId(0)), true))?;
    let body = Boxed::new(alloc, Stmt::Block(Items::from_vec(inside)))?;
    Ok(Stmt::For(Items::from_vec(header), Some(SlotId(0)), Some(next), body))
}

/// The turns, then `return ..;`, and an empty function.
fn loop_program(alloc: Global) -> Result<Program, AllocError> {
    let last = Stmt::Return(Some(Value::Int(SlotId(2))));
    let whole = vec![in alloc; turns(alloc)?, last]?;
    let main = fun(alloc, Items::from_vec(whole));
    let funs = vec![in alloc; main, fun(alloc, Items::new(alloc))]?;
    Ok(Program {
        structs: Items::new(alloc),
        vars: Items::new(alloc),
        globals: Items::new(alloc),
        funs: Items::from_vec(funs),
        main: FunId(0),
        slots: Items::new(alloc),
    })
}

#[test]
fn jumps_go_to_their_places(rt: HostRuntime) -> Result<(), AllocError> {
    let alloc = rt.alloc();
    let program = loop_program(alloc)?;
    let flow = lower(alloc, &program)?;
    flow.runs_as_its_program();
    assert_eq!(rt; flow.code.len(), 15);
    assert!(rt; flow.starts.as_slice() == [0, 14].as_slice());
    for (at, to) in [(1, 11), (3, 6), (5, 9), (7, 11), (10, 1)] {
        assert_eq!(rt; goes(&flow, at), Some(to), "at {at}");
    }
    for (at, var) in [(4, 1), (6, 1), (8, 1), (11, 0)] {
        assert_eq!(rt; ends(&flow, at), Some(VarId(var)), "at {at}");
    }
    Ok(())
}
