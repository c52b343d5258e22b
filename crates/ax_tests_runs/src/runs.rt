//! Programs that the plain program and the interpreter run alike. What they print, return and use was found by hand from the
//! standard's rules.

use crate::texts::{BELOW, program_of};
use ax_flow::lower;
use ax_interp::run;
use ax_interp_plain::{evaluations_of, passes};
use ax_meaning::{Run, RunEnd, Why};
use ax_prog::copy::copy_stmt;
use ax_prog::{Fun, FunId, Lval, Program, SlotId, Stmt, Ty, VarId};
use ax_suite::read_suite;
use sqlite_items::{Boxed, Items};
use std::alloc::{AllocError, Global};
use std::process::Abort;
use std::test::Fail;

/// How a run ended: the number returned, or why it is undefined, or neither where it is out of steps; and what it printed.
fn ended(run: &Run) -> (Option<i32>, Option<Why>, &[i32]) {
    match &run.end {
        RunEnd::Returned { out, ret } => (Some(*ret), None, out.as_slice()),
        RunEnd::Undefined { why, out } => (None, Some(*why), out.as_slice()),
        RunEnd::OutOfSteps { out } => (None, None, out.as_slice()),
    }
}

/// Outputs too few, too many and right, and a number returned; the second input is only reached by the second number.
#[test]
fn a_program_passes_its_tests(rt: HostRuntime) -> Result<(), Fail> {
    let alloc = rt.alloc();
    let program = program_of(alloc, BELOW)?;
    let text =
        "[{\"in\":[1,2],\"out\":[1]},{\"in\":[1,2],\"out\":[1,1]},{\"in\":[1,2],\"out\":[]},{\"in\":[1,2],\"out\":[1],\"ret\":1},{\"in\":[2,2],\"out\":[0]}]";
    let suite = read_suite(alloc, text.as_bytes()).ok().ok_or("no suite")?;
    let wanted = [true, false, false, false, true];
    assert_eq!(rt; suite.tests.len(), wanted.len());
    for (test, wanted) in suite.tests.as_slice().iter().zip(wanted) {
        let done = ax_interp_plain::run(alloc, &program, test.inputs.as_slice(), 100)?;
        assert_eq!(rt; passes(&done, test), wanted);
    }
    Ok(())
}

/// Of two inputs the run has seven steps, and evaluates the printed 1 and the returned 0 once each, but not the other 0. Of one
/// input it is undefined in its fourth step.
#[test]
fn runs_count_steps_and_evaluations(rt: HostRuntime) -> Result<(), Fail> {
    let alloc = rt.alloc();
    let program = program_of(alloc, BELOW)?;
    let done = ax_interp_plain::run(alloc, &program, &[1, 2], 100)?;
    assert_eq!(rt; done.used, 7);
    for (slot, evaluations) in [(1, 1), (2, 0), (3, 1)] {
        assert_eq!(rt; evaluations_of(&done, SlotId(slot)), evaluations);
    }
    let stopped = ax_interp_plain::run(alloc, &program, &[1], 100)?;
    assert_eq!(rt; ended(&stopped), (None, Some(Why::NoInput), [].as_slice()));
    assert_eq!(rt; stopped.used, 4);
    Ok(())
}

/// A function for each of these numbers, that calls the function of that number. The first is `main`.
fn calls(alloc: Global, callees: &[u32]) -> Result<Program, AllocError> {
    let mut funs = Items::new(alloc);
    for callee in callees {
        let call = Stmt::Call(FunId(*callee), Items::new(alloc));
        funs.push(Fun {
            name: Items::new(alloc),
            params: Items::new(alloc),
            result: Some(Ty::Int),
            body: Items::from_vec(vec![in alloc; call]?),
        })?;
    }
    Ok(Program {
        structs: Items::new(alloc),
        vars: Items::new(alloc),
        globals: Items::new(alloc),
        funs,
        main: FunId(0),
        slots: Items::new(alloc),
    })
}

/// `int f() { f(); } int main() { f(); }`
#[test]
fn calls_nest_five_hundred_deep(rt: HostRuntime) -> Result<(), Fail> {
    let program = calls(rt.alloc(), &[1, 1])?;
    let done = ax_interp_plain::run(rt.alloc(), &program, &[], 500)?;
    assert_eq!(rt; done.used, 500);
    assert_eq!(rt; ended(&done), (None, None, [].as_slice()));
    Ok(())
}

/// `while (..) { then i++; }` for `if (..) then`, where `i` is the second variable.
fn repeated(alloc: Global, statement: &Stmt) -> Result<Stmt, Fail> {
    match statement {
        Stmt::If(test, then, None) => {
            let next = Stmt::Bump(Lval::Var(VarId(1)), true);
            let turn = vec![in alloc; copy_stmt(alloc, then.get())?, next]?;
            let turn = Boxed::new(alloc, Stmt::Block(Items::from_vec(turn)))?;
            Ok(Stmt::While(*test, turn))
        }
        _ => Err(Fail::from("no condition")),
    }
}

/// Repeats the condition at that place of a function.
fn repeat(alloc: Global, fun: &mut Fun, at: usize) -> Result<(), Fail> {
    let statement = fun.body.get(at).ok_or("no statement")?;
    let turns = repeated(alloc, statement)?;
    if at >= fun.body.len() {
        return Err(Fail::from("no statement"));
    }
    fun.body.set(at, turns);
    Ok(())
}

/// `int main() { int n; int i; int s; scanf("%d", &n); i = 0; s = 0; while (i <= n) { s = s + i; i++; }
/// printf("%d", s); return 0; }`
fn sum(alloc: Global) -> Result<Program, Fail> {
    let mut program = program_of(alloc, SUM)?;
    let mut main = program.funs.pop().ok_or("no main")?;
    repeat(alloc, &mut main, 6)?;
    program.funs.push(main)?;
    Ok(program)
}

const SUM: &str =
    "int main() { int n; int i; int s; scanf(\"%d\", &n); i = 0; s = 0; if (i <= n) s = s + i; printf(\"%d\", s); return 0; }";

/// A run uses up the steps, prints these numbers, and returns this number or is out of steps.
fn uses_up(rt: &impl Abort, done: &Run, steps: u32, wanted: (Option<i32>, Option<Why>, &[i32])) {
    assert_eq!(rt; done.used, steps);
    assert_eq!(rt; ended(done), wanted);
}

/// What the interpreter does of a program on the input 3.
fn flat_run(alloc: Global, program: &Program, steps: u32) -> Result<Run, AllocError> {
    let flow = lower(alloc, program)?;
    run(alloc, &flow, &[3], steps)
}

/// Both run a program on the input 3 alike: they use up the steps, print these numbers, and return this number or are out of steps.
fn both_use_up(
    rt: &impl Abort,
    alloc: Global,
    program: &Program,
    steps: u32,
    wanted: (Option<i32>, Option<Why>, &[i32]),
) -> Result<(), AllocError> {
    let flat = flat_run(alloc, program, steps)?;
    let plain = ax_interp_plain::run(alloc, program, &[3], steps)?;
    uses_up(rt, &flat, steps, wanted);
    uses_up(rt, &plain, steps, wanted);
    assert!(rt; flat.counts.as_slice() == plain.counts.as_slice());
    Ok(())
}

#[test]
fn both_run_alike(rt: HostRuntime) -> Result<(), Fail> {
    let alloc = rt.alloc();
    let program = sum(alloc)?;
    both_use_up(&rt, alloc, &program, 20, (None, None, &[6]))?;
    both_use_up(&rt, alloc, &program, 21, (Some(0), None, &[6]))?;
    both_use_up(&rt, alloc, &calls(alloc, &[0])?, 500, (None, None, &[]))?;
    Ok(())
}

/// `int main() { main(); }`
#[test]
fn a_million_calls_are_open_at_once(rt: HostRuntime) -> Result<(), Fail> {
    let program = calls(rt.alloc(), &[0])?;
    let flow = lower(rt.alloc(), &program)?;
    let done = run(rt.alloc(), &flow, &[], 1_000_000)?;
    assert_eq!(rt; done.used, 1_000_000);
    assert_eq!(rt; ended(&done), (None, None, [].as_slice()));
    Ok(())
}

const DEEP: &str =
    "int f(int n) { if (n <= 0) return 0; int r = f(n - 1); int s = r + 1; return s; } int main() { int n; scanf(\"%d\", &n); int r = f(n); return r; }";

/// A hundred thousand open calls return. Of each two objects begin before its callee's, and one after them.
#[test]
fn a_deep_recursion_returns(rt: HostRuntime) -> Result<(), Fail> {
    let program = program_of(rt.alloc(), DEEP)?;
    let flow = lower(rt.alloc(), &program)?;
    let done = run(rt.alloc(), &flow, &[100_000], 1_000_000)?;
    assert_eq!(rt; done.used, 500_007);
    assert_eq!(rt; ended(&done), (Some(100_000), None, [].as_slice()));
    Ok(())
}

/// `p->n->n .. ->v = 1` with so many arrows before the last one, where `p->n` is `p`.
fn chain(alloc: Global, arrows: u32) -> Result<String, AllocError> {
    let mut source = String::from_str(
        alloc,
        "struct n { struct n *n; int v; }; int main() { struct n a; struct n *p; a.n = &a; p = &a; p",
    )?;
    for _ in 0..arrows {
        source.push_str("->n")?;
    }
    source.push_str("->v = 1; return a.v; }")?;
    Ok(source)
}

/// A chain of 6,000 arrows is read, and runs in an ordinary stack.
#[test]
fn a_long_chain_runs(rt: HostRuntime) -> Result<(), Fail> {
    let source = chain(rt.alloc(), 5_999)?;
    let program = program_of(rt.alloc(), &source)?;
    let flow = lower(rt.alloc(), &program)?;
    let done = run(rt.alloc(), &flow, &[], 100)?;
    assert_eq!(rt; ended(&done), (Some(1), None, [].as_slice()));
    Ok(())
}
