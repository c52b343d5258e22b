//! The execution of statements and calls, by recursion on the tree (C11 6.8, 6.5.2.2, 6.9.1).
//!
//! `calls` is how many calls may be open at once from here on.
ghost use Rattle.std.specs.Prelude.{◌≡◌, ◌≤◌, ◌+◌, [], suc, IfOk};
ghost use Rattle.ax_meaning.specs.declared.State.{State};
ghost use Rattle.ax_meaning.specs.Acts.{condition_or_true};
ghost use Rattle.ax_meaning.specs.Execution.{Outcome, turns as turns_of, ends, call_with, assign_outcome, declare_outcome, return_outcome, execution_of, block_execution, body_execution, calls as calls_of};
ghost use Rattle.ax_interp_plain.specs.Completions.{ending_of, with_turn, setting_of, purpose_of, execution_of_optional, for_execution, turn_execution, stay};
ghost use Rattle.ax_interp_plain.specs.Weights.{weight, weights, optional_weight, widest};

use crate::acting::{
    after_called, assigns, bumps, changes, declares, gives, gives_none, leaves, leaves_loop,
    prints, reads,
};
use crate::blocks::{finish_block, leave_block};
use crate::calling::{call_end, evaluated};
use crate::completion::{Completion, Plain, Purpose};
use ax_interp_acts::calling::{copied_names, enter};
use ax_interp_acts::deciding::{condition, goes_on};
use ax_interp_acts::declaring::declare_blank;
use ax_interp_acts::sources::Source;
use ax_interp_values::store::leave;
use ax_meaning::{Cell, State, Stop, Why};
use ax_prog::{Arg, FunId, Init, Lval, SlotId, Stmt, Value, VarId};
use sqlite_items::{Boxed, Items};
use std::alloc::AllocError;

/// Executes a statement.
#[cycle(execution)]
#[tactic(auto, using(ax_meaning::proofs::Statements::statements))]
fn statement(
    tree: &Stmt,
    plain: &Plain,
    calls: u64,
    state: &mut State,
) -> Result<Completion, AllocError>
    requires { weight tree.now ≤ widest plain.now.layout.program.now }
    ensures { IfOk result (λ end. ends (ending_of end) state.new ≡ execution_of (setting_of plain.now) (calls_of (setting_of plain.now) calls) tree.now state.old) }
{
    match tree {
        Stmt::Empty => Ok(Completion::Next),
        Stmt::Block(items) => {
            let items = items.as_slice();
            let end = block(items, plain, calls, state)?;
            finish_block(items, end, state);
            Ok(end)
        }
        Stmt::Decl(id, init) => declared(*id, init, plain, calls, state),
        Stmt::Assign(place, value) => assigned(place, value, plain, calls, state),
        Stmt::Change(place, op, id) => Ok(changes(place, *op, *id, plain, state)),
        Stmt::Bump(place, up) => Ok(bumps(place, *up, plain, state)),
        Stmt::Call(f, args) => called(*f, args, Purpose::Nothing, plain, calls, state),
        Stmt::If(id, a, b) => match condition(*id, &plain.layout, plain.steps, state) {
            Err(stop) => Ok(Completion::Stopped(stop)),
            Ok(true) => statement(a.get(), plain, calls, state),
            Ok(false) => match b {
                None => Ok(Completion::Next),
                Some(b) => statement(b.get(), plain, calls, state),
            },
        },
        Stmt::While(id, a) => repeat(Some(*id), a.get(), &None, plain, calls, state),
        Stmt::Do(a, id) => {
            let end = statement(a.get(), plain, calls, state)?;
            match leaves_loop(end) {
                None => repeat(Some(*id), a.get(), &None, plain, calls, state),
                Some(end) => Ok(end),
            }
        }
        Stmt::For(first, id, next, a) => {
            for_loop(first.as_slice(), *id, next, a.get(), plain, calls, state)
        }
        Stmt::Break => Ok(Completion::Broke),
        Stmt::Continue => Ok(Completion::Continued),
        Stmt::Return(value) => given(value, plain, calls, state),
        Stmt::Read(place) => Ok(reads(place, plain, state)),
        Stmt::Print(id) => prints(*id, plain, state),
    }
}

/// Executes the statements of a block. Where one leaves the block, the variables that were declared before it end.
#[cycle(execution)]
fn block(
    items: &[Stmt],
    plain: &Plain,
    calls: u64,
    state: &mut State,
) -> Result<Completion, AllocError>
    requires { weights items.now ≤ widest plain.now.layout.program.now }
    ensures { IfOk result (λ end. ends (ending_of end) state.new ≡ block_execution (setting_of plain.now) (calls_of (setting_of plain.now) calls) items.now [] stay state.old) }
{
    for at in 0..items.len() {
        let end = statement(&items[at], plain, calls, state)?;
        leave_block(&items[..at], end, state);
        match leaves(end) {
            Some(end) => return Ok(end),
            None => {}
        }
    }
    Ok(Completion::Next)
}

/// Executes a `for`, whose variables end behind it.
#[cycle(execution)]
fn for_loop(
    first: &[Stmt],
    test: Option<SlotId>,
    next: &Option<Boxed<Stmt>>,
    body: &Stmt,
    plain: &Plain,
    calls: u64,
    state: &mut State,
) -> Result<Completion, AllocError>
    requires { weights first.now + optional_weight next.now + weight body.now ≤ widest plain.now.layout.program.now }
    ensures { IfOk result (λ end. ends (ending_of end) state.new ≡ for_execution (setting_of plain.now) (calls_of (setting_of plain.now) calls) first.now test next.now body.now state.old) }
{
    let end = block(first, plain, calls, state)?;
    match leaves(end) {
        Some(end) => Ok(end),
        None => {
            let end = repeat(test, body, next, plain, calls, state)?;
            leave_block(first, end, state);
            finish_block(first, end, state);
            Ok(end)
        }
    }
}

/// Goes through the turns of a loop.
#[cycle(execution)]
fn repeat(
    test: Option<SlotId>,
    body: &Stmt,
    next: &Option<Boxed<Stmt>>,
    plain: &Plain,
    calls: u64,
    state: &mut State,
) -> Result<Completion, AllocError>
    requires { weight body.now + optional_weight next.now ≤ widest plain.now.layout.program.now }
    ensures { IfOk result (λ end. ends (ending_of end) state.new ≡ turns_of (suc plain.now.steps) (condition_or_true (setting_of plain.now) test) (execution_of (setting_of plain.now) (calls_of (setting_of plain.now) calls) body.now) (execution_of_optional (setting_of plain.now) (calls_of (setting_of plain.now) calls) next.now) state.old) }
{
    let mut left = u64::from(plain.steps) + 1;
    'turns: while left > 0 {
        let end = turn(test, body, next, plain, calls, state)?;
        match end {
            Some(end) => return Ok(end),
            None => {}
        }
        left -= 1;
    }
    Ok(Completion::Unfinished)
}

/// One turn of a loop: its condition, its body and what follows the body. `None` where another turn begins.
#[cycle(execution)]
fn turn(
    test: Option<SlotId>,
    body: &Stmt,
    next: &Option<Boxed<Stmt>>,
    plain: &Plain,
    calls: u64,
    state: &mut State,
) -> Result<Option<Completion>, AllocError>
    requires { weight body.now + optional_weight next.now ≤ widest plain.now.layout.program.now }
    ensures { (rest : State → Outcome) → IfOk result (λ end. with_turn end state.new rest ≡ turn_execution (setting_of plain.now) (calls_of (setting_of plain.now) calls) test body.now next.now rest state.old) }
{
    match goes_on(test, &plain.layout, plain.steps, state) {
        Err(stop) => Ok(Some(Completion::Stopped(stop))),
        Ok(false) => Ok(Some(Completion::Next)),
        Ok(true) => {
            let end = statement(body, plain, calls, state)?;
            match leaves_loop(end) {
                Some(end) => Ok(Some(end)),
                None => match next {
                    None => Ok(None),
                    Some(next) => {
                        let end = statement(next.get(), plain, calls, state)?;
                        Ok(leaves(end))
                    }
                },
            }
        }
    }
}

/// Executes an assignment.
#[cycle(execution)]
fn assigned(
    place: &Lval,
    value: &Value,
    plain: &Plain,
    calls: u64,
    state: &mut State,
) -> Result<Completion, AllocError>
    ensures { IfOk result (λ end. ends (ending_of end) state.new ≡ assign_outcome (setting_of plain.now) (calls_of (setting_of plain.now) calls) place.now value.now state.old) }
{
    match value {
        Value::Int(id) => Ok(assigns(place, Source::Int(*id), plain, state)),
        Value::Ptr(q) => Ok(assigns(place, Source::Ptr(q), plain, state)),
        Value::Call(f, args) => called(*f, args, Purpose::Assign(place), plain, calls, state),
    }
}

/// Executes a declaration. A call is the value of a variable that was declared before it.
#[cycle(execution)]
fn declared(
    id: VarId,
    init: &Init,
    plain: &Plain,
    calls: u64,
    state: &mut State,
) -> Result<Completion, AllocError>
    ensures { IfOk result (λ end. ends (ending_of end) state.new ≡ declare_outcome (setting_of plain.now) (calls_of (setting_of plain.now) calls) id init.now state.old) }
{
    match init {
        Init::Nothing => declares(id, init, plain, state),
        Init::List(_) => declares(id, init, plain, state),
        Init::Value(value) => match value {
            Value::Int(_) => declares(id, init, plain, state),
            Value::Ptr(_) => declares(id, init, plain, state),
            Value::Call(f, args) => {
                let begun = declare_blank(plain.alloc, id, &plain.layout, plain.steps, state)?;
                match begun {
                    Err(stop) => Ok(Completion::Stopped(stop)),
                    Ok(()) => called(*f, args, Purpose::Keep(id), plain, calls, state),
                }
            }
        },
    }
}

/// Executes a `return`.
#[cycle(execution)]
fn given(
    value: &Option<Value>,
    plain: &Plain,
    calls: u64,
    state: &mut State,
) -> Result<Completion, AllocError>
    ensures { IfOk result (λ end. ends (ending_of end) state.new ≡ return_outcome (setting_of plain.now) (calls_of (setting_of plain.now) calls) value.now state.old) }
{
    match value {
        None => Ok(gives_none(plain, state)),
        Some(value) => match value {
            Value::Int(id) => Ok(gives(Source::Int(*id), plain, state)),
            Value::Ptr(q) => Ok(gives(Source::Ptr(q), plain, state)),
            Value::Call(f, args) => called(*f, args, Purpose::Give, plain, calls, state),
        },
    }
}

/// Evaluates the arguments, calls the function and uses its value.
#[cycle(execution)]
fn called(
    f: FunId,
    args: &Items<Arg>,
    purpose: Purpose,
    plain: &Plain,
    calls: u64,
    state: &mut State,
) -> Result<Completion, AllocError>
    ensures { IfOk result (λ end. ends (ending_of end) state.new ≡ call_with (setting_of plain.now) (calls_of (setting_of plain.now) calls) f.0 args.now state.old (purpose_of (setting_of plain.now) purpose.entry)) }
{
    let got = evaluated(args, plain, state)?;
    match got {
        Err(stop) => Ok(Completion::Stopped(stop)),
        Ok(cells) => {
            let end = call(f, cells, plain, calls, state)?;
            Ok(after_called(end, purpose, plain, state))
        }
    }
}

/// Calls a function with these values of its parameters. Its objects end with the call.
#[cycle(execution)]
pub fn call(
    f: FunId,
    cells: Items<Cell>,
    plain: &Plain,
    calls: u64,
    state: &mut State,
) -> Result<Completion, AllocError>
    ensures { IfOk result (λ end. ends (ending_of end) state.new ≡ calls_of (setting_of plain.now) calls f.0 cells state.old) }
{
    if calls == 0 {
        return Ok(Completion::Unfinished);
    }
    match plain.layout.program.funs.get(f.0 as usize) {
        None => Ok(Completion::Stopped(Stop::Undefined(Why::NoValue))),
        Some(fun) => {
            let objects = state.store.objects.len();
            let names = copied_names(plain.alloc, &state.store)?;
            enter(plain.alloc, fun.params.as_slice(), cells.as_slice(), state)?;
            let end = body(fun.body.as_slice(), plain, calls - 1, state)?;
            leave(objects, names, &mut state.store);
            Ok(call_end(f, plain, end))
        }
    }
}

/// Executes the body of a function.
#[cycle(execution)]
fn body(
    items: &[Stmt],
    plain: &Plain,
    calls: u64,
    state: &mut State,
) -> Result<Completion, AllocError>
    requires { weights items.now ≤ widest plain.now.layout.program.now }
    ensures { IfOk result (λ end. ends (ending_of end) state.new ≡ body_execution (setting_of plain.now) (calls_of (setting_of plain.now) calls) items.now state.old) }
{
    for at in 0..items.len() {
        let end = statement(&items[at], plain, calls, state)?;
        match leaves(end) {
            Some(end) => return Ok(end),
            None => {}
        }
    }
    Ok(Completion::Next)
}
