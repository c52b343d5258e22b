//! The loop over the ops.
ghost use Rattle.std.specs.Prelude.{◌≡◌, ◌<◌, IfOk, Some};
ghost use Rattle.ax_meaning.specs.Execution.{Unfinished};
ghost use Rattle.ax_meaning.specs.Runs.{outcome_of};
ghost use Rattle.ax_flow.specs.Machine.{act, final, final_of, move, Go, start as start_move};
ghost use Rattle.ax_interp.specs.Moves.{ending_of, here_of, move_of, setting_of};
ghost use Rattle.ax_interp.specs.Gaps.{AllEnded, StillEnded};

use crate::acting::{
    always, assigns, bumps, changes, declares, ends, falls, keeps, prints, reads, returns, tests,
};
use crate::calling::{calls, start_of};
use crate::machine::{Context, Finish, Gap, Machine};
use ax_flow::Op;
use ax_interp_acts::start::start;
use ax_meaning::{State, Stop, Why};
use sqlite_items::Items;
use std::alloc::AllocError;

/// Runs the program from its start to its end.
pub fn run_main(context: &Context, inputs: &[i32]) -> Result<(Finish, State), AllocError>
    requires { context.now.layout.program.now ≡ context.now.flow.now.program }
    ensures comes { IfOk result (λ it. final (ending_of it.0) it.1 ≡ final_of (outcome_of (setting_of context.now) inputs.now)) }
    ensures finishes { IfOk result (λ it. ending_of it.0 ≡ Unfinished → ⊥) }
{
    let state = start(context.alloc, &context.layout, inputs)?;
    let main = context.layout.program.main;
    match context.layout.program.funs.get(main.0 as usize) {
        None => Ok((Finish::Stopped(Stop::Undefined(Why::NoValue)), state)),
        Some(_) => {
            let machine = Machine {
                place: start_of(main, context),
                running: main,
                callers: Items::new(context.alloc),
                last: None,
                state,
            };
            run_ops(context, machine)
        }
    }
}

/// Does ops until the run is over.
fn run_ops(context: &Context, machine: Machine) -> Result<(Finish, State), AllocError>
    requires program { context.now.layout.program.now ≡ context.now.flow.now.program }
    requires start { Go (here_of machine) ≡ start_move (setting_of context.now) context.now.flow.now.starts machine.state.inputs }
    ensures comes { IfOk result (λ it. final (ending_of it.0) it.1 ≡ final_of (outcome_of (setting_of context.now) machine.state.inputs)) }
    ensures finishes { IfOk result (λ it. ending_of it.0 ≡ Unfinished → ⊥) }
{
    let mut now = machine;
    let mut gaps = Items::new(context.alloc);
    'ops: loop {
        match step(context, &mut gaps, &mut now)? {
            None => {}
            Some(end) => return Ok((end, now.state)),
        }
    }
}

/// Does the op at the machine's place. The gaps are objects that have ended.
fn step(
    context: &Context,
    gaps: &mut Items<Gap>,
    machine: &mut Machine,
) -> Result<Option<Finish>, AllocError>
    requires { AllEnded gaps.old machine.old.state.store.objects }
    ensures next { IfOk result (λ end. move_of end machine.new ≡ move (setting_of context.now) context.now.flow.now.code context.now.flow.now.starts (here_of machine.old)) }
    ensures ended { IfOk result (λ end. StillEnded end gaps.new machine.new) }
{
    // The length is a number of the machine, so each place in the code has a next one.
    let _size = context.flow.code.len();
    match context.flow.code.get(machine.place) {
        None => Ok(Some(Finish::Unfinished)),
        Some(op) => perform(op, context, gaps, machine),
    }
}

fn perform(
    op: &Op,
    context: &Context,
    gaps: &mut Items<Gap>,
    machine: &mut Machine,
) -> Result<Option<Finish>, AllocError>
    requires place { machine.old.place < usize.MAX }
    requires ended { AllEnded gaps.old machine.old.state.store.objects }
    ensures next { IfOk result (λ end. move_of end machine.new ≡ act (setting_of context.now) context.now.flow.now.starts (Some op.now) (here_of machine.old)) }
    ensures ended { IfOk result (λ end. StillEnded end gaps.new machine.new) }
{
    match op {
        Op::Decl(id, init) => declares(*id, init, context, machine),
        Op::Keep(id) => Ok(keeps(*id, context, machine)),
        Op::Assign(place, rhs) => Ok(assigns(place, rhs, context, machine)),
        Op::Change(place, op, id) => Ok(changes(place, *op, *id, context, machine)),
        Op::Bump(place, up) => Ok(bumps(place, *up, context, machine)),
        Op::Call(f, args) => calls(*f, args, context, machine),
        Op::Return(rhs) => returns(rhs, context, gaps, machine),
        Op::Fall => falls(context, gaps, machine),
        Op::Test(id, to) => Ok(tests(*id, *to, context, machine)),
        Op::Always => Ok(always(context, machine)),
        Op::Jump(to) => {
            machine.place = *to;
            Ok(None)
        }
        Op::End(id) => Ok(ends(*id, context, machine)),
        Op::Read(place) => Ok(reads(place, context, machine)),
        Op::Print(id) => prints(*id, context, machine),
    }
}
