//! Calls.
ghost use Rattle.std.specs.Prelude.{◌≡◌, ◌<◌, ◌+◌, IfOk, OnOk, Some, slice_get};
ghost use Rattle.ax_meaning.specs.Types.{or_zero};
ghost use Rattle.ax_flow.specs.Machine.{act, call_move, frame_of};
ghost use Rattle.ax_interp.specs.Moves.{calls_of, here_of, move_of, setting_of, with_caller};

use crate::machine::{Context, Finish, Machine};
use ax_flow::{Frame, Op};
use ax_interp_acts::calling::{copied_names, enter};
use ax_interp_acts::printing::call_args;
use ax_meaning::{Cell, Stop, Why};
use ax_prog::{Arg, Fun, FunId};
use sqlite_items::Items;
use std::alloc::AllocError;

/// Calls a function.
pub fn calls(
    f: FunId,
    args: &Items<Arg>,
    context: &Context,
    machine: &mut Machine,
) -> Result<Option<Finish>, AllocError>
    requires { machine.old.place < usize.MAX }
    ensures { IfOk result (λ end. move_of end machine.new ≡ act (setting_of context.now) context.now.flow.now.starts (Some (Op.Call f args.now)) (here_of machine.old)) }
{
    let got = call_args(
        context.alloc,
        args.as_slice(),
        &context.layout,
        context.steps,
        &mut machine.state,
    )?;
    match got {
        Err(stop) => Ok(Some(Finish::Stopped(stop))),
        Ok(cells) => enter_fun(f, cells.as_slice(), context, machine),
    }
}

/// The function of this number begins with these values of its parameters.
fn enter_fun(
    f: FunId,
    cells: &[Cell],
    context: &Context,
    machine: &mut Machine,
) -> Result<Option<Finish>, AllocError>
    requires { machine.old.place < usize.MAX }
    ensures { IfOk result (λ end. move_of end machine.new ≡ call_move (setting_of context.now) context.now.flow.now.starts f (machine.old.place + 1) (calls_of machine.old) cells.now machine.old.state) }
{
    match context.layout.program.funs.get(f.0 as usize) {
        None => Ok(Some(Finish::Stopped(Stop::Undefined(Why::NoValue)))),
        Some(fun) => {
            wait(context, machine)?;
            enter(
                context.alloc,
                fun.params.as_slice(),
                cells,
                &mut machine.state,
            )?;
            machine.place = start_of(f, context);
            machine.running = f;
            machine.last = None;
            Ok(None)
        }
    }
}

/// The function that runs becomes the latest caller that waits. It is to go on behind its call.
fn wait(context: &Context, machine: &mut Machine) -> Result<(), AllocError>
    requires { machine.old.place < usize.MAX }
    ensures { OnOk result (machine.new ≡ with_caller (frame_of machine.old.running (machine.old.place + 1) machine.old.state) machine.old) }
{
    let names = copied_names(context.alloc, &machine.state.store)?;
    machine.callers.push(Frame {
        fun: machine.running,
        back: machine.place + 1,
        objects: machine.state.store.objects.len(),
        names,
    })
}

/// The place where the code of a function starts.
pub fn start_of(f: FunId, context: &Context) -> usize
    ensures { result ≡ or_zero (slice_get context.now.flow.now.starts f.0) }
{
    match context.flow.starts.get(f.0 as usize) {
        None => 0,
        Some(at) => *at,
    }
}
