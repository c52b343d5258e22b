//! Prints and the arguments of calls, which take memory for what they add (C11 7.21.6.3, 6.5.2.2p4).
ghost use Rattle.std.specs.Prelude.{◌≡◌, [], ℕ, IfOk};
ghost use Rattle.ax_meaning.specs.Acts.{got_then, print as print_act, call_args as args_act, from_arg, arg_values};
ghost use Rattle.ax_meaning.specs.Runs.{plain_setting};
ghost use Rattle.ax_interp_acts.specs.Gives.{got_by};
ghost use Rattle.ax_interp_acts.specs.Sources.{printed};

use crate::assigning::source_value;
use crate::sources::Source;
use crate::steps::{begin_step, slot_value};
use ax_interp_values::layout::Layout;
use ax_meaning::{Cell, State, Stop};
use ax_prog::{Arg, SlotId};
use sqlite_items::Items;
use std::alloc::{AllocError, Global};

fn print_value(answer: Result<i32, Stop>, state: &mut State) -> Result<Result<(), Stop>, AllocError>
    ensures { IfOk result (λ got. got_by got state.new ≡ got_then (got_by answer state.old) printed) }
{
    match answer {
        Err(stop) => Ok(Err(stop)),
        Ok(n) => {
            state.output.push(n)?;
            Ok(Ok(()))
        }
    }
}

/// `printf("%d", e)`
pub fn print(
    id: SlotId,
    layout: &Layout,
    steps: u32,
    state: &mut State,
) -> Result<Result<(), Stop>, AllocError>
    ensures { IfOk result (λ got. got_by got state.new ≡ print_act (plain_setting layout.now.program.now steps) id state.old) }
{
    match begin_step(steps, state) {
        Err(stop) => Ok(Err(stop)),
        Ok(()) => {
            let answer = slot_value(id, layout, state);
            print_value(answer, state)
        }
    }
}

fn arg_value(arg: &Arg, layout: &Layout, state: &mut State) -> Result<Cell, Stop>
    ensures { (steps : ℕ) → got_by result state.new ≡ from_arg (plain_setting layout.now.program.now steps) arg.now state.old }
{
    match arg {
        Arg::Int(id) => source_value(Source::Int(*id), layout, state),
        Arg::Ptr(q) => source_value(Source::Ptr(q), layout, state),
    }
}

fn values_of_args(
    alloc: Global,
    args: &[Arg],
    layout: &Layout,
    state: &mut State,
) -> Result<Result<Items<Cell>, Stop>, AllocError>
    ensures { (steps : ℕ) → IfOk result (λ got. got_by got state.new ≡ arg_values (plain_setting layout.now.program.now steps) args.now [] state.old) }
{
    let mut cells = Items::new(alloc);
    for arg in args {
        match arg_value(arg, layout, state) {
            Err(stop) => return Ok(Err(stop)),
            Ok(cell) => cells.push(cell)?,
        }
    }
    Ok(Ok(cells))
}

/// The step of a call, and the values of its arguments from left to right.
pub fn call_args(
    alloc: Global,
    args: &[Arg],
    layout: &Layout,
    steps: u32,
    state: &mut State,
) -> Result<Result<Items<Cell>, Stop>, AllocError>
    ensures { IfOk result (λ got. got_by got state.new ≡ args_act (plain_setting layout.now.program.now steps) args.now state.old) }
{
    match begin_step(steps, state) {
        Err(stop) => Ok(Err(stop)),
        Ok(()) => { values_of_args(alloc, args, layout, state) }
    }
}
