//! The interpreter: it runs the flat code of a program op by op. Open calls stand in memory and not on the machine's stack, so
//! that a run is bounded by its steps and by memory alone.
#![tactic(auto)]

ghost use Rattle.std.specs.Prelude.{◌≡◌, IfOk};
ghost use Rattle.ax_meaning.specs.Runs.{ending_of_run, run_of, shown};
ghost use Rattle.ax_meaning.specs.Execution.{Unfinished};
ghost use Rattle.ax_interp_acts.specs.Passing.{ShowsEnd};
ghost use Rattle.ax_interp.specs.Moves.{ending_of};

mod acting;
mod calling;
mod ending;
mod machine;
mod moving;
mod running;

use ax_flow::Flow;
pub use ax_interp_acts::passing::{evaluations_of, passes};
use ax_interp_values::layout::layout_of;
use ax_meaning::{Cell, Run, RunEnd, State, Stop, Why};
use machine::{Context, Finish};
use running::run_main;
use sqlite_items::Items;
use std::alloc::{AllocError, Global};

/// Runs a program on these inputs, within so many steps. Nothing but want of memory keeps it from an answer: a program
/// that is undefined or out of steps has a run that says so.
pub fn run(alloc: Global, flow: &Flow, inputs: &[i32], steps: u32) -> Result<Run, AllocError>
    ensures { IfOk result (λ run. shown run ≡ run_of flow.now.program inputs.now steps) }
{
    let layout = layout_of(alloc, &flow.program)?;
    let context = Context {
        alloc,
        flow,
        layout,
        steps,
    };
    let (end, state) = run_main(&context, inputs)?;
    let State {
        store: _,
        inputs: _,
        output,
        used,
        counts,
        notes: _,
    } = state;
    Ok(Run {
        end: run_end(end, output),
        used,
        counts,
    })
}

/// How a run ended whose call of `main` ended so.
fn run_end(end: Finish, out: Items<i32>) -> RunEnd
    requires { ending_of end ≡ Unfinished → ⊥ }
    ensures { ShowsEnd (ending_of_run (ending_of end)) out result }
{
    match end {
        Finish::Returned(Some(Cell::Int(ret))) => RunEnd::Returned { out, ret },
        Finish::Returned(_) => RunEnd::Undefined {
            why: Why::NoValue,
            out,
        },
        Finish::Stopped(Stop::OutOfSteps) => RunEnd::OutOfSteps { out },
        Finish::Stopped(Stop::Undefined(why)) => RunEnd::Undefined { why, out },
        Finish::Unfinished => unreachable!(),
    }
}
