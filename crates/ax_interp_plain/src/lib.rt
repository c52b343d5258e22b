//! The plain program that runs C programs by their definition: statements by recursion on the tree, calls by recursion
//! within the bound on steps.
#![tactic(auto)]

ghost use Rattle.std.specs.Prelude.{◌≡◌, IfOk};
ghost use Rattle.ax_meaning.specs.Execution.{Unfinished};
ghost use Rattle.ax_meaning.specs.Runs.{ending_of_run, run_of, shown};
ghost use Rattle.ax_interp_plain.specs.Completions.{ending_of};
ghost use Rattle.ax_interp_acts.specs.Passing.{ShowsEnd};

mod acting;
mod blocks;
mod calling;
mod completion;
mod execution;

pub use ax_interp_acts::passing::{evaluations_of, passes};
use ax_interp_acts::start::start;
use ax_interp_values::layout::layout_of;
use ax_meaning::{Cell, Run, RunEnd, State, Stop, Why};
use ax_prog::Program;
use completion::{Completion, Plain};
use execution::call;
use sqlite_items::Items;
use std::alloc::{AllocError, Global};

/// Runs a program on these inputs, within so many steps. Nothing but want of memory keeps it from an answer: a program
/// that is undefined or out of steps has a run that says so.
pub fn run(alloc: Global, program: &Program, inputs: &[i32], steps: u32) -> Result<Run, AllocError>
    ensures { IfOk result (λ run. shown run ≡ run_of program.now inputs.now steps) }
{
    let layout = layout_of(alloc, program)?;
    let mut state = start(alloc, &layout, inputs)?;
    let plain = Plain {
        alloc,
        layout,
        steps,
    };
    let calls = u64::from(steps) + 1;
    let end = call(program.main, Items::new(alloc), &plain, calls, &mut state)?;
    let State {
        store: _,
        inputs: _,
        output,
        used,
        counts,
        notes: _,
    } = state;
    Ok(Run {
        end: run_end(end, output),
        used,
        counts,
    })
}

/// How a run ended whose call of `main` ended so.
fn run_end(end: Completion, out: Items<i32>) -> RunEnd
    requires { ending_of end ≡ Unfinished → ⊥ }
    ensures { ShowsEnd (ending_of_run (ending_of end)) out result }
{
    match end {
        Completion::Returned(Some(Cell::Int(ret))) => RunEnd::Returned { out, ret },
        Completion::Stopped(Stop::OutOfSteps) => RunEnd::OutOfSteps { out },
        Completion::Stopped(Stop::Undefined(why)) => RunEnd::Undefined { why, out },
        Completion::Unfinished => unreachable!(),
        _ => RunEnd::Undefined {
            why: Why::NoValue,
            out,
        },
    }
}
