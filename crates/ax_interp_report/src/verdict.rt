//! How a program does in one test.
ghost use Rattle.std.specs.Prelude.{◌≡◌, ◌↔◌, IsTrue, Some, IfOk};
ghost use Rattle.ax_meaning.specs.declared.Cell.TheVariants.{Int};
ghost use Rattle.ax_meaning.specs.Execution.{Returned};
ghost use Rattle.ax_meaning.specs.Runs.{shown};
ghost use Rattle.ax_interp_report.specs.Texts.{passes};
ghost use Rattle.ax_interp_report.specs.Verdicts.{Fares, IsVerdict};

use ax_flow::Flow;
use ax_interp::run;
use ax_meaning::{Run, RunEnd};
use ax_prog::Test;
use std::alloc::{AllocError, Global};

/// How a program does in a test: it passes, or the first of four ways to fail.
#[derive(Clone, Copy, Debug, PartialEq, Eq)]
pub enum Verdict {
    Passes,
    /// The run comes to an act that is undefined.
    Undefined,
    /// The run needs more steps than it may have.
    OutOfSteps,
    /// The run returns, and printed other numbers than the test wants.
    WrongOutput,
    /// The run printed what the test wants, and returned another number.
    WrongReturn,
}

/// Whether the verdict says that the program passes.
pub fn passes(verdict: Verdict) -> bool
    ensures { result ≡ passes verdict }
{
    matches!(verdict, Verdict::Passes)
}

fn same_numbers(a: &[i32], b: &[i32]) -> bool
    ensures { IsTrue result ↔ (a.now ≡ b.now) }
{
    a == b
}

fn same_number(a: i32, b: i32) -> bool
    ensures { IsTrue result ↔ (a ≡ b) }
{
    a == b
}

// Of a run that returned.
fn verdict_on_return(out: &[i32], ret: i32, test: &Test) -> Verdict
    ensures { IsVerdict (Returned (Some (Int ret))) out.now test.now result }
{
    if !same_numbers(out, test.outputs.as_slice()) {
        return Verdict::WrongOutput;
    }
    if same_number(ret, test.ret) {
        Verdict::Passes
    } else {
        Verdict::WrongReturn
    }
}

// Of a run on the test's inputs.
fn verdict_on(run: &Run, test: &Test) -> Verdict
    ensures { IsVerdict (shown run.now).ending (shown run.now).output test.now result }
{
    match &run.end {
        RunEnd::Undefined { why: _, out: _ } => Verdict::Undefined,
        RunEnd::OutOfSteps { out: _ } => Verdict::OutOfSteps,
        RunEnd::Returned { out, ret } => verdict_on_return(out.as_slice(), *ret, test),
    }
}

/// How the program does in the test within so many steps, by its run.
pub fn verdict_in(
    alloc: Global,
    flow: &Flow,
    test: &Test,
    steps: u32,
) -> Result<Verdict, AllocError>
    ensures { IfOk result (Fares flow.now.program steps test.now) }
{
    let run = run(alloc, flow, test.inputs.as_slice(), steps)?;
    Ok(verdict_on(&run, test))
}
