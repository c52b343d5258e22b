//! The runs of a suite.
ghost use Rattle.std.specs.Prelude.{◌≡◌, ◌↔◌, true, IfOk, IsTrue};
ghost use Rattle.std.specs.List.{All};
ghost use Rattle.ax_interp_report.specs.Outcomes.{IsOutcome};
ghost use Rattle.ax_interp_report.specs.Texts.{passes};
ghost use Rattle.ax_interp_report.specs.Verdicts.{FareIn};

use crate::report::{Outcome, report_of};
use crate::verdict::{Verdict, passes, verdict_in};
use ax_flow::{Flow, lower};
use ax_prog::{Program, Suite, Test};
use std::alloc::{AllocError, Global};

// How a program does in each of the tests, by its flat code.
fn verdicts_by(
    alloc: Global,
    flow: &Flow,
    tests: &[Test],
    steps: u32,
) -> Result<Vec<Verdict>, AllocError>
    ensures { IfOk result (λ verdicts. FareIn flow.now.program steps tests.now verdicts.items) }
{
    let mut verdicts = Vec::new(alloc);
    for test in tests {
        verdicts.push(verdict_in(alloc, flow, test, steps)?)?;
    }
    Ok(verdicts)
}

// How the program does in each of the tests.
fn verdicts_in(
    alloc: Global,
    program: &Program,
    tests: &[Test],
    steps: u32,
) -> Result<Vec<Verdict>, AllocError>
    ensures { IfOk result (λ verdicts. FareIn program.now steps tests.now verdicts.items) }
{
    let flow = lower(alloc, program)?;
    verdicts_by(alloc, &flow, tests, steps)
}

// Whether all of them say that the program passes.
fn all_pass(verdicts: &[Verdict]) -> bool
    ensures { IsTrue result ↔ All (λ v. passes v ≡ true) verdicts.now }
{
    for verdict in verdicts {
        if !passes(*verdict) {
            return false;
        }
    }
    true
}

/// Runs the program on each test of the suite within so many steps. Nothing but want of memory keeps it from an answer.
pub fn run(
    alloc: Global,
    program: &Program,
    suite: &Suite,
    steps: u32,
) -> Result<Outcome, AllocError>
    ensures { IfOk result (λ o. IsOutcome program.now suite.now.tests steps o.report.items o.status) }
{
    let verdicts = verdicts_in(alloc, program, suite.tests.as_slice(), steps)?;
    let report = report_of(alloc, verdicts.as_slice())?;
    let status = if all_pass(verdicts.as_slice()) { 0 } else { 1 };
    Ok(Outcome { report, status })
}
