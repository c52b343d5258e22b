//! What a run that is over shows: whether it passes a test, and how often a slot's evaluation began.
ghost use Rattle.std.specs.Prelude.{◌≡◌, ◌↔◌, IsTrue, ℕ, slice_get};
ghost use Rattle.ax_prog.specs.declared.Program.{Program};
ghost use Rattle.ax_meaning.specs.Types.{or_zero};
ghost use Rattle.ax_meaning.specs.Runs.{run_of, shown, Passes};
ghost use Rattle.ax_interp_acts.specs.Passing.{ShowsPass};

use ax_meaning::{Run, RunEnd};
use ax_prog::{SlotId, Test};

/// Whether a run passes a test: it returned the number that the test wants, and printed exactly the test's outputs.
/// The run is to be one on the test's inputs.
pub fn passes(run: &Run, test: &Test) -> bool
    ensures shows { IsTrue result ↔ ShowsPass run.now test.now }
    ensures passes { (program : Program) (steps : ℕ) → shown run.now ≡ run_of program test.now.inputs steps → (IsTrue result ↔ Passes program steps test.now) }
{
    shows_pass(run, test)
}

fn shows_pass(run: &Run, test: &Test) -> bool
    ensures { IsTrue result ↔ ShowsPass run.now test.now }
{
    match &run.end {
        RunEnd::Returned { out, ret } => {
            *ret == test.ret && same_numbers(out.as_slice(), test.outputs.as_slice())
        }
        RunEnd::Undefined { why: _, out: _ } => false,
        RunEnd::OutOfSteps { out: _ } => false,
    }
}

fn same_numbers(a: &[i32], b: &[i32]) -> bool
    ensures { IsTrue result ↔ (a.now ≡ b.now) }
{
    a == b
}

/// How many evaluations of a slot had begun when the run ended.
pub fn evaluations_of(run: &Run, id: SlotId) -> u64
    ensures { result ≡ or_zero (slice_get (shown run.now).counts id.0) }
{
    match run.counts.get(id.0 as usize) {
        None => 0,
        Some(n) => *n,
    }
}
