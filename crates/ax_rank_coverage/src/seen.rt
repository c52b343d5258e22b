//! The runs of a suite as a ranker sees them.
ghost use Rattle.std.specs.Prelude.{◌≡◌, IfOk};
ghost use Rattle.ax_prog.specs.Candidates.{candidates_of};
ghost use Rattle.ax_meaning.specs.Runs.{shown};
ghost use Rattle.ax_rank_coverage.specs.Coverage.{AreRunsOf, IsRunOf, covered_by, has_begun};

use ax_flow::{Flow, lower};
use ax_interp::{evaluations_of, passes, run};
use ax_meaning::Run;
use ax_prog::{Program, SlotId, Test};
use ax_rank::SeenRun;
use sqlite_items::Items;
use std::alloc::{AllocError, Global};

fn has_begun(run: &Run, id: SlotId) -> bool
    ensures { result ≡ has_begun (shown run.now) id }
{
    evaluations_of(run, id) > 0
}

// Which of the candidates the run covers: those of which an evaluation began.
fn covered_by(alloc: Global, run: &Run, candidates: &[SlotId]) -> Result<Items<bool>, AllocError>
    ensures { IfOk result (λ covered. covered ≡ covered_by candidates.now (shown run.now)) }
{
    let mut covered = Items::new(alloc);
    for id in candidates {
        covered.push(has_begun(run, *id))?;
    }
    Ok(covered)
}

// The run of a test.
fn seen_run(
    alloc: Global,
    flow: &Flow,
    candidates: &[SlotId],
    test: &Test,
    steps: u32,
) -> Result<SeenRun, AllocError>
    requires { candidates.now ≡ candidates_of flow.now.program }
    ensures { IfOk result (IsRunOf flow.now.program steps test.now) }
{
    let run = run(alloc, flow, test.inputs.as_slice(), steps)?;
    let covered = covered_by(alloc, &run, candidates)?;
    let passed = passes(&run, test);
    Ok(SeenRun { covered, passed })
}

// The runs of the tests, by the flat code of their program.
fn runs_by(
    alloc: Global,
    flow: &Flow,
    candidates: &[SlotId],
    tests: &[Test],
    steps: u32,
) -> Result<Vec<SeenRun>, AllocError>
    requires { candidates.now ≡ candidates_of flow.now.program }
    ensures { IfOk result (λ runs. AreRunsOf flow.now.program steps tests.now runs.items) }
{
    let mut runs = Vec::new(alloc);
    for test in tests {
        runs.push(seen_run(alloc, flow, candidates, test, steps)?)?;
    }
    Ok(runs)
}

/// The runs of the tests, one for each, in their order, within so many steps each: which of the program's candidates
/// the run covers, and whether it passes its test.
pub fn seen_runs(
    alloc: Global,
    program: &Program,
    tests: &[Test],
    steps: u32,
) -> Result<Vec<SeenRun>, AllocError>
    ensures { IfOk result (λ runs. AreRunsOf program.now steps tests.now runs.items) }
{
    let candidates = program.candidates(alloc)?;
    let flow = lower(alloc, program)?;
    runs_by(alloc, &flow, candidates.as_slice(), tests, steps)
}
