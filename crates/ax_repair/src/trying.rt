//! Trying patches: whether one is a repair, and the first of a list that is.
ghost use Rattle.std.specs.Prelude.{◌≡◌, ◌↔◌, IsTrue, IfOk, MatchOption};
ghost use Rattle.std.specs.List.{All};
ghost use Rattle.ax_space.specs.Patches.{IsPatch};
ghost use Rattle.ax_least.specs.Least.{PassesWithin, IsRepair};
ghost use Rattle.ax_repair.specs.Search.{IsSearchable, NoneRepairs, RepairsAt};

use ax_flow::{Flow, lower};
use ax_interp::{passes, run};
use ax_least::keeps_bounds;
use ax_prog::{Bounds, Program, SlotId, Test};
use ax_space::{Patch, Space, apply};
use std::alloc::{AllocError, Global};

// Whether the program passes the test by a run that keeps the bounds.
fn passes_within(
    alloc: Global,
    flow: &Flow,
    bounds: &Bounds,
    chosen: &[SlotId],
    test: &Test,
) -> Result<bool, AllocError>
    ensures { IfOk result (λ found. IsTrue found ↔ PassesWithin flow.now.program bounds.now chosen.now test.now) }
{
    let run = run(alloc, flow, test.inputs.as_slice(), bounds.steps)?;
    Ok(passes(&run, test) && keeps_bounds(&run, bounds, chosen))
}

// Whether the program passes every test by runs that keep the bounds.
fn passes_all(
    alloc: Global,
    flow: &Flow,
    bounds: &Bounds,
    chosen: &[SlotId],
    tests: &[Test],
) -> Result<bool, AllocError>
    ensures { IfOk result (λ found. IsTrue found ↔ All (PassesWithin flow.now.program bounds.now chosen.now) tests.now) }
{
    for test in tests {
        if !passes_within(alloc, flow, bounds, chosen, test)? {
            return Ok(false);
        }
    }
    Ok(true)
}

// Whether the patch is a repair.
fn is_repair(
    alloc: Global,
    program: &Program,
    tests: &[Test],
    bounds: &Bounds,
    space: &Space,
    patch: &Patch,
) -> Result<bool, AllocError>
    requires space { IsSearchable program.now space.now }
    requires patch { IsPatch space.now patch.now }
    ensures { IfOk result (λ found. IsTrue found ↔ IsRepair program.now tests.now bounds.now space.now patch.now) }
{
    let patched = apply(alloc, program, space, patch)?;
    let flow = lower(alloc, &patched)?;
    passes_all(alloc, &flow, bounds, space.chosen(), tests)
}

/// The place of the first of these patches that is a repair.
pub fn first_repair(
    alloc: Global,
    program: &Program,
    tests: &[Test],
    bounds: &Bounds,
    space: &Space,
    patches: &[Patch],
) -> Result<Option<usize>, AllocError>
    requires space { IsSearchable program.now space.now }
    requires patches { All (IsPatch space.now) patches.now }
    ensures { IfOk result (λ found. MatchOption found (NoneRepairs program.now tests.now bounds.now space.now patches.now) (RepairsAt program.now tests.now bounds.now space.now patches.now)) }
{
    for (at, patch) in patches.iter().enumerate() {
        if is_repair(alloc, program, tests, bounds, space, patch)? {
            return Ok(Some(at));
        }
    }
    Ok(None)
}
