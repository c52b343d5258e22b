//! What a repair is, and which repairs are least: the definitions stand in `specs/`, with their laws.
#![tactic(auto)]

ghost use Rattle.std.specs.Prelude.{◌≡◌, ◌≤◌, ◌↔◌, IsTrue, slice_get};
ghost use Rattle.ax_meaning.specs.Types.{or_zero};
ghost use Rattle.ax_meaning.specs.Runs.{evaluations, shown};
ghost use Rattle.ax_least.specs.Least.{KeepsBounds};
ghost use Rattle.ax_least.specs.Laws.{OneLeastCost, LeastIsRepair};

use ax_meaning::Run;
use ax_prog::{Bounds, SlotId};

/// Whether a run keeps the bounds: it has at most so many steps, and has begun at most so many evaluations of the
/// chosen expressions, all counted together.
pub fn keeps_bounds(run: &Run, bounds: &Bounds, chosen: &[SlotId]) -> bool
    ensures { IsTrue result ↔ KeepsBounds bounds.now chosen.now (shown run.now) }
{
    run.used <= bounds.steps && are_few(run.counts.as_slice(), chosen, bounds.evals)
}

// Whether the evaluations begun of these slots are at most so many.
fn are_few(counts: &[u64], ids: &[SlotId], most: u32) -> bool
    ensures { IsTrue result ↔ (evaluations ids.now counts.now ≤ most) }
{
    let mut left = u64::from(most);
    for id in ids {
        let begun = begun_of(counts, *id);
        if begun > left {
            return false;
        }
        left -= begun;
    }
    true
}

fn begun_of(counts: &[u64], id: SlotId) -> u64
    ensures { result ≡ or_zero (slice_get counts.now id.0) }
{
    match counts.get(id.0 as usize) {
        None => 0,
        Some(begun) => *begun,
    }
}

/// At most one cost is least (a law).
pub fn one_least_cost()
    ensures { OneLeastCost }
{}

/// Where there is no repair, no cost is least (a law).
pub fn least_is_repair()
    ensures { LeastIsRepair }
{}
