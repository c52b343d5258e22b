//! The ranker of a list that an order uses: it alone sees the runs.
ghost use Rattle.std.specs.Prelude.{◌≡◌, ◌<◌, Some, IfOk, length, map, slice_get};
ghost use Rattle.ax_rank_coverage.specs.Handed.{Handed, OthersStay, handed};
ghost use Rattle.ax_rank_coverage.specs.Orders.{Chooses, IsRanked};

use crate::choice::{choose, report};
use ax_prog::{Program, Test};
use ax_rank::Ranker;
use sqlite_items::Items;
use std::alloc::{AllocError, Global};

fn report_by(
    alloc: Global,
    ranker: &mut Box<dyn Ranker>,
    program: &Program,
    tests: &[Test],
    steps: u32,
) -> Result<Items<u8>, AllocError>
    ensures { IfOk result (IsRanked (formula ranker.old) (runs ranker.old) program.now steps tests.now) }
{
    report(alloc, &mut **ranker, program, tests, steps)
}

fn choose_by(
    alloc: Global,
    ranker: &mut Box<dyn Ranker>,
    program: &Program,
    tests: &[Test],
    steps: u32,
    count: u32,
) -> Result<Items<u64>, AllocError>
    ensures { IfOk result (Chooses (formula ranker.old) (runs ranker.old) program.now steps tests.now count) }
{
    choose(alloc, &mut **ranker, program, tests, steps, count)
}

/// The candidates in the order of suspicion, as text, by the ranker at that place. No other ranker sees a run.
pub fn report_in(
    alloc: Global,
    rankers: &mut [Box<dyn Ranker>],
    at: usize,
    program: &Program,
    tests: &[Test],
    steps: u32,
) -> Result<Items<u8>, AllocError>
    requires { at < length rankers.old }
    ensures ranked { (it : Handed) → slice_get (map (λ r. handed (title r) (runs r) (formula r)) rankers.old) at ≡ Some it → IfOk result (IsRanked it.formula it.runs program.now steps tests.now) }
    ensures others { OthersStay (map (λ r. handed (title r) (runs r) (formula r)) rankers.old) (map (λ r. handed (title r) (runs r) (formula r)) rankers.new) at }
{
    report_by(alloc, &mut rankers[at], program, tests, steps)
}

/// The numbers of the first `count` candidates in the order of suspicion, or of all where there are fewer, by the
/// ranker at that place. No other ranker sees a run.
pub fn choose_in(
    alloc: Global,
    rankers: &mut [Box<dyn Ranker>],
    at: usize,
    program: &Program,
    tests: &[Test],
    steps: u32,
    count: u32,
) -> Result<Items<u64>, AllocError>
    requires { at < length rankers.old }
    ensures chosen { (it : Handed) → slice_get (map (λ r. handed (title r) (runs r) (formula r)) rankers.old) at ≡ Some it → IfOk result (Chooses it.formula it.runs program.now steps tests.now count) }
    ensures others { OthersStay (map (λ r. handed (title r) (runs r) (formula r)) rankers.old) (map (λ r. handed (title r) (runs r) (formula r)) rankers.new) at }
{
    choose_by(alloc, &mut rankers[at], program, tests, steps, count)
}
