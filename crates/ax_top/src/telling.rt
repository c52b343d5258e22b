//! Orders of which only a report comes: to run and to rank.
ghost use Rattle.std.specs.Prelude.{◌≡◌, ◌<◌, Some, length, map, slice_get};
ghost use Rattle.ax_rank_coverage.specs.Handed.{Handed, handed};
ghost use Rattle.ax_outside.specs.Seen.{NoLess, Same};
ghost use Rattle.ax_top.specs.Telling.{RankEnds, RankTold, RunEnds, RunTold};

use crate::files::Stop;
use crate::judging::judge_files;
use crate::rankers::judge_ranker;
use ax_interp_report::Outcome;
use ax_outside::Shelf;
use ax_prog::{Program, Suite};
use ax_rank::Ranker;
use ax_rank_coverage::report_in;
use sqlite_items::Items;
use std::alloc::Global;

/// What is printed, and the status that comes with it.
#[derive(Drop)]
pub struct Told {
    pub report: Items<u8>,
    pub status: u8,
}

fn run_told(alloc: Global, program: &Program, suite: &Suite, steps: u32) -> Result<Told, Stop>
    ensures { RunTold program.now suite.now steps result }
{
    match ax_interp_report::run(alloc, program, suite, steps) {
        Ok(Outcome { report, status }) => Ok(Told {
            report: Items::from_vec(report),
            status,
        }),
        Err(_) => Err(Stop::Memory),
    }
}

/// What an order to run comes to: the report on the runs of its program.
pub fn run<S: Shelf>(
    alloc: Global,
    source: &str,
    tests: &str,
    steps: u32,
    shelf: &mut S,
) -> Result<Told, Stop>
    ensures ends { RunEnds (S.seen shelf.old) (S.seen shelf.new) source.now tests.now steps result }
    ensures same { Same (S.seen shelf.old) (S.seen shelf.new) }
    ensures counts { NoLess (S.seen shelf.old) (S.seen shelf.new) }
{
    match judge_files(alloc, source, tests, shelf) {
        Err(stop) => Err(stop),
        Ok(judged) => run_told(alloc, &judged.source.program, &judged.suite, steps),
    }
}

fn rank_told(
    alloc: Global,
    rankers: &mut [Box<dyn Ranker>],
    at: usize,
    program: &Program,
    suite: &Suite,
    steps: u32,
) -> Result<Told, Stop>
    requires { at < length rankers.old }
    ensures { (it : Handed) → slice_get (map (λ r. handed (title r) (runs r) (formula r)) rankers.old) at ≡ Some it → RankTold it program.now suite.now steps result }
{
    match report_in(alloc, rankers, at, program, suite.tests.as_slice(), steps) {
        Ok(report) => Ok(Told { report, status: 0 }),
        Err(_) => Err(Stop::Memory),
    }
}

/// What an order to rank comes to: the candidates of its program in the order of suspicion, by the first ranker of this
/// name.
pub fn rank<S: Shelf>(
    alloc: Global,
    source: &str,
    tests: &str,
    name: &str,
    steps: u32,
    rankers: &mut [Box<dyn Ranker>],
    shelf: &mut S,
) -> Result<Told, Stop>
    ensures ends { RankEnds (S.seen shelf.old) (S.seen shelf.new) (map (λ r. handed (title r) (runs r) (formula r)) rankers.old) source.now tests.now name.now steps result }
    ensures same { Same (S.seen shelf.old) (S.seen shelf.new) }
    ensures counts { NoLess (S.seen shelf.old) (S.seen shelf.new) }
{
    match judge_ranker(rankers, name) {
        Err(stop) => Err(stop),
        Ok(at) => match judge_files(alloc, source, tests, shelf) {
            Err(stop) => Err(stop),
            Ok(judged) => rank_told(
                alloc,
                rankers,
                at,
                &judged.source.program,
                &judged.suite,
                steps,
            ),
        },
    }
}
