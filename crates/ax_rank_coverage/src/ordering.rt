//! The candidates of a program in the order of suspicion.
ghost use Rattle.std.specs.Prelude.{◌≡◌, ◌<◌, ◌-◌, ◌^◌, IfOk, OnErr, OnOk, length};
ghost use Rattle.std.specs.List.{All};
ghost use Rattle.ax_prog.specs.Candidates.{candidates_of};
ghost use Rattle.ax_rank_coverage.specs.Orders.{HasSeen, HasSeenSome, IsOrderOf};

use crate::seen::seen_runs;
use ax_prog::{Program, Test};
use ax_rank::{Ranker, Standing, rank};
use sqlite_items::Items;
use std::alloc::{AllocError, Global};

fn candidate_count(alloc: Global, program: &Program) -> Result<usize, AllocError>
    ensures { IfOk result (λ count. count ≡ length (candidates_of program.now)) }
{
    Ok(program.candidates(alloc)?.len())
}

/// Shows the ranker the runs of the tests, and gives the candidates in its order of suspicion: candidate I is place
/// I - 1.
///
/// The ranker counts the runs that it saw before, too. After want of memory it has seen the runs of the first few tests
/// besides them.
pub fn order(
    alloc: Global,
    ranker: &mut dyn Ranker,
    program: &Program,
    tests: &[Test],
    steps: u32,
) -> Result<Items<Standing>, AllocError>
    ensures order { IfOk result (IsOrderOf (formula ranker.old) (runs ranker.old) program.now steps tests.now) }
    ensures places { IfOk result (All (λ s. s.place < 2 ^ 64 - 1)) }
    ensures seen { OnOk result (HasSeen program.now steps tests.now (runs ranker.old) (runs ranker.new)) }
    ensures stopped { OnErr result (HasSeenSome program.now steps tests.now (runs ranker.old) (runs ranker.new)) }
    ensures title { title ranker.new ≡ title ranker.old }
    ensures formula { formula ranker.new ≡ formula ranker.old }
{
    let count = candidate_count(alloc, program)?;
    let shown = seen_runs(alloc, program, tests, steps)?;
    rank(alloc, ranker, shown.as_slice(), count)
}
