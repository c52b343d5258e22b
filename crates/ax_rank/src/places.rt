//! The places of a program in the order of suspicion.
ghost use Rattle.std.specs.Prelude.{◌≡◌, ◌≤◌, ◌++◌, ◌↔◌, ℕ, OnOk, OnErr, IfOk, IsTrue, length, take};
ghost use Rattle.std.specs.Ordering.{is_lt};
ghost use Rattle.ax_rank.specs.Suspicion.{score_of, standings, StandsBefore, IsSuspicionOrder};

use crate::{Ranker, Score, SeenRun};
use sqlite_items::Items;
use std::alloc::{AllocError, Global};
use std::cmp::Ordering;

/// A place of the program with its score. Places are numbered from 0, in source order.
#[derive(Clone, Copy, Debug, PartialEq, Eq)]
pub struct Standing {
    pub place: usize,
    pub score: Score,
}

/// Shows the runs to the ranker, the first one first, and gives the places below `places` in the order of suspicion:
/// larger scores first, by cross products, and equal scores in source order.
///
/// The ranker counts the runs that it saw before, too. After want of memory it has seen the first few of `shown`
/// besides them.
pub fn rank(
    alloc: Global,
    ranker: &mut dyn Ranker,
    shown: &[SeenRun],
    places: usize,
) -> Result<Items<Standing>, AllocError>
    ensures order { IfOk result (IsSuspicionOrder (standings (score_of (formula ranker.old) (runs ranker.old ++ shown.now)) places)) }
    ensures seen { OnOk result (runs ranker.new ≡ runs ranker.old ++ shown.now) }
    ensures stopped { OnErr result ((n : ℕ) × (n ≤ length shown.now) × (runs ranker.new ≡ runs ranker.old ++ take n shown.now)) }
    ensures title { title ranker.new ≡ title ranker.old }
    ensures formula { formula ranker.new ≡ formula ranker.old }
{
    show(ranker, shown)?;
    let mut order = score_each(alloc, ranker, places)?;
    order.sort_unstable_by(compare);
    Ok(Items::from_vec(order))
}

fn show(ranker: &mut dyn Ranker, shown: &[SeenRun]) -> Result<(), AllocError>
    ensures seen { OnOk result (runs ranker.new ≡ runs ranker.old ++ shown.now) }
    ensures stopped { OnErr result ((n : ℕ) × (n ≤ length shown.now) × (runs ranker.new ≡ runs ranker.old ++ take n shown.now)) }
    ensures title { title ranker.new ≡ title ranker.old }
    ensures formula { formula ranker.new ≡ formula ranker.old }
{
    for run in shown {
        ranker.see(run.covered.as_slice(), run.passed)?;
    }
    Ok(())
}

fn score_each(
    alloc: Global,
    ranker: &dyn Ranker,
    places: usize,
) -> Result<Vec<Standing>, AllocError>
    ensures { IfOk result (λ it. it.items ≡ standings (score_of (formula ranker.now) (runs ranker.now)) places) }
{
    let mut standings = Vec::new(alloc);
    for place in 0..places {
        let score = ranker.score(place);
        standings.push(Standing { place, score })?;
    }
    Ok(standings)
}

fn compare(a: &Standing, b: &Standing) -> Ordering
    ensures { IsTrue (is_lt result) ↔ StandsBefore a.now b.now }
{
    if a.score.before(&b.score) {
        return Ordering::Less;
    }
    if b.score.before(&a.score) {
        return Ordering::Greater;
    }
    a.place.cmp(&b.place)
}
