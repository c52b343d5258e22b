//! The runs that a ranker has seen, and the counts of a place in them.
ghost use Rattle.std.specs.Prelude.{◌≡◌, ◌∷◌, ◌++◌, [], OnOk, OnErr, count_by};
ghost use Rattle.ax_rank.specs.Runs.{counts_at, covers};
ghost use Rattle.ax_rank.specs.Kinds.{is_kind};
ghost use Rattle.ax_rank.specs.Tallies.{counts};

use crate::SeenRun;
use sqlite_items::Items;
use std::alloc::{AllocError, Global};
use std::marker::Model;

/// The runs that a ranker has seen, the first one first. Its meaning is the list of these runs.
#[derive(Drop)]
pub struct Kept {
    alloc: Global,
    runs: Items<SeenRun>,
}

impl Model for Kept {
    ghost use Rattle.std.specs.Prelude.{List};
    ghost use Rattle.ax_rank.specs.declared.ranker.SeenRun.{SeenRun};

    ghost Value = { List SeenRun };

    ghost view = { λ s. s.runs };
}

/// The four counts of a place: the failing and passing runs that cover it, and those that don't.
#[derive(Clone, Copy)]
pub struct Tally {
    /// Failing runs that cover the place.
    pub ef: u64,
    /// Passing runs that cover it.
    pub ep: u64,
    /// Failing runs that don't cover it.
    pub nf: u64,
    /// Passing runs that don't cover it.
    pub np: u64,
}

impl Kept {
    /// No run yet. It takes no memory.
    pub fn new(alloc: Global) -> Self
        ensures { result ≡ [] }
    {
        Kept {
            alloc,
            runs: Items::new(alloc),
        }
    }

    /// Appends a run. After want of memory the runs are as before.
    pub fn see(&mut self, covered: &[bool], passed: bool) -> Result<(), AllocError>
        ensures seen { OnOk result (self.new ≡ self.old ++ record { covered = covered.now; passed = passed } ∷ []) }
        ensures refused { OnErr result (self.new ≡ self.old) }
    {
        let covered = Items::from_slice(self.alloc, covered)?;
        self.runs.push(SeenRun { covered, passed })
    }

    /// The counts of a place, by its number from 0.
    pub fn tally(&self, place: usize) -> Tally
        ensures { counts result ≡ counts_at self.now place }
    {
        let runs = self.runs.as_slice();
        Tally {
            ef: count(runs, place, true, false),
            ep: count(runs, place, true, true),
            nf: count(runs, place, false, false),
            np: count(runs, place, false, true),
        }
    }
}

fn is_covered(run: &SeenRun, place: usize) -> bool
    ensures { result ≡ covers run.now place }
{
    match run.covered.get(place) {
        None => false,
        Some(covered) => *covered,
    }
}

fn is_of_kind(run: &SeenRun, place: usize, covered: bool, passed: bool) -> bool
    ensures { result ≡ is_kind covered passed place run.now }
{
    is_covered(run, place) == covered && run.passed == passed
}

// How many of the runs cover the place, or don't, and passed, or didn't.
fn count(runs: &[SeenRun], place: usize, covered: bool, passed: bool) -> u64
    ensures { result ≡ count_by (is_kind covered passed place) runs.now }
{
    let mut count: u64 = 0;
    for run in runs {
        if is_of_kind(run, place, covered, passed) {
            count += 1;
        }
    }
    count
}
