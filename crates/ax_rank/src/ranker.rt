//! What a ranker is.
ghost use Rattle.std.specs.Prelude.{◌≡◌, ◌++◌, ◌∷◌, [], ◌↔◌, ℕ, List, IsTrue, OnOk, OnErr};

use sqlite_items::Items;
use std::alloc::AllocError;

/// A run as a ranker sees it: the places that it covered, and whether it passed.
#[derive(Debug, Drop)]
pub struct SeenRun {
    pub covered: Items<bool>,
    pub passed: bool,
}

/// A score, the fraction `num / den`. One with `den` 0 counts as 0.
#[derive(Clone, Copy, Debug, PartialEq, Eq)]
pub struct Score {
    pub num: u64,
    pub den: u64,
}

impl Score {
    ghost use Rattle.ax_rank.specs.Scores.{IsAbove};

    /// Whether a place with this score stands before one with the other: by cross products in 128 bits, where equal
    /// scores stand in no order.
    pub fn before(&self, other: &Score) -> bool
        ensures { IsTrue result ↔ IsAbove self.now other.now }
    {
        if self.den == 0 {
            return false;
        }
        if other.den == 0 {
            return self.num > 0;
        }
        u128::from(other.num) * u128::from(self.den) < u128::from(self.num) * u128::from(other.den)
    }
}

/// A suspicion formula over the runs that it has seen.
///
/// A ranker stores the runs and keeps an allocator for them. Its meaning is the list of these runs, its name and its
/// formula. A place is an index into a run's list, from 0, and a place past the end of the list is not covered.
pub trait Ranker: Drop {
    ghost use Rattle.ax_rank.specs.declared.ranker.SeenRun.{SeenRun};
    ghost use Rattle.ax_rank.specs.Runs.{Counts, counts_at};

    /// The runs that it has seen, the first one first.
    ghost runs: { Self → List SeenRun };

    /// The bytes of its name.
    ghost title: { Self → List ℕ };

    /// Numerator and denominator, of a place's number and its four counts.
    ghost formula: { Self → ℕ → Counts → ℕ × ℕ };

    /// The name by which it is picked.
    fn name(&self) -> &str
        ensures { result.now ≡ title self.now };

    /// Appends one run to those that it has seen. After want of memory it is unchanged.
    fn see(&mut self, covered: &[bool], passed: bool) -> Result<(), AllocError>
        ensures seen { OnOk result (runs self.new ≡ runs self.old ++ record { covered = covered.now; passed = passed } ∷ []) }
        ensures refused { OnErr result (runs self.new ≡ runs self.old) }
        ensures title { title self.new ≡ title self.old }
        ensures formula { formula self.new ≡ formula self.old };

    /// The formula over the place's number and its four counts in all runs seen so far.
    fn score(&self, place: usize) -> Score
        ensures { (result.num, result.den) ≡ formula self.now place (counts_at (runs self.now) place) };
}
