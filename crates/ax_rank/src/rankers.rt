//! The three rankers of the program.
//!
//! In the formulas `ef` and `ep` are the failing and passing runs that cover a place, `nf` and `np` those that don't.
//! Each is exact while fewer than 2^31 runs were seen; of more runs each place scores 0. A zero denominator gives `0/1`.
ghost use Rattle.std.specs.Prelude.{◌≡◌, [], codes};
ghost use Rattle.ax_rank.specs.Formulas as formulas;

use crate::formulas::{jaccard, ochiai, tarantula};
use crate::kept::Kept;
use crate::{Ranker, Score};
use std::alloc::{AllocError, Global};
use std::marker::Model;

/// `ef / (ef + ep + nf)`: of the runs that fail or cover the place, those that do both.
///
/// Its meaning is the list of runs that it has seen.
#[derive(Drop)]
pub struct Jaccard {
    kept: Kept,
}

impl Model for Jaccard {
    ghost use Rattle.std.specs.Prelude.{List};
    ghost use Rattle.ax_rank.specs.declared.ranker.SeenRun.{SeenRun};

    ghost Value = { List SeenRun };

    ghost view = { λ s. s.kept };
}

impl Jaccard {
    /// A ranker that has seen no run. It takes no memory.
    pub fn new(alloc: Global) -> Self
        ensures { result ≡ [] }
    {
        Jaccard {
            kept: Kept::new(alloc),
        }
    }
}

impl Ranker for Jaccard {
    ghost runs = { λ s. s };

    ghost title = { λ _. codes "jaccard" };

    ghost formula = { λ _. λ _. formulas.jaccard };

    fn name(&self) -> &str {
        "jaccard"
    }

    fn see(&mut self, covered: &[bool], passed: bool) -> Result<(), AllocError> {
        self.kept.see(covered, passed)
    }

    fn score(&self, place: usize) -> Score {
        jaccard(self.kept.tally(place))
    }
}

/// `ef * ef / ((ef + nf) * (ef + ep))`, the square of the usual value.
///
/// Its meaning is the list of runs that it has seen.
#[derive(Drop)]
pub struct Ochiai {
    kept: Kept,
}

impl Model for Ochiai {
    ghost use Rattle.std.specs.Prelude.{List};
    ghost use Rattle.ax_rank.specs.declared.ranker.SeenRun.{SeenRun};

    ghost Value = { List SeenRun };

    ghost view = { λ s. s.kept };
}

impl Ochiai {
    /// A ranker that has seen no run. It takes no memory.
    pub fn new(alloc: Global) -> Self
        ensures { result ≡ [] }
    {
        Ochiai {
            kept: Kept::new(alloc),
        }
    }
}

impl Ranker for Ochiai {
    ghost runs = { λ s. s };

    ghost title = { λ _. codes "ochiai" };

    ghost formula = { λ _. λ _. formulas.ochiai };

    fn name(&self) -> &str {
        "ochiai"
    }

    fn see(&mut self, covered: &[bool], passed: bool) -> Result<(), AllocError> {
        self.kept.see(covered, passed)
    }

    fn score(&self, place: usize) -> Score {
        ochiai(self.kept.tally(place))
    }
}

/// `ef * p / (ef * p + ep * f)`, with `f` failing and `p` passing runs: the part of the failing runs that covers the
/// place, over that part and the passing runs' part together. It is 0 where `ef` is 0, and else 1 where no run passed.
///
/// Its meaning is the list of runs that it has seen.
#[derive(Drop)]
pub struct Tarantula {
    kept: Kept,
}

impl Model for Tarantula {
    ghost use Rattle.std.specs.Prelude.{List};
    ghost use Rattle.ax_rank.specs.declared.ranker.SeenRun.{SeenRun};

    ghost Value = { List SeenRun };

    ghost view = { λ s. s.kept };
}

impl Tarantula {
    /// A ranker that has seen no run. It takes no memory.
    pub fn new(alloc: Global) -> Self
        ensures { result ≡ [] }
    {
        Tarantula {
            kept: Kept::new(alloc),
        }
    }
}

impl Ranker for Tarantula {
    ghost runs = { λ s. s };

    ghost title = { λ _. codes "tarantula" };

    ghost formula = { λ _. λ _. formulas.tarantula };

    fn name(&self) -> &str {
        "tarantula"
    }

    fn see(&mut self, covered: &[bool], passed: bool) -> Result<(), AllocError> {
        self.kept.see(covered, passed)
    }

    fn score(&self, place: usize) -> Score {
        tarantula(self.kept.tally(place))
    }
}
