ghost use Rattle.std.specs.Prelude.{◌+◌, ◌-◌, ◌^◌, ◌%◌, ◌==◌, if◌then◌else◌, codes};

use ax_rank::{Jaccard, Ranker, Score, SeenRun, Standing, Tarantula, rank};
use sqlite_items::Items;
use std::alloc::{AllocError, Global};

// A ranker whose scores go by the place's number alone. They lie so near to each other that only 128 bits hold their
// cross products apart, and the one of place 2 is over 0.
#[derive(Drop)]
struct Near {
    alloc: Global,
    seen: Items<SeenRun>,
}

impl Ranker for Near {
    ghost runs = { λ s. s.seen };

    ghost title = { λ _. codes "near" };

    ghost formula = { λ _. λ place. λ _. (2 ^ 64 - 5 + place % 4, if place == 2 then 0 else (2 ^ 64 - 4 + place % 4)) };

    fn name(&self) -> &str {
        "near"
    }

    fn see(&mut self, covered: &[bool], passed: bool) -> Result<(), AllocError> {
        let covered = Items::from_slice(self.alloc, covered)?;
        self.seen.push(SeenRun { covered, passed })
    }

    fn score(&self, place: usize) -> Score {
        let step = place as u64 % 4;
        let num = u64::MAX - 4 + step;
        let den = if place == 2 { 0 } else { u64::MAX - 3 + step };
        Score { num, den }
    }
}

#[test]
fn near_scores_and_one_over_zero(rt: HostRuntime) -> Result<(), AllocError> {
    let alloc = rt.alloc();
    let seen = Items::new(alloc);
    let mut ranker: Box<dyn Ranker> = Box::new(alloc, Near { alloc, seen })?;
    ranker.see(&[true, false], false)?;
    assert!(rt; ranker.name() == "near");
    let (num, den) = (u64::MAX - 1, u64::MAX);
    assert!(rt; ranker.score(3) == Score { num, den });
    let order = rank(alloc, &mut *ranker, &[], 7)?;
    let places = order.as_slice().iter().map(|standing| standing.place);
    assert!(rt; places.eq([3, 6, 1, 5, 0, 4, 2]));
    Ok(())
}

// The order after these runs, each with the places that it covers and whether it passes.
fn order(
    alloc: Global,
    ranker: &mut dyn Ranker,
    rows: &[(&[bool], bool)],
    places: usize,
) -> Result<Items<Standing>, AllocError> {
    let mut runs = Vec::new(alloc);
    for row in rows {
        let covered = Items::from_slice(alloc, row.0)?;
        let passed = row.1;
        runs.push(SeenRun { covered, passed })?;
    }
    rank(alloc, ranker, &runs, places)
}

// Five runs over five places, of which the fourth alone fails. It and the fifth cover the places 2 and 4, and they and
// the first cover the others.
const FIVE: [(&[bool], bool); 5] = [
    (&[true, true, false, true, false], true),
    (&[], true),
    (&[false, false, false], true),
    (&[true, true, true, true, true], false),
    (&[true, true, true, true, true], true),
];

fn standing(place: usize, num: u64, den: u64) -> Standing {
    let score = Score { num, den };
    Standing { place, score }
}

#[test]
fn five_runs_by_jaccard(rt: HostRuntime) -> Result<(), AllocError> {
    let alloc = rt.alloc();
    let order = order(alloc, &mut Jaccard::new(alloc), &FIVE, 5)?;
    let want = [
        standing(2, 1, 2),
        standing(4, 1, 2),
        standing(0, 1, 3),
        standing(1, 1, 3),
        standing(3, 1, 3),
    ];
    assert!(rt; order.as_slice() == want.as_slice());
    Ok(())
}

#[test]
fn runs_seen_before_count_too(rt: HostRuntime) -> Result<(), AllocError> {
    let alloc = rt.alloc();
    let mut ranker = Tarantula::new(alloc);
    ranker.see(&[], true)?;
    let order = order(alloc, &mut ranker, &[(&[true], true), (&[true], false)], 1)?;
    assert!(rt; order.as_slice() == [standing(0, 2, 3)].as_slice());
    Ok(())
}
