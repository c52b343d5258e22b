use ax_rank::{Jaccard, Ochiai, Ranker, Score, Tarantula};
use std::alloc::AllocError;

fn score(num: u64, den: u64) -> Score {
    Score { num, den }
}

#[test]
fn greater_scores_come_first(rt: HostRuntime) {
    let max = u64::MAX;
    let rows = [
        (score(1, 2), score(1, 3), true),
        (score(1, 3), score(1, 2), false),
        (score(2, 4), score(1, 2), false),
        (score(1, 0), score(0, 1), false),
        (score(1, 9), score(5, 0), true),
        (score(0, 9), score(5, 0), false),
        (score(max, max - 1), score(max - 1, max), true),
    ];
    for (score, other, want) in &rows {
        assert!(rt; score.before(other) == *want, "{}/{}", score.num, score.den);
    }
}

// Five runs over two places, of which the fourth alone fails. The last two cover the first place, and they and the
// first run cover the second.
const RUNS: [(&[bool], bool); 5] = [
    (&[false, true], true),
    (&[false, false], true),
    (&[], true),
    (&[true, true], false),
    (&[true, true], true),
];

// The scores of the two places after these runs, and of one that no run covers.
fn scores(ranker: &mut dyn Ranker) -> Result<[Score; 3], AllocError> {
    for (covered, passed) in &RUNS {
        ranker.see(covered, *passed)?;
    }
    Ok([ranker.score(0), ranker.score(1), ranker.score(2)])
}

#[test]
fn five_runs(rt: HostRuntime) -> Result<(), AllocError> {
    let alloc = rt.alloc();
    let jaccard = scores(&mut Jaccard::new(alloc))?;
    assert!(rt; jaccard == [score(1, 2), score(1, 3), score(0, 1)]);
    let ochiai = scores(&mut Ochiai::new(alloc))?;
    assert!(rt; ochiai == [score(1, 2), score(1, 3), score(0, 1)]);
    let tarantula = scores(&mut Tarantula::new(alloc))?;
    assert!(rt; tarantula == [score(4, 5), score(4, 6), score(0, 1)]);
    Ok(())
}

#[test]
fn no_run_and_no_passing_run(rt: HostRuntime) -> Result<(), AllocError> {
    let mut ranker = Tarantula::new(rt.alloc());
    assert!(rt; ranker.score(0) == score(0, 1));
    ranker.see(&[true], false)?;
    assert!(rt; ranker.score(0) == score(1, 1));
    Ok(())
}
