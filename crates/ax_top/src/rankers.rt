//! The handed-in rankers.
ghost use Rattle.std.specs.Prelude.{◌≡◌, ◌<◌, IfOk, IfSome, length, map};
ghost use Rattle.std.specs.Str.{bytes_eq};
ghost use Rattle.ax_rank_coverage.specs.Handed.{handed, ranker_at};
ghost use Rattle.ax_top.specs.Orders.{RankerJudged};

use crate::files::Stop;
use ax_rank::Ranker;

fn has_name(ranker: &Box<dyn Ranker>, name: &str) -> bool
    ensures { result ≡ bytes_eq (title ranker.now) name.now }
{
    ranker.name() == name
}

/// The place of the first ranker of that name.
pub fn place_of(rankers: &[Box<dyn Ranker>], name: &str) -> Option<usize>
    ensures first { result ≡ ranker_at (map (λ r. handed (title r) (runs r) (formula r)) rankers.now) name.now }
    ensures within { IfSome result (λ at. at < length rankers.now) }
{
    for (i, ranker) in rankers.iter().enumerate() {
        if has_name(ranker, name) {
            return Some(i);
        }
    }
    None
}

/// The place of the ranker that an order needs.
pub fn judge_ranker(rankers: &[Box<dyn Ranker>], name: &str) -> Result<usize, Stop>
    ensures first { RankerJudged (map (λ r. handed (title r) (runs r) (formula r)) rankers.now) name.now result }
    ensures within { IfOk result (λ at. at < length rankers.now) }
{
    match place_of(rankers, name) {
        Some(place) => Ok(place),
        None => Err(Stop::NoRanker),
    }
}
