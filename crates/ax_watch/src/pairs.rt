//! Which two literals of a new clause to watch.

ghost use Rattle.std.specs.Prelude.{◌≡◌, ◌≢◌, ◌<◌, ◌≤◌, length, take};
ghost use Rattle.ax_proof.specs.Clause.{IsClause};
ghost use Rattle.ax_watch.specs.Watched.{IsNotFalse, IsPair};

use ax_proof::literal::Lit;
use ax_proof::trail::{Trail, Truth};

/// Two literals of a clause, and so many literals of the trail that the first of them make neither false.
#[derive(Clone, Copy)]
pub struct Pair {
    pub first: Lit,
    pub second: Lit,
    pub until: usize,
}

/// Places of two literals in a clause.
#[derive(Clone, Copy)]
struct Two {
    first: usize,
    second: usize,
}

/// Notes where the literals of the trail from `from` on stand, for their variables. Whoever reads a place looks whether
/// the literal is there, so nothing rests on it.
pub fn note(places: &mut Vec<usize>, trail: &[Lit], from: usize) {
    for at in from..trail.len() {
        if let Some(slot) = places.get_mut(trail[at].var() as usize) {
            *slot = at;
        }
    }
}

/// So many literals of the trail that the first of them don't make the literal false: as far as the place that was noted
/// for its variable, where its negation stands there.
fn open_until(trail: &Trail, places: &[usize], lit: Lit) -> usize
    ensures { IsNotFalse (take result trail.now.lits) lit }
{
    let lits = trail.lits();
    match trail.truth(lit) {
        Truth::True => lits.len(),
        Truth::Open => lits.len(),
        Truth::False => {
            let at = places.get(lit.var() as usize).copied().unwrap_or(0);
            if at < lits.len() && lits[at] == lit.negate() {
                at
            } else {
                0
            }
        }
    }
}

/// Two places of the clause, those of the literals that are open longest as far as was noted.
fn longest(trail: &Trail, places: &[usize], clause: &[Lit]) -> Two
    requires { 1 < length clause.now }
    ensures first { result.first < length clause.now }
    ensures second { result.second < length clause.now }
    ensures differ { result.first ≢ result.second }
{
    let mut two = Two {
        first: 0,
        second: 1,
    };
    let mut high = open_until(trail, places, clause[0]);
    let mut low = open_until(trail, places, clause[1]);
    for at in 2..clause.len() {
        let until = open_until(trail, places, clause[at]);
        if until > high {
            two = Two {
                first: at,
                second: two.first,
            };
            low = high;
            high = until;
        } else if until > low {
            two.second = at;
            low = until;
        }
    }
    two
}

/// Two literals of the clause to watch: open ones, or those that became false last.
pub fn pick(trail: &Trail, places: &[usize], clause: &[Lit]) -> Pair
    requires long { 1 < length clause.now }
    requires rising { IsClause clause.now }
    ensures { IsPair trail.now.lits clause.now result }
{
    let two = longest(trail, places, clause);
    let first = clause[two.first];
    let second = clause[two.second];
    let until = open_until(trail, places, first);
    Pair {
        first,
        second,
        until: until.min(open_until(trail, places, second)),
    }
}
