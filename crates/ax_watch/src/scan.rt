//! Unit propagation by going over all clauses in turn: the plain program beside the one that watches literals.

ghost use Rattle.std.specs.Prelude.{◌≡◌, ◌↔◌, All, IsSome, IfSome, IfNone, Some, length};
ghost use Rattle.ax_proof.specs.Literal.{IsBelow};
ghost use Rattle.ax_proof.specs.Clause.{IsClause};
ghost use Rattle.ax_proof.specs.Propagation.{Conflicts};
ghost use Rattle.ax_proof.specs.Trail.{IsConsistent, IsSettled};
ghost use Rattle.ax_proof.specs.Runs.{GoesOn, StepSays};
ghost use Rattle.ax_watch.specs.Watch.{WatchSays};

use crate::store::Store;
use ax_proof::literal::Lit;
use ax_proof::trail::{Judgement, Trail};

/// Makes true what the clause of this number forces; `false` where the clause is false.
pub fn apply(trail: &mut Trail, clause: &[Lit], number: usize) -> bool
    requires rising { IsClause clause.now }
    requires below { IsBelow trail.old.size clause.now }
    ensures { StepSays clause.now number trail.old trail.new result }
{
    match trail.judge(clause) {
        Judgement::Satisfied => true,
        Judgement::Undecided => true,
        Judgement::Falsified => false,
        Judgement::Unit(lit) => {
            trail.push(lit, number);
            true
        }
    }
}

/// Goes over the clauses once, and makes true what they force. It stops at a false clause, and gives its place.
fn sweep(trail: &mut Trail, store: &Store) -> Option<usize>
    requires below { All (IsBelow trail.old.size) store.now.clauses }
    requires paired { length trail.old.reasons ≡ length trail.old.lits }
    ensures goes_on { GoesOn store.now.clauses trail.old trail.new }
    ensures conflict { IfSome result (λ place. WatchSays store.now.clauses trail.new.lits (Some place)) }
    ensures quiet { IfNone result (length trail.new.lits ≡ length trail.old.lits → All (IsSettled trail.new.lits) store.now.clauses) }
{
    for place in 0..store.len() {
        if !apply(trail, store.get(place), place + 1) {
            return Some(place);
        }
    }
    None
}

/// Unit propagation. It goes on until a clause is false, whose place it gives, or until nothing more follows.
pub fn scan(trail: &mut Trail, store: &Store) -> Option<usize>
    requires { All (IsBelow trail.old.size) store.now.clauses }
    ensures goes_on { GoesOn store.now.clauses trail.old trail.new }
    ensures says { WatchSays store.now.clauses trail.new.lits result }
    ensures exact { IsSome result ↔ Conflicts store.now.clauses trail.old.lits }
    ensures consistent { IsConsistent trail.new.lits }
{
    let mut known = trail.lits().len();
    'sweeps: loop {
        match sweep(trail, store) {
            Some(place) => {
                let _ = trail.lits();
                return Some(place);
            }
            None => {}
        }
        let now_known = trail.lits().len();
        if now_known == known {
            return None;
        }
        known = now_known;
    }
}
