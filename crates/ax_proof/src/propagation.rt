//! Unit propagation by going over all clauses in turn.

ghost use Rattle.std.specs.Prelude.{◌≡◌, ◌↔◌, ◌++◌, [], All, IsSome, IfSome, IfNone, length, map};
ghost use Rattle.ax_proof.specs.Literal.{negation, IsBelow};
ghost use Rattle.ax_proof.specs.Propagation.{Conflicts};
ghost use Rattle.ax_proof.specs.Trail.{IsSettled};
ghost use Rattle.ax_proof.specs.Uses.{numbered, IsNumber};
ghost use Rattle.ax_proof.specs.Runs.{GoesOn, PropagationSays, StepSays};

use crate::clause::{Clause, Line};
use crate::trail::{Judgement, Trail};

/// The clause of this number. Clauses are numbered from 1, and the lines go on from there.
pub fn clause_numbered<'a>(clauses: &'a [Clause], lines: &'a [Line], number: usize) -> &'a Clause
    requires { IsNumber (clauses.now ++ lines.now) number }
    ensures { result.now ≡ numbered (clauses.now ++ lines.now) number }
{
    let place = number - 1;
    if place < clauses.len() {
        &clauses[place]
    } else {
        &lines[place - clauses.len()]
    }
}

/// Makes true what the clause of this number forces; `false` where the clause is false.
fn apply(trail: &mut Trail, clause: &Clause, number: usize) -> bool
    requires { IsBelow trail.old.size clause.now }
    ensures { StepSays clause.now number trail.old trail.new result }
{
    match trail.judge(clause.lits()) {
        Judgement::Satisfied => true,
        Judgement::Undecided => true,
        Judgement::Falsified => false,
        Judgement::Unit(lit) => {
            trail.push(lit, number);
            true
        }
    }
}

/// Goes over clauses and lines once, and makes true what they force. It stops at a false clause, and gives its number.
fn sweep(trail: &mut Trail, clauses: &[Clause], lines: &[Line]) -> Option<usize>
    requires below { All (IsBelow trail.old.size) (clauses.now ++ lines.now) }
    requires paired { length trail.old.reasons ≡ length trail.old.lits }
    ensures goes_on { GoesOn (clauses.now ++ lines.now) trail.old trail.new }
    ensures conflict { IfSome result (λ n. PropagationSays (clauses.now ++ lines.now) trail.new.lits (Some n)) }
    ensures quiet { IfNone result (length trail.new.lits ≡ length trail.old.lits → All (IsSettled trail.new.lits) (clauses.now ++ lines.now)) }
{
    for place in 0..clauses.len() + lines.len() {
        let number = place + 1;
        if !apply(trail, clause_numbered(clauses, lines, number), number) {
            return Some(number);
        }
    }
    None
}

/// Unit propagation. It goes on until a clause is false, whose number it gives, or until nothing more follows.
pub fn propagate(trail: &mut Trail, clauses: &[Clause], lines: &[Line]) -> Option<usize>
    requires { All (IsBelow trail.old.size) (clauses.now ++ lines.now) }
    ensures goes_on { GoesOn (clauses.now ++ lines.now) trail.old trail.new }
    ensures says { PropagationSays (clauses.now ++ lines.now) trail.new.lits result }
    ensures exact { IsSome result ↔ Conflicts (clauses.now ++ lines.now) trail.old.lits }
{
    let mut known = trail.lits().len();
    'sweeps: loop {
        match sweep(trail, clauses, lines) {
            Some(number) => return Some(number),
            None => {}
        }
        let now_known = trail.lits().len();
        if now_known == known {
            return None;
        }
        known = now_known;
    }
}

/// Makes each literal of the line false.
pub fn deny(trail: &mut Trail, line: &Line)
    requires empty { trail.old.lits ≡ [] }
    requires below { IsBelow trail.old.size line.now }
    ensures lits { trail.new.lits ≡ map negation line.now }
    ensures size { trail.new.size ≡ trail.old.size }
{
    for lit in line.lits() {
        trail.push(lit.negate(), 0);
    }
}
