//! The line that is learnt from a false clause.

ghost use Rattle.std.specs.Prelude.{◌≡◌, ◌++◌, ◌∷◌, ◌-◌, ◌+◌, ◌<◌, ◌≤◌, ◌^◌, [], All, IfOk, IfSome, OnOk, OnErr, length, slice_index_or};
ghost use Rattle.ax_proof.specs.Clause.{IsClause, Clashes, SameLiterals};
ghost use Rattle.ax_proof.specs.Literal.{IsOver};
ghost use Rattle.ax_proof.specs.Trail.{IsFalsified};
ghost use Rattle.ax_watch.specs.Watch.{WatchState, IsSound, clause_of};
ghost use Rattle.ax_sat.specs.Analysis.{Explains};
ghost use Rattle.ax_sat.specs.Levels.{Stands, StandsIn, AsksIn, denials};
ghost use Rattle.ax_sat.specs.Search.{Learns};

use crate::analysis::learn;
use crate::answer::Log;
use crate::levels::{Levels, back, jump, last};
use crate::marks::Marks;
use ax_proof::{Clause, Line, Lit};
use ax_sat_policy::Order;
use ax_watch::Watch;
use std::alloc::{AllocError, Global};

/// The clause of literals that do not clash.
fn line_of(alloc: Global, lits: &[Lit]) -> Result<Line, AllocError>
    requires { Clashes lits.now → ⊥ }
    ensures same { IfOk result (λ line. SameLiterals lits.now line) }
    ensures rising { IfOk result (λ line. IsClause line) }
{
    match Clause::from_lits(alloc, lits)? {
        Some(line) => Ok(line),
        None => unreachable!(),
    }
}

/// The clause of the negations of all decisions.
fn denial(alloc: Global, watch: &Watch, starts: &[usize]) -> Result<Line, AllocError>
    requires stands { Stands watch.now.clauses watch.now.trail watch.now.reasons starts.now }
    ensures same { IfOk result (λ line. SameLiterals (denials watch.now.trail starts.now) line) }
    ensures rising { IfOk result (λ line. IsClause line) }
{
    let trail = watch.trail();
    let mut denied = Vec::new(alloc);
    for start in starts {
        denied.push(trail[*start].negate())?;
    }
    line_of(alloc, denied.as_slice())
}

/// The line of the first unique implication point of a false clause, or the negations of all decisions where there is
/// none.
fn lesson(
    alloc: Global,
    watch: &Watch,
    marks: &mut Marks,
    starts: &[usize],
    place: usize,
) -> Result<Line, AllocError>
    requires size { length marks.old.on ≡ watch.now.vars + 1 }
    requires some { 0 < length starts.now }
    requires stands { Stands watch.now.clauses watch.now.trail watch.now.reasons starts.now }
    requires place { place < length watch.now.clauses }
    requires falsified { IsFalsified watch.now.trail (clause_of watch.now.clauses place) }
    ensures size { length marks.new.on ≡ length marks.old.on }
    ensures explains { IfOk result (λ line. Explains watch.now.clauses watch.now.trail (slice_index_or starts.now (length starts.now - 1) 0) line) }
{
    let _known = watch.trail();
    let start = starts[starts.len() - 1];
    match learn(alloc, watch, marks, place, start)? {
        Some(line) => Ok(line),
        None => {
            let line = denial(alloc, watch, starts)?;
            Ok(line)
        }
    }
}

/// Makes the variables of a line busier that were looked at for it.
fn bump_all(order: &mut Order, marks: &Marks) {
    for x in marks.touched() {
        order.bump(*x);
    }
}

/// Puts a line behind those of the log, and behind the clauses that are watched.
fn keep(watch: &mut Watch, log: &mut Log, line: Line) -> Result<(), AllocError>
    requires { IsOver watch.old.vars line }
    ensures watched { OnOk result (watch.new.clauses ≡ watch.old.clauses ++ line ∷ []) }
    ensures vars { watch.new.vars ≡ watch.old.vars }
    ensures trail { watch.new.trail ≡ watch.old.trail }
    ensures reasons { watch.new.reasons ≡ watch.old.reasons }
    ensures logged { OnOk result (log.new.lines.items ≡ log.old.lines.items ++ line ∷ []) }
    ensures refused { OnErr result (log.new.lines.items ≡ log.old.lines.items) }
{
    watch.reserve(1, line.len())?;
    let _place = watch.add(&line);
    log.lines.push(line)?;
    Ok(())
}

/// Learns a line from the false clause at this place, and takes decisions back until the line forces its lone literal.
pub fn teach(
    alloc: Global,
    watch: &mut Watch,
    levels: &mut Levels,
    marks: &mut Marks,
    order: &mut Order,
    log: &mut Log,
    place: usize,
) -> Result<(), AllocError>
    requires size { length marks.old.on ≡ watch.old.vars + 1 }
    requires some { 0 < length levels.old.starts.items }
    requires stands { StandsIn watch.old levels.old }
    requires place { place < length watch.old.clauses }
    requires falsified { IsFalsified watch.old.trail (clause_of watch.old.clauses place) }
    ensures size { length marks.new.on ≡ length marks.old.on }
    ensures sound { IsSound watch.old }
    ensures learns { OnOk result (Learns watch.old watch.new levels.old levels.new log.old.lines.items log.new.lines.items) }
    ensures refused { OnErr result (log.new.lines.items ≡ log.old.lines.items) }
{
    let _known = watch.trail();
    let starts = levels.starts.as_slice();
    let start = last(starts);
    let line = lesson(alloc, watch, marks, starts, place)?;
    let kept = jump(watch, marks, starts, &line, start);
    bump_all(order, marks);
    order.decay()?;
    back(watch, levels, order, kept)?;
    keep(watch, log, line)?;
    Ok(())
}
