//! Lines from false clauses, with one literal of the last level.

ghost use Rattle.std.specs.Prelude.{◌≡◌, ◌↔◌, ◌+◌, ◌<◌, ◌≤◌, ◌^◌, [], All, IfOk, IfSome, length, take, slice_index_or};
ghost use Rattle.std.specs.List.{Contains};
ghost use Rattle.std.specs.Bool.{OnTrue};
ghost use Rattle.ax_proof.specs.Literal.{negation};
ghost use Rattle.ax_proof.specs.Trail.{IsFalsified, IsSettled};
ghost use Rattle.ax_watch.specs.Watch.{clause_of};
ghost use Rattle.ax_sat.specs.Marks.{MarksMore};
ghost use Rattle.ax_sat.specs.Analysis.{AreIn, Suffices, Collects, Explains, StandsOf};

use crate::marks::Marks;
use ax_proof::trail::Truth;
use ax_proof::{Clause, Line, Lit};
use ax_watch::Watch;
use std::alloc::{AllocError, Global};

/// No variable has this number.
const NO_VARIABLE: u64 = 0;

/// Marks the variables of the clause at this place, but for one; `false` where another of its literals isn't false.
fn mark(watch: &Watch, marks: &mut Marks, place: usize, except: u64) -> Result<bool, AllocError>
    requires place { place < length watch.now.clauses }
    requires size { length marks.old.on ≡ watch.now.vars + 1 }
    ensures more { MarksMore marks.old.on marks.new.on }
    ensures marked { IfOk result (λ fits. OnTrue fits (AreIn watch.now.trail marks.new.on except (clause_of watch.now.clauses place))) }
{
    let lits = watch.clause(place);
    for lit in lits {
        if lit.var() != except {
            match watch.truth(*lit) {
                Truth::False => marks.set(lit.var() as usize)?,
                Truth::True => return Ok(false),
                Truth::Open => return Ok(false),
            }
        }
    }
    Ok(true)
}

/// Resolves: puts the other literals of the clause at this place in the place of the true literal, which it forced.
fn resolve(watch: &Watch, marks: &mut Marks, place: usize, lit: Lit) -> Result<bool, AllocError>
    requires place { place < length watch.now.clauses }
    requires size { length marks.old.on ≡ watch.now.vars + 1 }
    requires lit { Contains watch.now.trail lit }
    requires forced { Contains (clause_of watch.now.clauses place) lit }
    requires start { Suffices watch.now.clauses watch.now.trail marks.old.on }
    ensures size { length marks.new.on ≡ length marks.old.on }
    ensures end { IfOk result (λ fits. OnTrue fits (Suffices watch.now.clauses watch.now.trail marks.new.on)) }
{
    let _known = watch.trail();
    marks.unset(lit.var() as usize);
    mark(watch, marks, place, lit.var())
}

/// Resolves down the trail until one marked literal is left from `start` on.
fn walk(watch: &Watch, marks: &mut Marks, start: usize) -> Result<bool, AllocError>
    requires size { length marks.old.on ≡ watch.now.vars + 1 }
    requires begin { Suffices watch.now.clauses watch.now.trail marks.old.on }
    ensures size { length marks.new.on ≡ length marks.old.on }
    ensures end { IfOk result (λ fits. OnTrue fits (Suffices watch.now.clauses watch.now.trail marks.new.on)) }
{
    let trail = watch.trail();
    for index in (start..trail.len()).rev() {
        let lit = trail[index];
        if marks.has(lit.var() as usize) {
            if marks.late() <= 1 {
                return Ok(true);
            }
            match watch.reason(index) {
                None => return Ok(false),
                Some(place) => {
                    if !resolve(watch, marks, place, lit)? {
                        return Ok(false);
                    }
                }
            }
        }
    }
    Ok(true)
}

/// Whether the literals are marked, but for those of one variable. It only says what to try, so nothing rests on it.
fn are_marked(watch: &Watch, marks: &Marks, place: usize, except: u64) -> bool
    requires place { place < length watch.now.clauses }
    requires size { length marks.now.on ≡ watch.now.vars + 1 }
{
    let lits = watch.clause(place);
    for lit in lits {
        if lit.var() != except && !marks.has(lit.var() as usize) {
            return false;
        }
    }
    true
}

/// The places below `start` that were noted for the marked variables, by rising place.
fn early_places(alloc: Global, marks: &Marks, start: usize) -> Result<Vec<usize>, AllocError> {
    let mut places = Vec::new(alloc);
    for x in marks.touched() {
        let place = marks.place(*x);
        if place < start {
            places.push(place)?;
        }
    }
    places.sort_unstable();
    Ok(places)
}

/// Takes away the mark of the literal at this place of the trail, if its reason has no other literals than marked ones;
/// `false` where the clause doesn't fit.
fn drop_implied(watch: &Watch, marks: &mut Marks, index: usize) -> Result<bool, AllocError>
    requires size { length marks.old.on ≡ watch.now.vars + 1 }
    requires index { index < length watch.now.trail }
    requires begin { Suffices watch.now.clauses watch.now.trail marks.old.on }
    ensures size { length marks.new.on ≡ length marks.old.on }
    ensures end { IfOk result (λ fits. OnTrue fits (Suffices watch.now.clauses watch.now.trail marks.new.on)) }
{
    let lit = watch.trail()[index];
    if !marks.has(lit.var() as usize) {
        return Ok(true);
    }
    match watch.reason(index) {
        None => Ok(true),
        Some(place) => {
            if are_marked(watch, marks, place, lit.var()) {
                resolve(watch, marks, place, lit)
            } else {
                Ok(true)
            }
        }
    }
}

/// Takes away marked literals below `start` that the others imply, from the last one down.
fn shorten(
    alloc: Global,
    watch: &Watch,
    marks: &mut Marks,
    start: usize,
) -> Result<bool, AllocError>
    requires size { length marks.old.on ≡ watch.now.vars + 1 }
    requires start { start ≤ length watch.now.trail }
    requires begin { Suffices watch.now.clauses watch.now.trail marks.old.on }
    ensures size { length marks.new.on ≡ length marks.old.on }
    ensures end { IfOk result (λ fits. OnTrue fits (Suffices watch.now.clauses watch.now.trail marks.new.on)) }
{
    let places = early_places(alloc, marks, start)?;
    for index in places.as_slice().iter().rev() {
        if *index < start && !drop_implied(watch, marks, *index)? {
            return Ok(false);
        }
    }
    Ok(true)
}

/// The place of the variable's literal on the trail, or none where another one was noted.
pub fn place_of(watch: &Watch, marks: &Marks, x: usize) -> Option<usize>
    ensures { IfSome result (λ at. StandsOf watch.now.trail at x) }
{
    let trail = watch.trail();
    let at = marks.place(x);
    if at < trail.len() && trail[at].var() as usize == x {
        Some(at)
    } else {
        None
    }
}

/// The line of all marked literals, where one of them alone was made false from `start` on.
fn collect(
    alloc: Global,
    watch: &Watch,
    marks: &Marks,
    start: usize,
) -> Result<Option<Line>, AllocError>
    requires start { start ≤ length watch.now.trail }
    ensures { IfOk result (λ found. IfSome found (λ line. Collects watch.now.trail marks.now.on start line)) }
{
    let trail = watch.trail();
    let mut others = Vec::new(alloc);
    let mut first = None;
    for x in marks.touched() {
        if marks.has(*x) {
            match place_of(watch, marks, *x) {
                None => return Ok(None),
                Some(at) => {
                    let lit = trail[at].negate();
                    if at < start {
                        others.push(lit)?;
                    } else {
                        match first {
                            Some(_) => return Ok(None),
                            None => first = Some(lit),
                        }
                    }
                }
            }
        }
    }
    match first {
        None => Ok(None),
        Some(lit) => {
            others.push(lit)?;
            let line = Clause::from_lits(alloc, others.as_slice())?;
            Ok(line)
        }
    }
}

/// A line that says why the clause at this place is false: from the clause up the trail, each literal made true from
/// `start` on is replaced by its reason, until one is left, the first unique implication point. None where the search
/// for it fails, which it doesn't where the trail from `start` on is one decision and what it forces.
pub fn learn(
    alloc: Global,
    watch: &Watch,
    marks: &mut Marks,
    place: usize,
    start: usize,
) -> Result<Option<Line>, AllocError>
    requires size { length marks.old.on ≡ watch.now.vars + 1 }
    requires place { place < length watch.now.clauses }
    requires falsified { IsFalsified watch.now.trail (clause_of watch.now.clauses place) }
    requires start { start ≤ length watch.now.trail }
    ensures size { length marks.new.on ≡ length marks.old.on }
    ensures explains { IfOk result (λ found. IfSome found (λ line. Explains watch.now.clauses watch.now.trail start line)) }
{
    let _known = watch.trail();
    marks.begin(start);
    if !mark(watch, marks, place, NO_VARIABLE)? {
        return Ok(None);
    }
    if !walk(watch, marks, start)? {
        return Ok(None);
    }
    if !shorten(alloc, watch, marks, start)? {
        return Ok(None);
    }
    let line = collect(alloc, watch, marks, start)?;
    Ok(line)
}
