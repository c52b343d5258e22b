//! A search below the assumptions, to a model or to a line that is learnt.

ghost use Rattle.std.specs.Prelude.{◌≡◌, ◌↔◌, ◌+◌, ◌<◌, ◌≤◌, ◌^◌, [], All, IfOk, IfSome, IfNone, IsTrue, length};
ghost use Rattle.std.specs.List.{Contains};
ghost use Rattle.ax_proof.specs.Literal.{IsOver};
ghost use Rattle.ax_proof.specs.Trail.{IsOpen, IsSettled};
ghost use Rattle.ax_proof.specs.Runs.{GoesOn};
ghost use Rattle.ax_watch.specs.Watch.{WatchState, WatchSays, trail_of};
ghost use Rattle.ax_sat.specs.Levels.{StandsIn, AsksIn};
ghost use Rattle.ax_sat.specs.Search.{AreBitsOf, AreAssigned, BeginSays, IsComplete, IsEnd, StepSays, DescentSays};

use crate::levels::{Asked, Levels, ask, decide, is_root};
use crate::marks::Marks;
use ax_proof::trail::Truth;
use ax_proof::{Assignment, Lit};
use ax_sat_policy::Order;
use ax_watch::Watch;
use std::alloc::{AllocError, Global};

/// Where a descent ends.
#[derive(Drop, Debug)]
pub enum Descent {
    /// All variables have values, and nothing is false.
    Complete(Assignment),
    /// The clause at this place is false.
    Conflict(usize),
    /// The assumptions make a clause false.
    Refuted,
}

/// What was done for one more value.
#[derive(Clone, Copy, PartialEq, Eq, Debug)]
enum Choice {
    /// A literal was decided.
    Decided,
    /// All variables have values.
    Full,
    /// An assumption is false.
    Denied,
}

/// Makes the assumptions true on an empty trail, with what they force, and puts the negations of those that were open
/// into `denied`; `false` where a clause is false then.
pub fn begin(
    watch: &mut Watch,
    assumptions: &[Lit],
    denied: &mut Vec<Lit>,
) -> Result<bool, AllocError>
    requires assumed { IsOver watch.old.vars assumptions.now }
    requires empty { denied.old.items ≡ [] }
    ensures kept { watch.new ≡ record watch.old { trail = watch.new.trail; reasons = watch.new.reasons } }
    ensures says { IfOk result (λ found. BeginSays watch.old.clauses assumptions.now watch.old.vars watch.new.trail denied.new.items found) }
{
    watch.back(0);
    match watch.propagate() {
        Some(_) => return Ok(false),
        None => {}
    }
    for lit in assumptions {
        match watch.truth(*lit) {
            Truth::True => {}
            Truth::False => return Ok(false),
            Truth::Open => {
                let _known = watch.trail();
                denied.push(lit.negate())?;
                watch.assume(*lit);
                match watch.propagate() {
                    Some(_) => return Ok(false),
                    None => {}
                }
            }
        }
    }
    let _known = watch.trail();
    Ok(true)
}

/// Whether the literal is true.
fn holds(watch: &Watch, lit: Lit) -> bool
    ensures { IsTrue result ↔ Contains watch.now.trail lit }
{
    match watch.truth(lit) {
        Truth::True => true,
        Truth::False => false,
        Truth::Open => false,
    }
}

/// For each variable, whether it is true.
pub(crate) fn bits_of(alloc: Global, watch: &Watch) -> Result<Assignment, AllocError>
    requires { watch.now.vars < 2 ^ 63 }
    ensures { IfOk result (λ made. AreBitsOf watch.now.trail watch.now.vars made.bits.items) }
{
    let mut bits = Vec::new(alloc);
    for before in 0..watch.vars() {
        bits.push(holds(watch, Lit::new(before + 1, true)))?;
    }
    Ok(Assignment { bits })
}

/// Unit propagation, which notes the places of the literals that it makes true.
fn spread(watch: &mut Watch, marks: &mut Marks) -> Option<usize>
    ensures kept { watch.new ≡ record watch.old { trail = watch.new.trail; reasons = watch.new.reasons } }
    ensures goes_on { GoesOn watch.old.clauses (trail_of watch.old) (trail_of watch.new) }
    ensures says { WatchSays watch.old.clauses watch.new.trail result }
    ensures longer { length watch.old.trail ≤ length watch.new.trail }
    ensures marks { marks.new ≡ marks.old }
{
    let from = watch.trail().len();
    let found = watch.propagate();
    let trail = watch.trail();
    for index in from..trail.len() {
        marks.put(trail[index].var() as usize, index);
    }
    found
}

/// An open literal, or none where all variables have values.
fn first_open(watch: &Watch) -> Option<Lit>
    requires { watch.now.vars < 2 ^ 63 }
    ensures open { IfSome result (λ lit. IsOpen watch.now.trail lit) }
    ensures within { IfSome result (λ lit. lit.var ≤ watch.now.vars) }
    ensures full { IfNone result (AreAssigned watch.now.trail watch.now.vars) }
{
    for before in 0..watch.vars() {
        let lit = Lit::new(before + 1, false);
        match watch.truth(lit) {
            Truth::Open => return Some(lit),
            Truth::True => {}
            Truth::False => {}
        }
    }
    None
}

/// An open literal of the busiest variable, or none where all variables have values.
fn choose(watch: &Watch, order: &mut Order) -> Option<Lit>
    requires { watch.now.vars < 2 ^ 63 }
    ensures open { IfSome result (λ lit. IsOpen watch.now.trail lit) }
    ensures within { IfSome result (λ lit. lit.var ≤ watch.now.vars) }
    ensures full { IfNone result (AreAssigned watch.now.trail watch.now.vars) }
{
    match order.next(watch) {
        Some(lit) => Some(lit),
        None => first_open(watch),
    }
}

/// Decides one more literal, where nothing more follows: an assumption, or an open literal of the busiest variable.
fn step(
    watch: &mut Watch,
    levels: &mut Levels,
    marks: &mut Marks,
    order: &mut Order,
    assumptions: &[Lit],
) -> Result<Choice, AllocError>
    requires vars { watch.old.vars < 2 ^ 63 }
    requires over { IsOver watch.old.vars assumptions.now }
    requires settled { All (IsSettled watch.old.trail) watch.old.clauses }
    requires stands { StandsIn watch.old levels.old }
    requires asks { AsksIn watch.old assumptions.now levels.old }
    ensures kept { watch.new ≡ record watch.old { trail = watch.new.trail; reasons = watch.new.reasons } }
    ensures marks { marks.new ≡ marks.old }
    ensures says { IfOk result (λ done. StepSays assumptions.now watch.old watch.new levels.new done) }
{
    match ask(watch, levels, marks, assumptions)? {
        Asked::Denied => return Ok(Choice::Denied),
        Asked::Decided => return Ok(Choice::Decided),
        Asked::Stand => {}
    }
    match choose(watch, order) {
        None => Ok(Choice::Full),
        Some(lit) => {
            let _known = watch.trail();
            decide(watch, levels, marks, lit)?;
            Ok(Choice::Decided)
        }
    }
}

/// The end of a descent where the clause at this place is false.
fn conflict(levels: &Levels, place: usize) -> Descent
    ensures { IsEnd levels.now.starts.items levels.now.roots place result }
{
    if is_root(levels) {
        Descent::Refuted
    } else {
        Descent::Conflict(place)
    }
}

/// The end of a descent where all variables have values.
fn complete(alloc: Global, watch: &Watch) -> Result<Descent, AllocError>
    requires vars { watch.now.vars < 2 ^ 63 }
    ensures { IfOk result (λ end. IsComplete watch.now.trail watch.now.vars end) }
{
    Ok(Descent::Complete(bits_of(alloc, watch)?))
}

/// Decides literals, with what follows from them, until all variables have values, or a clause is false.
pub fn descend(
    alloc: Global,
    watch: &mut Watch,
    levels: &mut Levels,
    marks: &mut Marks,
    order: &mut Order,
    assumptions: &[Lit],
) -> Result<Descent, AllocError>
    requires vars { watch.old.vars < 2 ^ 63 }
    requires over { IsOver watch.old.vars assumptions.now }
    requires stands { StandsIn watch.old levels.old }
    requires asks { AsksIn watch.old assumptions.now levels.old }
    ensures kept { watch.new ≡ record watch.old { trail = watch.new.trail; reasons = watch.new.reasons } }
    ensures marks { marks.new ≡ marks.old }
    ensures says { IfOk result (λ end. DescentSays assumptions.now watch.new levels.new end) }
{
    'decisions: loop {
        let found = spread(watch, marks);
        let _known = watch.trail();
        match found {
            Some(place) => return Ok(conflict(levels, place)),
            None => {}
        }
        match step(watch, levels, marks, order, assumptions)? {
            Choice::Decided => {}
            Choice::Denied => return Ok(Descent::Refuted),
            Choice::Full => return complete(alloc, watch),
        }
        let _known = watch.trail();
    }
}
