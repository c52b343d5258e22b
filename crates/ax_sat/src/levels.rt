//! The decisions of a search.

ghost use Rattle.std.specs.Prelude.{◌≡◌, false, ◌++◌, ◌∷◌, ◌+◌, ◌-◌, ◌<◌, ◌≤◌, [], All, IfOk, IfSome, OnOk, IsTrue, length, slice_index_or, ℕ};
ghost use Rattle.ax_proof.specs.Literal.{IsOver};
ghost use Rattle.ax_proof.specs.Trail.{IsOpen, IsSettled};
ghost use Rattle.ax_watch.specs.Watch.{WatchState, assuming, cut};
ghost use Rattle.ax_sat.specs.Levels.{StandsIn, AsksIn, AskSays, GoesBack, IsDenied};

use crate::analysis::place_of;
use crate::marks::Marks;
use ax_proof::trail::Truth;
use ax_proof::{Line, Lit};
use ax_sat_policy::Order;
use ax_watch::Watch;
use std::alloc::{AllocError, Global};

/// Decisions, in order.
#[derive(Drop)]
pub struct Levels {
    /// Where each decision stands on the trail.
    pub starts: Vec<usize>,
    /// How many of them, from the first on, are assumptions.
    pub roots: usize,
    /// How many assumptions, from the first on, are true.
    pub asked: usize,
}

impl Levels {
    /// No decisions.
    pub fn new(alloc: Global) -> Levels
        ensures starts { result.starts.items ≡ [] }
        ensures roots { result.roots ≡ 0 }
        ensures asked { result.asked ≡ 0 }
    {
        Levels {
            starts: Vec::new(alloc),
            roots: 0,
            asked: 0,
        }
    }

    /// Takes all decisions away.
    pub fn clear(&mut self)
        ensures starts { self.new.starts.items ≡ [] }
        ensures roots { self.new.roots ≡ 0 }
        ensures asked { self.new.asked ≡ 0 }
    {
        self.starts.clear();
        self.roots = 0;
        self.asked = 0;
    }
}

/// Whether all decisions are assumptions.
pub fn is_root(levels: &Levels) -> bool
    ensures all { IsTrue result → length levels.now.starts.items ≤ levels.now.roots }
    ensures some { result ≡ false → levels.now.roots < length levels.now.starts.items }
{
    levels.starts.len() <= levels.roots
}

/// Where the last of the decisions at these places stands.
pub fn last(starts: &[usize]) -> usize
    requires { 0 < length starts.now }
    ensures { result ≡ slice_index_or starts.now (length starts.now - 1) 0 }
{
    starts[starts.len() - 1]
}

/// What became of the assumptions.
#[derive(Clone, Copy, PartialEq, Eq, Debug)]
pub enum Asked {
    /// All are true.
    Stand,
    /// One more was made true.
    Decided,
    /// One is false.
    Denied,
}

/// Makes an open literal true, as a decision.
pub fn decide(
    watch: &mut Watch,
    levels: &mut Levels,
    marks: &mut Marks,
    lit: Lit,
) -> Result<(), AllocError>
    requires open { IsOpen watch.old.trail lit }
    requires within { lit.var ≤ watch.old.vars }
    ensures watch { OnOk result (watch.new ≡ assuming watch.old lit) }
    ensures starts { OnOk result (levels.new.starts.items ≡ levels.old.starts.items ++ length watch.old.trail ∷ []) }
    ensures roots { levels.new.roots ≡ levels.old.roots }
    ensures asked { levels.new.asked ≡ levels.old.asked }
    ensures marks { marks.new ≡ marks.old }
    ensures kept { watch.new ≡ record watch.old { trail = watch.new.trail; reasons = watch.new.reasons } }
{
    let start = watch.trail().len();
    levels.starts.push(start)?;
    watch.assume(lit);
    marks.put_decided(lit.var() as usize, start);
    Ok(())
}

/// Decides the next assumption that is open.
pub fn ask(
    watch: &mut Watch,
    levels: &mut Levels,
    marks: &mut Marks,
    assumptions: &[Lit],
) -> Result<Asked, AllocError>
    requires over { IsOver watch.old.vars assumptions.now }
    requires settled { All (IsSettled watch.old.trail) watch.old.clauses }
    requires stands { StandsIn watch.old levels.old }
    requires asks { AsksIn watch.old assumptions.now levels.old }
    ensures kept { watch.new ≡ record watch.old { trail = watch.new.trail; reasons = watch.new.reasons } }
    ensures marks { marks.new ≡ marks.old }
    ensures says { IfOk result (λ asked. AskSays assumptions.now watch.old watch.new levels.new asked) }
{
    for index in levels.asked..assumptions.len() {
        let lit = assumptions[index];
        let _known = watch.trail();
        match watch.truth(lit) {
            Truth::True => levels.asked = index + 1,
            Truth::False => return Ok(Asked::Denied),
            Truth::Open => {
                decide(watch, levels, marks, lit)?;
                levels.roots = levels.starts.as_slice().len();
                return Ok(Asked::Decided);
            }
        }
    }
    Ok(Asked::Stand)
}

/// The last place below `start` of the trail whose literal the line denies.
fn last_denied(watch: &Watch, marks: &Marks, line: &Line, start: usize) -> Option<usize>
    ensures { IfSome result (λ place. IsDenied watch.now.trail line.now start place) }
{
    let trail = watch.trail();
    let mut last: Option<usize> = None;
    for lit in line.lits() {
        match place_of(watch, marks, lit.var() as usize) {
            None => {}
            Some(at) => {
                if at < start && trail[at] == lit.negate() && last.is_none_or(|place| place < at) {
                    last = Some(at);
                }
            }
        }
    }
    last
}

/// How many decisions stand up to this place, without the last one.
fn levels_to(starts: &[usize], place: usize) -> usize
    requires { 0 < length starts.now }
    ensures low { result < length starts.now }
    ensures reached { 0 < result → slice_index_or starts.now (result - 1) 0 ≤ place }
{
    for kept in (1..starts.len()).rev() {
        if starts[kept - 1] <= place {
            return kept;
        }
    }
    0
}

/// How many decisions to keep for a line: those after which not all of its literals but one are false, and one more.
pub fn jump(watch: &Watch, marks: &Marks, starts: &[usize], line: &Line, start: usize) -> usize
    requires { 0 < length starts.now }
    ensures low { result < length starts.now }
    ensures denied { 0 < result → (place : ℕ) × IsDenied watch.now.trail line.now start place × (slice_index_or starts.now (result - 1) 0 ≤ place) }
{
    match last_denied(watch, marks, line, start) {
        None => 0,
        Some(place) => levels_to(starts, place),
    }
}

/// Takes back all decisions but the first `kept`, with what they forced.
pub fn back(
    watch: &mut Watch,
    levels: &mut Levels,
    order: &mut Order,
    kept: usize,
) -> Result<(), AllocError>
    requires low { kept < length levels.old.starts.items }
    requires stands { StandsIn watch.old levels.old }
    ensures watch { OnOk result (watch.new ≡ cut watch.old (slice_index_or levels.old.starts.items kept 0)) }
    ensures clauses { watch.new.clauses ≡ watch.old.clauses }
    ensures vars { watch.new.vars ≡ watch.old.vars }
    ensures levels { OnOk result (GoesBack kept levels.old levels.new) }
{
    let start = levels.starts[kept];
    let trail = watch.trail();
    for index in start..trail.len() {
        order.release(trail[index])?;
    }
    watch.back(start);
    levels.starts.truncate(kept);
    if kept < levels.roots {
        levels.roots = kept;
        levels.asked = 0;
    }
    Ok(())
}
