//! A search that learns line after line.

ghost use Rattle.std.specs.Prelude.{◌≡◌, ◌≢◌, ◌++◌, ◌∷◌, ◌+◌, ◌<◌, ◌≤◌, ◌^◌, ◌↔◌, [], All, IfOk, OnOk, OnErr, IsTrue, length};
ghost use Rattle.ax_proof.specs.Literal.{IsOver};
ghost use Rattle.ax_proof.specs.Propagation.{HasRup};
ghost use Rattle.ax_proof.specs.Lines.{IsLawful};
ghost use Rattle.ax_sat_policy.specs.Core.{IsCore};
ghost use Rattle.ax_sat.specs.Answer.{AnswerSays, LogGoesOn, units};
ghost use Rattle.ax_sat.specs.Levels.{StandsIn, AsksIn};

use crate::answer::{Answer, Log};
use crate::counts::Counts;
use crate::descent::{Descent, begin, descend};
use crate::lesson::teach;
use crate::levels::{Levels, back, is_root};
use crate::marks::Marks;
use ax_proof::{Clause, Lit};
use ax_sat_policy::{Due, Order, Pace, put, renew};
use ax_watch::Watch;
use std::alloc::{AllocError, Global};

/// Puts the clauses behind those that are watched.
fn load(watch: &mut Watch, clauses: &[Clause]) -> Result<(), AllocError>
    requires { All (IsOver watch.old.vars) clauses.now }
    ensures clauses { OnOk result (watch.new.clauses ≡ watch.old.clauses ++ clauses.now) }
    ensures vars { watch.new.vars ≡ watch.old.vars }
    ensures trail { watch.new.trail ≡ watch.old.trail }
{
    for clause in clauses {
        put(watch, clause)?;
    }
    Ok(())
}

/// Whether unit propagation from the assumptions makes a clause false.
fn is_refuted(alloc: Global, watch: &mut Watch, assumptions: &[Lit]) -> Result<bool, AllocError>
    requires assumed { IsOver watch.old.vars assumptions.now }
    ensures { IfOk result (λ refuted. IsTrue refuted ↔ HasRup (watch.old.clauses ++ units assumptions.now) []) }
{
    let mut denied = Vec::new(alloc);
    let open = begin(watch, assumptions, &mut denied)?;
    Ok(!open)
}

/// Takes back all decisions but the assumptions, where it is time to.
fn restart(
    watch: &mut Watch,
    levels: &mut Levels,
    order: &mut Order,
    pace: &mut Pace,
    assumptions: &[Lit],
) -> Result<(), AllocError>
    requires stands { StandsIn watch.old levels.old }
    requires asks { AsksIn watch.old assumptions.now levels.old }
    ensures clauses { watch.new.clauses ≡ watch.old.clauses }
    ensures vars { watch.new.vars ≡ watch.old.vars }
    ensures stands { OnOk result (StandsIn watch.new levels.new) }
    ensures asks { OnOk result (AsksIn watch.new assumptions.now levels.new) }
{
    if !pace.is_over() {
        return Ok(());
    }
    if is_root(levels) {
        return Ok(());
    }
    let roots = levels.roots;
    let _known = watch.trail();
    back(watch, levels, order, roots)?;
    Ok(())
}

/// Lets the variables of all true literals wait for a decision again.
fn release_all(watch: &Watch, order: &mut Order) -> Result<(), AllocError> {
    for lit in watch.trail() {
        order.release(*lit)?;
    }
    Ok(())
}

/// Goes on with a core of what is watched, and with nothing true, where it is time to.
fn begin_anew(
    alloc: Global,
    watch: &mut Watch,
    levels: &mut Levels,
    order: &mut Order,
    due: &mut Due,
    assumptions: &[Lit],
) -> Result<(), AllocError>
    requires stands { StandsIn watch.old levels.old }
    requires asks { AsksIn watch.old assumptions.now levels.old }
    ensures core { OnOk result (IsCore watch.new.clauses watch.old.clauses) }
    ensures vars { watch.new.vars ≡ watch.old.vars }
    ensures stands { OnOk result (StandsIn watch.new levels.new) }
    ensures asks { OnOk result (AsksIn watch.new assumptions.now levels.new) }
{
    if !due.is_over() {
        return Ok(());
    }
    release_all(watch, order)?;
    renew(alloc, watch)?;
    levels.clear();
    Ok(())
}

/// When to take decisions back, and when to begin the watch anew.
#[derive(Clone, Copy)]
struct Times {
    pace: Pace,
    due: Due,
}

/// Before each line: takes decisions back, and begins the watch anew, where it is time to.
fn prepare(
    alloc: Global,
    watch: &mut Watch,
    levels: &mut Levels,
    order: &mut Order,
    times: &mut Times,
    assumptions: &[Lit],
) -> Result<(), AllocError>
    requires stands { StandsIn watch.old levels.old }
    requires asks { AsksIn watch.old assumptions.now levels.old }
    ensures core { OnOk result (IsCore watch.new.clauses watch.old.clauses) }
    ensures vars { watch.new.vars ≡ watch.old.vars }
    ensures stands { OnOk result (StandsIn watch.new levels.new) }
    ensures asks { OnOk result (AsksIn watch.new assumptions.now levels.new) }
{
    restart(watch, levels, order, &mut times.pace, assumptions)?;
    begin_anew(alloc, watch, levels, order, &mut times.due, assumptions)?;
    Ok(())
}

/// Learns line after line, until there is an answer or the budget is spent. It owns little, since each way out drops what is
/// owned.
fn learn_lines(
    alloc: Global,
    watch: &mut Watch,
    marks: &mut Marks,
    order: &mut Order,
    clauses: &[Clause],
    assumptions: &[Lit],
    log: &mut Log,
    budget: u32,
) -> Result<Answer, AllocError>
    requires none { watch.old.clauses ≡ [] }
    requires bare { watch.old.trail ≡ [] }
    requires size { length marks.old.on ≡ watch.old.vars + 1 }
    requires vars { watch.old.vars < 2 ^ 63 }
    requires over { All (IsOver watch.old.vars) clauses.now }
    requires assumptions { IsOver watch.old.vars assumptions.now }
    requires lines { All (IsOver watch.old.vars) log.old.lines.items }
    requires not_empty { All (λ line. line ≢ []) log.old.lines.items }
    requires lawful { IsLawful (clauses.now ++ units assumptions.now) log.old.lines.items }
    ensures log { LogGoesOn clauses.now assumptions.now watch.old.vars log.old.lines.items log.new.lines.items }
    ensures answer { IfOk result (λ answer. AnswerSays (clauses.now ++ units assumptions.now) watch.old.vars log.old.lines.items log.new.lines.items budget answer) }
{
    load(watch, clauses)?;
    load(watch, log.lines.as_slice())?;
    let mut levels = Levels::new(alloc);
    let mut times = Times {
        pace: Pace::new(),
        due: Due::new(),
    };
    for _ in 0..budget {
        prepare(alloc, watch, &mut levels, order, &mut times, assumptions)?;
        match descend(alloc, watch, &mut levels, marks, order, assumptions)? {
            Descent::Refuted => return refuted(alloc, log),
            Descent::Complete(assignment) => return Ok(Answer::Model(assignment)),
            Descent::Conflict(place) => {
                teach(alloc, watch, &mut levels, marks, order, log, place)?;
            }
        }
    }
    if is_refuted(alloc, watch, assumptions)? {
        return refuted(alloc, log);
    }
    Ok(Answer::Budget)
}

/// Searches for a model of the clauses in which the assumptions hold, and counts what it does.
pub fn search(
    alloc: Global,
    vars: u64,
    clauses: &[Clause],
    assumptions: &[Lit],
    log: &mut Log,
    budget: u32,
    counts: &mut Counts,
) -> Result<Answer, AllocError>
    requires vars { vars < 2 ^ 63 }
    requires over { All (IsOver vars) clauses.now }
    requires assumptions { IsOver vars assumptions.now }
    requires lines { All (IsOver vars) log.old.lines.items }
    requires not_empty { All (λ line. line ≢ []) log.old.lines.items }
    requires lawful { IsLawful (clauses.now ++ units assumptions.now) log.old.lines.items }
    ensures log { LogGoesOn clauses.now assumptions.now vars log.old.lines.items log.new.lines.items }
    ensures answer { IfOk result (λ answer. AnswerSays (clauses.now ++ units assumptions.now) vars log.old.lines.items log.new.lines.items budget answer) }
{
    let mut watch = Watch::new(alloc, vars)?;
    let mut marks = Marks::new(alloc, vars)?;
    let mut order = Order::new(alloc, vars)?;
    let answer = learn_lines(
        alloc,
        &mut watch,
        &mut marks,
        &mut order,
        clauses,
        assumptions,
        log,
        budget,
    );
    *counts = marks.counts();
    answer
}

/// Ends the log with the empty line.
fn refuted(alloc: Global, log: &mut Log) -> Result<Answer, AllocError>
    ensures answer { IfOk result (λ answer. answer ≡ Answer.Refuted) }
    ensures logged { OnOk result (log.new.lines.items ≡ log.old.lines.items ++ [] ∷ []) }
    ensures refused { OnErr result (log.new.lines.items ≡ log.old.lines.items) }
{
    log.lines.push(Clause::empty(alloc))?;
    Ok(Answer::Refuted)
}
