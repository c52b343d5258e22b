//! The clauses that each line of a proof uses.

ghost use Rattle.std.specs.Prelude.{◌≡◌, ◌++◌, ◌<◌, ◌≤◌, [], All, IfOk, IfErr, Some, length, take};
ghost use Rattle.ax_proof.specs.Literal.{IsBelow};
ghost use Rattle.ax_proof.specs.Lines.{IsFirstUnlawful};
ghost use Rattle.ax_proof.specs.Uses.{Refutes, AreRight, FindsUses, lists};
ghost use Rattle.ax_proof.specs.Runs.{AreForced, PropagationSays};
ghost use Rattle.ax_proof.specs.Marks.{Marks};
ghost use Rattle.ax_proof.specs.Denied.{IfFault};

use crate::clause::{Clause, Cnf, Line};
use crate::denied::Denied;
use crate::lines::BadLine;
use crate::naming::over_few;
use crate::propagation::{clause_numbered, deny, propagate};
use crate::trail::Trail;
use std::alloc::{AllocError, Global};

/// Marks the clause's variables.
fn mark(marks: &mut [bool], clause: &Clause)
    requires { IsBelow (length marks.old) clause.now }
    ensures { Marks clause.now marks.old marks.new }
{
    for lit in clause.lits() {
        marks[lit.var() as usize] = true;
    }
}

/// The clauses that were needed to make the clause of this number false, in the order in which they forced a literal of
/// the trail behind its first `from`, and then that clause. `marks` are all false before.
fn explain(
    alloc: Global,
    trail: &Trail,
    from: usize,
    clauses: &[Clause],
    lines: &[Line],
    number: usize,
    marks: &mut [bool],
) -> Result<Vec<u64>, AllocError>
    requires from { from ≤ length trail.now.lits }
    requires forced { AreForced (clauses.now ++ lines.now) from trail.now.lits trail.now.reasons }
    requires conflict { PropagationSays (clauses.now ++ lines.now) trail.now.lits (Some number) }
    requires below { All (IsBelow (length marks.old)) (clauses.now ++ lines.now) }
    requires marks { trail.now.size ≤ length marks.old }
    ensures { IfOk result (λ uses. Refutes (clauses.now ++ lines.now) (take from trail.now.lits) uses.items) }
{
    let mut uses = Vec::new(alloc);
    uses.push(number as u64)?;
    mark(marks, clause_numbered(clauses, lines, number));
    let lits = trail.lits();
    let reasons = trail.reasons();
    for place in (from..lits.len()).rev() {
        if marks[lits[place].var() as usize] {
            let reason = reasons[place];
            uses.push(reason as u64)?;
            mark(marks, clause_numbered(clauses, lines, reason));
        }
    }
    uses.reverse();
    Ok(uses)
}

/// Uses with which the line is right, or none where it has no reverse unit propagation. The trail is empty before, and
/// after an answer.
fn uses_of(
    alloc: Global,
    trail: &mut Trail,
    marks: &mut [bool],
    clauses: &[Clause],
    lines: &[Line],
    line: &Line,
) -> Result<Option<Vec<u64>>, AllocError>
    requires empty { trail.old.lits ≡ [] }
    requires below { All (IsBelow trail.old.size) (clauses.now ++ lines.now) }
    requires line { IsBelow trail.old.size line.now }
    requires marks { length marks.old ≡ trail.old.size }
    ensures found { IfOk result (λ found. FindsUses (clauses.now ++ lines.now) line.now found) }
    ensures empty { IfOk result (λ found. trail.new.lits ≡ []) }
    ensures size { trail.new.size ≡ trail.old.size }
{
    deny(trail, line);
    let from = trail.lits().len();
    let Some(number) = propagate(trail, clauses, lines) else {
        trail.back(0);
        return Ok(None);
    };
    marks.fill(false);
    let uses = explain(alloc, trail, from, clauses, lines, number, marks)?;
    trail.back(0);
    Ok(Some(uses))
}

/// `find_uses` by a table of the variables below `size`.
fn uses_below(
    alloc: Global,
    size: usize,
    clauses: &[Clause],
    lines: &[Line],
) -> Result<Vec<Vec<u64>>, Denied<BadLine>>
    requires below { All (IsBelow size) clauses.now }
    requires lines { All (IsBelow size) lines.now }
    ensures count { IfOk result (λ uses. length uses.items ≡ length lines.now) }
    ensures right { IfOk result (λ uses. AreRight clauses.now lines.now (lists uses.items)) }
    ensures fault { IfErr result (λ denied. IfFault denied (λ bad. IsFirstUnlawful clauses.now lines.now bad.at)) }
{
    let mut trail = Trail::new(alloc, size)?;
    let mut table = vec![in alloc; false; size]?;
    let marks = table.as_mut_slice();
    let mut all = Vec::with_capacity(alloc, lines.len())?;
    for (at, line) in lines.iter().enumerate() {
        match uses_of(alloc, &mut trail, marks, clauses, &lines[..at], line)? {
            Some(uses) => all.push(uses)?,
            None => return Err(Denied::Fault(BadLine { at })),
        }
    }
    Ok(all)
}

/// For each line, clauses that it uses, in order, as numbers from 1, where the lines go on from the clauses. It takes memory
/// in proportion to the number of literals and of uses, however great the variables are.
pub fn find_uses(alloc: Global, cnf: &Cnf, lines: &[Line]) -> Result<Vec<Vec<u64>>, Denied<BadLine>>
    ensures count { IfOk result (λ uses. length uses.items ≡ length lines.now) }
    ensures right { IfOk result (λ uses. AreRight cnf.now.clauses.items lines.now (lists uses.items)) }
    ensures fault { IfErr result (λ denied. IfFault denied (λ bad. IsFirstUnlawful cnf.now.clauses.items lines.now bad.at)) }
{
    let few = over_few(alloc, cnf.clauses.as_slice(), lines)?;
    uses_below(
        alloc,
        few.size,
        few.clauses.as_slice(),
        few.lines.as_slice(),
    )
}
