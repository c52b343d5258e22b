//! The check that each line of a proof follows by unit propagation.

ghost use Rattle.std.specs.Prelude.{◌≡◌, ◌↔◌, ◌++◌, [], All, IfErr, OnOk, IsTrue};
ghost use Rattle.ax_proof.specs.Literal.{IsBelow};
ghost use Rattle.ax_proof.specs.Propagation.{HasRup};
ghost use Rattle.ax_proof.specs.Lines.{IsLawful, EndsEmpty, IsFirstUnlawful};
ghost use Rattle.ax_proof.specs.Denied.{IfFault};

use crate::clause::{Clause, Cnf, Line};
use crate::denied::Denied;
use crate::naming::over_few;
use crate::propagation::{deny, propagate};
use crate::trail::Trail;
use std::alloc::Global;

/// The place, from 0, of the first line without reverse unit propagation from the clauses and the lines before it.
#[derive(Clone, Copy, PartialEq, Eq, Debug)]
pub struct BadLine {
    pub at: usize,
}

/// Whether the line has reverse unit propagation from the clauses and the lines. The trail is empty before and after.
fn has_rup(trail: &mut Trail, clauses: &[Clause], lines: &[Line], line: &Line) -> bool
    requires empty { trail.old.lits ≡ [] }
    requires below { All (IsBelow trail.old.size) (clauses.now ++ lines.now) }
    requires line { IsBelow trail.old.size line.now }
    ensures exact { IsTrue result ↔ HasRup (clauses.now ++ lines.now) line.now }
    ensures empty { trail.new.lits ≡ [] }
    ensures size { trail.new.size ≡ trail.old.size }
{
    deny(trail, line);
    let conflict = propagate(trail, clauses, lines);
    trail.back(0);
    conflict.is_some()
}

/// `check_lines` by a table of the variables below `size`.
fn check_below(
    alloc: Global,
    size: usize,
    clauses: &[Clause],
    lines: &[Line],
) -> Result<(), Denied<BadLine>>
    requires below { All (IsBelow size) clauses.now }
    requires lines { All (IsBelow size) lines.now }
    ensures lawful { OnOk result (IsLawful clauses.now lines.now) }
    ensures fault { IfErr result (λ denied. IfFault denied (λ bad. IsFirstUnlawful clauses.now lines.now bad.at)) }
{
    let mut trail = Trail::new(alloc, size)?;
    for (at, line) in lines.iter().enumerate() {
        if !has_rup(&mut trail, clauses, &lines[..at], line) {
            return Err(Denied::Fault(BadLine { at }));
        }
    }
    Ok(())
}

/// Checks that each line has reverse unit propagation from the clauses and the lines before it. It takes memory in proportion
/// to the number of literals, however great their variables are.
pub fn check_lines(alloc: Global, cnf: &Cnf, lines: &[Line]) -> Result<(), Denied<BadLine>>
    ensures lawful { OnOk result (IsLawful cnf.now.clauses.items lines.now) }
    ensures fault { IfErr result (λ denied. IfFault denied (λ bad. IsFirstUnlawful cnf.now.clauses.items lines.now bad.at)) }
{
    let few = over_few(alloc, cnf.clauses.as_slice(), lines)?;
    check_below(
        alloc,
        few.size,
        few.clauses.as_slice(),
        few.lines.as_slice(),
    )
}

/// Whether the last line, and no other, is empty.
pub fn ends_empty(lines: &[Line]) -> bool
    ensures { IsTrue result ↔ EndsEmpty lines.now }
{
    let Some((last, before)) = lines.split_last() else {
        return false;
    };
    last.is_empty() && before.iter().all(|line| !line.is_empty())
}
