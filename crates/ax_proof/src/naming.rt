//! Clauses whose variables are numbered anew, so that tables by variable are no longer than the clauses.

ghost use Rattle.std.specs.Prelude.{◌≡◌, ◌↔◌, ◌++◌, ◌∷◌, ◌<◌, ◌≤◌, ◌^◌, ℕ, All, Contains, IfOk, OnOk, length};
ghost use Rattle.std.specs.List.Sorted.{IsStrictlyIncreasing};
ghost use Rattle.ax_proof.specs.Literal.{IsBelow};
ghost use Rattle.ax_proof.specs.Naming.{renamed, all_renamed, vars_of, all_vars, name_at, AreNamed, StandFor};

use crate::clause::{Clause, Line};
use crate::literal::Lit;
use smallvec::SmallVec;
use std::alloc::{AllocError, Global};

/// Clauses and lines whose variables are below `size`.
#[derive(Drop)]
pub struct Few {
    pub size: usize,
    pub clauses: Vec<Clause>,
    pub lines: Vec<Line>,
}

/// Appends the clause's variables.
fn push_vars(vars: &mut Vec<u64>, clause: &Clause) -> Result<(), AllocError>
    ensures { OnOk result (vars.new.items ≡ vars.old.items ++ vars_of clause.now) }
{
    for lit in clause.lits() {
        vars.push(lit.var())?;
    }
    Ok(())
}

/// Appends the variables of the clauses.
fn push_all_vars(vars: &mut Vec<u64>, clauses: &[Clause]) -> Result<(), AllocError>
    ensures { OnOk result (vars.new.items ≡ vars.old.items ++ all_vars clauses.now) }
{
    for clause in clauses {
        push_vars(vars, clause)?;
    }
    Ok(())
}

/// The number 0 and the variables of clauses and lines, each once, in rising order.
fn names_of(alloc: Global, clauses: &[Clause], lines: &[Line]) -> Result<Vec<u64>, AllocError>
    ensures rising { IfOk result (λ names. IsStrictlyIncreasing names.items) }
    ensures exact { IfOk result (λ names. (x : ℕ) → Contains names.items x ↔ Contains (0 ∷ all_vars (clauses.now ++ lines.now)) x) }
{
    let mut names = vec![in alloc; 0]?;
    push_all_vars(&mut names, clauses)?;
    push_all_vars(&mut names, lines)?;
    names.sort_unstable();
    names.dedup();
    Ok(names)
}

/// The place of a variable in the table.
fn place(names: &[u64], var: u64) -> u64
    requires rising { IsStrictlyIncreasing names.now }
    requires zero { Contains names.now 0 }
    requires named { Contains names.now var }
    requires low { 1 ≤ var }
    ensures name { name_at names.now result ≡ var }
    ensures within { result < length names.now }
    ensures low { 1 ≤ result }
    ensures high { result < 2 ^ 63 }
{
    match names.binary_search(&var) {
        Ok(at) => at as u64,
        Err(at) => at as u64,
    }
}

/// The clause with each variable's place in place of the variable.
fn placed(alloc: Global, names: &[u64], clause: &Clause) -> Result<Clause, AllocError>
    requires rising { IsStrictlyIncreasing names.now }
    requires zero { Contains names.now 0 }
    requires named { AreNamed names.now clause.now }
    ensures same { IfOk result (λ c. clause.now ≡ renamed (name_at names.now) c) }
    ensures below { IfOk result (λ c. IsBelow (length names.now) c) }
{
    let mut lits: SmallVec<Lit, 4> = SmallVec::new(alloc);
    for lit in clause.lits() {
        lits.push(Lit::new(place(names, lit.var()), lit.positive()))?;
    }
    Ok(Clause::from_rising(lits))
}

/// The same of each clause.
fn all_placed(alloc: Global, names: &[u64], clauses: &[Clause]) -> Result<Vec<Clause>, AllocError>
    requires rising { IsStrictlyIncreasing names.now }
    requires zero { Contains names.now 0 }
    requires named { All (AreNamed names.now) clauses.now }
    ensures same { IfOk result (λ all. clauses.now ≡ all_renamed (name_at names.now) all.items) }
    ensures below { IfOk result (λ all. All (IsBelow (length names.now)) all.items) }
{
    let mut all = Vec::with_capacity(alloc, clauses.len())?;
    for clause in clauses {
        all.push(placed(alloc, names, clause)?)?;
    }
    Ok(all)
}

/// Clauses and lines over no more variables than occur, which stand for these. It takes memory in proportion to the number
/// of literals.
pub fn over_few(alloc: Global, clauses: &[Clause], lines: &[Line]) -> Result<Few, AllocError>
    ensures { IfOk result (λ few. StandFor clauses.now lines.now few.size few.clauses.items few.lines.items) }
{
    let names = names_of(alloc, clauses, lines)?;
    Ok(Few {
        size: names.len(),
        clauses: all_placed(alloc, names.as_slice(), clauses)?,
        lines: all_placed(alloc, names.as_slice(), lines)?,
    })
}
