//! What is put behind the clauses of a list.

ghost use Rattle.std.specs.Prelude.{◌≡◌, ◌<◌, ◌+◌, ◌^◌, ◌++◌, OnOk, OnErr};
ghost use Rattle.ax_proof.specs.Runs.{Begins};
ghost use Rattle.ax_gates.specs.Gates.{as_clause, as_clauses, next};

use ax_proof::{Clause, Cnf, Lit};
use std::alloc::{AllocError, Global};

/// Puts the clause of these literals behind the others, or none where a literal and its negation both stand.
#[tactic(auto, unfolding(crate::specs::Gates::as_clause))]
pub fn push_clause(alloc: Global, clauses: &mut Vec<Clause>, lits: &[Lit]) -> Result<(), AllocError>
    ensures appends { OnOk result (clauses.new.items ≡ clauses.old.items ++ as_clause lits.now) }
    ensures unchanged { OnErr result (clauses.new.items ≡ clauses.old.items) }
    ensures begins { Begins clauses.old.items clauses.new.items }
{
    if let Some(clause) = Clause::from_lits(alloc, lits)? {
        clauses.push(clause)?;
    }
    Ok(())
}

/// Puts the clauses of these rows behind the others.
pub fn push_clauses<const K: usize>(
    alloc: Global,
    clauses: &mut Vec<Clause>,
    rows: &[[Lit; K]],
) -> Result<(), AllocError>
    ensures appends { OnOk result (clauses.new.items ≡ clauses.old.items ++ as_clauses rows.now) }
    ensures begins { Begins clauses.old.items clauses.new.items }
{
    for row in rows {
        push_clause(alloc, clauses, row)?;
    }
    Ok(())
}

/// A new variable's literal.
pub fn new_variable(cnf: &mut Cnf) -> Lit
    requires { cnf.old.vars < 2 ^ 62 }
    ensures lit { result ≡ next cnf.old.vars }
    ensures vars { cnf.new.vars ≡ cnf.old.vars + 1 }
    ensures clauses { cnf.new.clauses ≡ cnf.old.clauses }
{
    cnf.vars += 1;
    Lit::new(cnf.vars, true)
}
