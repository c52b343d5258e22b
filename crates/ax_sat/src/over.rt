//! Tests of what a search asks of variables.

ghost use Rattle.std.specs.Prelude.{◌↔◌, ◌≤◌, All, IsTrue};
ghost use Rattle.ax_proof.specs.Literal.{IsOver};

use ax_proof::{Clause, Lit};

/// Whether the variables of the literals are from 1 to `vars`.
pub fn is_over(vars: u64, lits: &[Lit]) -> bool
    ensures { IsTrue result ↔ IsOver vars lits.now }
{
    for lit in lits {
        if lit.var() > vars {
            return false;
        }
    }
    true
}

/// Whether the variables of the clauses are from 1 to `vars`.
pub fn are_over(vars: u64, clauses: &[Clause]) -> bool
    ensures { IsTrue result ↔ All (IsOver vars) clauses.now }
{
    for clause in clauses {
        if !is_over(vars, clause.lits()) {
            return false;
        }
    }
    true
}
