//! At most so many of some literals are true.

ghost use Rattle.std.specs.Prelude.{◌≡◌, ◌↔◌, ◌≤◌, ◌<◌, ◌+◌, ◌*◌, ◌^◌, ℕ, Bool, true, false, List, [], ◌∷◌, ◌++◌, OnOk, length};
ghost use Rattle.ax_proof.specs.Literal.{literal, IsOver};
ghost use Rattle.ax_proof.specs.Assignment.{satisfies};
ghost use Rattle.ax_proof.specs.Runs.{Begins};
ghost use Rattle.ax_gates.specs.Gates.{as_clause, as_clauses};
ghost use Rattle.ax_gates.specs.Words.{fresh};
ghost use Rattle.ax_gates_counter.specs.Counter.{count_true, columns, later_column, later_columns, counter, counter_vars, IsExtended};

use crate::columns::{push_first_column, push_later_column};
use ax_gates::push_clause;
use ax_proof::{Clause, Cnf, Lit};
use std::alloc::{AllocError, Global};

/// So many more columns behind the column `first`.
fn push_later_columns(
    alloc: Global,
    cnf: &mut Cnf,
    inputs: &[Lit],
    first: Vec<Lit>,
    more: u64,
) -> Result<(), AllocError>
    requires some { 0 < length inputs.now }
    requires width { length first.items ≡ length inputs.now }
    requires room { cnf.old.vars + length inputs.now * more ≤ 2 ^ 62 }
    ensures appends { OnOk result (cnf.new.clauses.items ≡ cnf.old.clauses.items ++ as_clauses (later_columns cnf.old.vars inputs.now more first.items)) }
    ensures vars { OnOk result (cnf.new.vars ≡ cnf.old.vars + length inputs.now * more) }
    ensures begins { Begins cnf.old.clauses.items cnf.new.clauses.items }
{
    let mut column = first;
    for _ in 0..more {
        column = push_later_column(alloc, cnf, inputs, &column)?;
    }
    Ok(())
}

/// The columns up to the one after `bound`.
fn push_columns(alloc: Global, cnf: &mut Cnf, inputs: &[Lit], bound: u64) -> Result<(), AllocError>
    requires some { 0 < length inputs.now }
    requires room { cnf.old.vars + length inputs.now * (bound + 1) ≤ 2 ^ 62 }
    ensures appends { OnOk result (cnf.new.clauses.items ≡ cnf.old.clauses.items ++ as_clauses (columns cnf.old.vars inputs.now bound)) }
    ensures vars { OnOk result (cnf.new.vars ≡ cnf.old.vars + length inputs.now * (bound + 1)) }
    ensures begins { Begins cnf.old.clauses.items cnf.new.clauses.items }
{
    let column = push_first_column(alloc, cnf, inputs)?;
    push_later_columns(alloc, cnf, inputs, column, bound)?;
    Ok(())
}

/// The clause that says that a variable is false.
fn push_false(alloc: Global, clauses: &mut Vec<Clause>, var: u64) -> Result<(), AllocError>
    requires low { 1 ≤ var }
    requires high { var < 2 ^ 63 }
    ensures appends { OnOk result (clauses.new.items ≡ clauses.old.items ++ as_clause (literal var false ∷ [])) }
    ensures begins { Begins clauses.old.items clauses.new.items }
{
    push_clause(alloc, clauses, &[Lit::new(var, false)])
}

/// The counter, where there are more inputs than `bound`. The last variable of the last column says that more are true.
fn push_bounded(alloc: Global, cnf: &mut Cnf, inputs: &[Lit], bound: u64) -> Result<(), AllocError>
    requires below { bound < length inputs.now }
    requires room { cnf.old.vars + length inputs.now * (bound + 1) ≤ 2 ^ 62 }
    ensures appends { OnOk result (cnf.new.clauses.items ≡ cnf.old.clauses.items ++ as_clauses (counter cnf.old.vars inputs.now bound)) }
    ensures vars { OnOk result (cnf.new.vars ≡ cnf.old.vars + length inputs.now * (bound + 1)) }
    ensures begins { Begins cnf.old.clauses.items cnf.new.clauses.items }
{
    push_columns(alloc, cnf, inputs, bound)?;
    push_false(alloc, &mut cnf.clauses, cnf.vars)?;
    Ok(())
}

fn push_counter(alloc: Global, cnf: &mut Cnf, inputs: &[Lit], bound: u64) -> Result<(), AllocError>
    requires room { cnf.old.vars + counter_vars (length inputs.now) bound ≤ 2 ^ 62 }
    ensures appends { OnOk result (cnf.new.clauses.items ≡ cnf.old.clauses.items ++ as_clauses (counter cnf.old.vars inputs.now bound)) }
    ensures vars { OnOk result (cnf.new.vars ≡ cnf.old.vars + counter_vars (length inputs.now) bound) }
    ensures begins { Begins cnf.old.clauses.items cnf.new.clauses.items }
{
    if bound >= inputs.len() as u64 {
        return Ok(());
    }
    push_bounded(alloc, cnf, inputs, bound)
}

/// At most `bound` of the inputs are true. Where there are no more inputs than that, nothing is appended.
#[tactic(auto, using(crate::proofs::Laws::counter_law, crate::proofs::Laws::counter_exact, crate::proofs::Laws::counter_grows))]
pub fn at_most(alloc: Global, cnf: &mut Cnf, inputs: &[Lit], bound: u64) -> Result<(), AllocError>
    requires room { cnf.old.vars + counter_vars (length inputs.now) bound ≤ 2 ^ 62 }
    ensures appends { OnOk result (cnf.new.clauses.items ≡ cnf.old.clauses.items ++ as_clauses (counter cnf.old.vars inputs.now bound)) }
    ensures vars { OnOk result (cnf.new.vars ≡ cnf.old.vars + counter_vars (length inputs.now) bound) }
    ensures begins { Begins cnf.old.clauses.items cnf.new.clauses.items }
    ensures means { (v : ℕ → Bool) → satisfies v (as_clauses (counter cnf.old.vars inputs.now bound)) ≡ true → count_true v inputs.now ≤ bound }
    ensures exact { IsOver cnf.old.vars inputs.now → (v : ℕ → Bool) → IsExtended cnf.old.vars v (as_clauses (counter cnf.old.vars inputs.now bound)) ↔ (count_true v inputs.now ≤ bound) }
    ensures grows { (smaller : ℕ) → smaller ≤ bound → Begins (as_clauses (columns cnf.old.vars inputs.now smaller)) (as_clauses (columns cnf.old.vars inputs.now bound)) }
    ensures next_column { columns cnf.old.vars inputs.now (bound + 1) ≡ columns cnf.old.vars inputs.now bound ++ later_column inputs.now (fresh (cnf.old.vars + length inputs.now * bound) inputs.now) (fresh (cnf.old.vars + length inputs.now * (bound + 1)) inputs.now) }
{
    push_counter(alloc, cnf, inputs, bound)
}
