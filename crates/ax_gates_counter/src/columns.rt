//! The columns of a counter. Each has a variable for each input.

ghost use Rattle.std.specs.Prelude.{◌≡◌, ◌≤◌, ◌<◌, ◌+◌, ◌^◌, ◌++◌, OnOk, IfOk, length};
ghost use Rattle.ax_proof.specs.Runs.{Begins};
ghost use Rattle.ax_gates.specs.Gates.{as_clauses};
ghost use Rattle.ax_gates.specs.Words.{fresh};
ghost use Rattle.ax_gates_counter.specs.Counter.{first_steps, first_column, later_step, later_steps, later_column};

use ax_gates::{new_variable, push_clause, push_clauses};
use ax_proof::{Clause, Cnf, Lit};
use std::alloc::{AllocError, Global};

/// A new variable for each input.
fn new_column(alloc: Global, cnf: &mut Cnf, inputs: &[Lit]) -> Result<Vec<Lit>, AllocError>
    requires room { cnf.old.vars + length inputs.now ≤ 2 ^ 62 }
    ensures outs { IfOk result (λ r. r.items ≡ fresh cnf.old.vars inputs.now) }
    ensures width { IfOk result (λ r. length r.items ≡ length inputs.now) }
    ensures vars { IfOk result (λ r. cnf.new.vars ≡ cnf.old.vars + length inputs.now) }
    ensures clauses { cnf.new.clauses ≡ cnf.old.clauses }
{
    let mut column = Vec::with_capacity(alloc, inputs.len())?;
    for _input in inputs {
        column.push(new_variable(cnf))?;
    }
    Ok(column)
}

/// The first column from its second place on, behind the place of `before`.
fn push_first_steps(
    alloc: Global,
    clauses: &mut Vec<Clause>,
    before: Lit,
    inputs: &[Lit],
    column: &[Lit],
) -> Result<(), AllocError>
    requires same_length { length inputs.now ≡ length column.now }
    ensures appends { OnOk result (clauses.new.items ≡ clauses.old.items ++ as_clauses (first_steps before inputs.now column.now)) }
    ensures begins { Begins clauses.old.items clauses.new.items }
{
    let mut before = before;
    for i in 0..inputs.len() {
        let here = column[i];
        push_clauses(
            alloc,
            clauses,
            &[[inputs[i].negate(), here], [before.negate(), here]],
        )?;
        before = here;
    }
    Ok(())
}

fn push_first_places(
    alloc: Global,
    clauses: &mut Vec<Clause>,
    inputs: &[Lit],
    column: &[Lit],
) -> Result<(), AllocError>
    requires some { 0 < length inputs.now }
    requires same_length { length inputs.now ≡ length column.now }
    ensures appends { OnOk result (clauses.new.items ≡ clauses.old.items ++ as_clauses (first_column inputs.now column.now)) }
    ensures begins { Begins clauses.old.items clauses.new.items }
{
    let Some((input, inputs)) = inputs.split_first() else {
        return Ok(());
    };
    let Some((first, column)) = column.split_first() else {
        return Ok(());
    };
    push_clause(alloc, clauses, &[input.negate(), *first])?;
    push_first_steps(alloc, clauses, *first, inputs, column)
}

/// The first column: its variable at a place is true where one of the inputs up to there is.
pub fn push_first_column(
    alloc: Global,
    cnf: &mut Cnf,
    inputs: &[Lit],
) -> Result<Vec<Lit>, AllocError>
    requires some { 0 < length inputs.now }
    requires room { cnf.old.vars + length inputs.now ≤ 2 ^ 62 }
    ensures appends { IfOk result (λ r. cnf.new.clauses.items ≡ cnf.old.clauses.items ++ as_clauses (first_column inputs.now (fresh cnf.old.vars inputs.now))) }
    ensures outs { IfOk result (λ r. r.items ≡ fresh cnf.old.vars inputs.now) }
    ensures width { IfOk result (λ r. length r.items ≡ length inputs.now) }
    ensures vars { IfOk result (λ r. cnf.new.vars ≡ cnf.old.vars + length inputs.now) }
    ensures begins { Begins cnf.old.clauses.items cnf.new.clauses.items }
{
    let column = new_column(alloc, cnf, inputs)?;
    push_first_places(alloc, &mut cnf.clauses, inputs, &column)?;
    Ok(column)
}

/// A place of a later column: true where the place before it is, and where the input is and `beside`, which stands beside
/// the place before it in the column before.
fn push_later_step(
    alloc: Global,
    clauses: &mut Vec<Clause>,
    before: Lit,
    beside: Lit,
    input: Lit,
    here: Lit,
) -> Result<(), AllocError>
    ensures appends { OnOk result (clauses.new.items ≡ clauses.old.items ++ as_clauses (later_step before beside input here)) }
    ensures begins { Begins clauses.old.items clauses.new.items }
{
    push_clause(alloc, clauses, &[before.negate(), here])?;
    push_clause(alloc, clauses, &[input.negate(), beside.negate(), here])
}

/// A later column from its second place on, behind the place of `before`. `previous` is the column before, from the place
/// of `beside` on.
fn push_later_steps(
    alloc: Global,
    clauses: &mut Vec<Clause>,
    before: Lit,
    beside: Lit,
    inputs: &[Lit],
    previous: &[Lit],
    column: &[Lit],
) -> Result<(), AllocError>
    requires same_length { length inputs.now ≡ length column.now }
    requires same_length_before { length inputs.now ≡ length previous.now }
    ensures appends { OnOk result (clauses.new.items ≡ clauses.old.items ++ as_clauses (later_steps before beside inputs.now previous.now column.now)) }
    ensures begins { Begins clauses.old.items clauses.new.items }
{
    let mut before = before;
    let mut beside = beside;
    for i in 0..inputs.len() {
        let here = column[i];
        push_later_step(alloc, clauses, before, beside, inputs[i], here)?;
        before = here;
        beside = previous[i];
    }
    Ok(())
}

fn push_later_places(
    alloc: Global,
    clauses: &mut Vec<Clause>,
    inputs: &[Lit],
    previous: &[Lit],
    column: &[Lit],
) -> Result<(), AllocError>
    requires some { 0 < length inputs.now }
    requires same_length { length inputs.now ≡ length column.now }
    requires same_length_before { length inputs.now ≡ length previous.now }
    ensures appends { OnOk result (clauses.new.items ≡ clauses.old.items ++ as_clauses (later_column inputs.now previous.now column.now)) }
    ensures begins { Begins clauses.old.items clauses.new.items }
{
    let Some((_, inputs)) = inputs.split_first() else {
        return Ok(());
    };
    let Some((beside, previous)) = previous.split_first() else {
        return Ok(());
    };
    let Some((first, column)) = column.split_first() else {
        return Ok(());
    };
    push_later_steps(alloc, clauses, *first, *beside, inputs, previous, column)
}

/// The column behind `previous`: its variable at a place is true where the input there and the place before it in
/// `previous` are, or the place before it in this column is.
pub fn push_later_column(
    alloc: Global,
    cnf: &mut Cnf,
    inputs: &[Lit],
    previous: &[Lit],
) -> Result<Vec<Lit>, AllocError>
    requires some { 0 < length inputs.now }
    requires same_length { length inputs.now ≡ length previous.now }
    requires room { cnf.old.vars + length inputs.now ≤ 2 ^ 62 }
    ensures appends { IfOk result (λ r. cnf.new.clauses.items ≡ cnf.old.clauses.items ++ as_clauses (later_column inputs.now previous.now (fresh cnf.old.vars inputs.now))) }
    ensures outs { IfOk result (λ r. r.items ≡ fresh cnf.old.vars inputs.now) }
    ensures width { IfOk result (λ r. length r.items ≡ length inputs.now) }
    ensures vars { IfOk result (λ r. cnf.new.vars ≡ cnf.old.vars + length inputs.now) }
    ensures begins { Begins cnf.old.clauses.items cnf.new.clauses.items }
{
    let column = new_column(alloc, cnf, inputs)?;
    push_later_places(alloc, &mut cnf.clauses, inputs, previous, &column)?;
    Ok(column)
}
