//! Products of words.

ghost use Rattle.std.specs.Prelude.{◌≡◌, ◌<◌, ◌≤◌, ◌+◌, ◌*◌, ◌^◌, ◌%◌, ◌-◌, ℕ, Bool, true, ◌++◌, IfOk, length};
ghost use Rattle.ax_proof.specs.Literal.{IsOver};
ghost use Rattle.ax_proof.specs.Assignment.{lit_value, satisfies};
ghost use Rattle.ax_proof.specs.Runs.{Begins};
ghost use Rattle.ax_gates.specs.Gates.{blocks};
ghost use Rattle.ax_gates.specs.Words.{fresh, word_value, lit_true, Extends};
ghost use Rattle.ax_gates_multiplier.specs.Products.{row_gates, row_sum_gates, row_sum_outs, row_sum_vars, rows_gates, rows_outs, rows_vars, prod_gates, prod_outs, prod_vars};

use ax_gates::{and_gate, new_variable};
use ax_gates_adders::sum;
use ax_proof::{Cnf, Lit};
use std::alloc::{AllocError, Global};

/// Each bit of a word with one bit of the other factor.
fn row(alloc: Global, cnf: &mut Cnf, a: &[Lit], b: Lit) -> Result<Vec<Lit>, AllocError>
    requires room { cnf.old.vars + length a.now ≤ 2 ^ 62 }
    ensures appends { IfOk result (λ r. cnf.new.clauses.items ≡ cnf.old.clauses.items ++ blocks cnf.old.vars (row_gates a.now b)) }
    ensures outs { IfOk result (λ r. r.items ≡ fresh cnf.old.vars a.now) }
    ensures vars { IfOk result (λ r. cnf.new.vars ≡ cnf.old.vars + length a.now) }
    ensures begins { Begins cnf.old.clauses.items cnf.new.clauses.items }
{
    let mut bits = Vec::with_capacity(alloc, a.len())?;
    for i in 0..a.len() {
        let z = new_variable(cnf);
        and_gate(alloc, cnf, z, a[i], b)?;
        bits.push(z)?;
    }
    Ok(bits)
}

/// A row, and its sum with the total from the row's place on.
fn add_row(
    alloc: Global,
    cnf: &mut Cnf,
    total: &[Lit],
    a: &[Lit],
    b: Lit,
) -> Result<Vec<Lit>, AllocError>
    requires some { 0 < length total.now }
    requires same_length { length total.now ≡ length a.now }
    requires room { cnf.old.vars + 3 * length total.now ≤ 2 ^ 62 }
    ensures appends { IfOk result (λ r. cnf.new.clauses.items ≡ cnf.old.clauses.items ++ blocks cnf.old.vars (row_sum_gates cnf.old.vars total.now a.now b)) }
    ensures outs { IfOk result (λ r. r.items ≡ row_sum_outs cnf.old.vars total.now) }
    ensures vars { IfOk result (λ r. cnf.new.vars ≡ cnf.old.vars + row_sum_vars (length total.now)) }
    ensures begins { Begins cnf.old.clauses.items cnf.new.clauses.items }
{
    let bits = row(alloc, cnf, a, b)?;
    sum(alloc, cnf, total, &bits, Lit::new(1, false), false)
}

/// The rows after the first, to a total that begins with the first.
fn add_rows(
    alloc: Global,
    cnf: &mut Cnf,
    first: Vec<Lit>,
    a: &[Lit],
    b: &[Lit],
) -> Result<Vec<Lit>, AllocError>
    requires bits { length first.items ≡ length b.now + 1 }
    requires wide { length b.now ≤ length a.now }
    requires room { cnf.old.vars + rows_vars (length b.now) < 2 ^ 62 }
    ensures appends { IfOk result (λ r. cnf.new.clauses.items ≡ cnf.old.clauses.items ++ blocks cnf.old.vars (rows_gates cnf.old.vars a.now b.now first.items)) }
    ensures outs { IfOk result (λ r. r.items ≡ rows_outs cnf.old.vars b.now first.items) }
    ensures vars { IfOk result (λ r. cnf.new.vars ≡ cnf.old.vars + rows_vars (length b.now)) }
    ensures begins { Begins cnf.old.clauses.items cnf.new.clauses.items }
{
    let mut outs = Vec::with_capacity(alloc, first.len())?;
    let mut total = first;
    for i in 0..b.len() {
        outs.push(total[0])?;
        total = add_row(alloc, cnf, &total[1..], &a[..b.len() - i], b[i])?;
    }
    outs.extend_from_slice(&total)?;
    Ok(outs)
}

fn product(alloc: Global, cnf: &mut Cnf, a: &[Lit], b: &[Lit]) -> Result<Vec<Lit>, AllocError>
    requires some { 0 < length a.now }
    requires same_length { length a.now ≡ length b.now }
    requires room { cnf.old.vars + prod_vars (length a.now) < 2 ^ 62 }
    ensures appends { IfOk result (λ r. cnf.new.clauses.items ≡ cnf.old.clauses.items ++ blocks cnf.old.vars (prod_gates cnf.old.vars a.now b.now)) }
    ensures outs { IfOk result (λ r. r.items ≡ prod_outs cnf.old.vars a.now b.now) }
    ensures vars { IfOk result (λ r. cnf.new.vars ≡ cnf.old.vars + prod_vars (length a.now)) }
    ensures begins { Begins cnf.old.clauses.items cnf.new.clauses.items }
{
    let first = row(alloc, cnf, a, b[0])?;
    add_rows(alloc, cnf, first, a, &b[1..])
}

/// The product of two words, modulo the power of two. Where the clauses are to mean this, variable 1 is true.
#[tactic(auto, using(crate::proofs::Laws::prod_law, crate::proofs::Laws::prod_extends))]
pub fn prod(alloc: Global, cnf: &mut Cnf, a: &[Lit], b: &[Lit]) -> Result<Vec<Lit>, AllocError>
    requires some { 0 < length a.now }
    requires same_length { length a.now ≡ length b.now }
    requires room { cnf.old.vars + prod_vars (length a.now) < 2 ^ 62 }
    ensures appends { IfOk result (λ r. cnf.new.clauses.items ≡ cnf.old.clauses.items ++ blocks cnf.old.vars (prod_gates cnf.old.vars a.now b.now)) }
    ensures outs { IfOk result (λ r. r.items ≡ prod_outs cnf.old.vars a.now b.now) }
    ensures vars { IfOk result (λ r. cnf.new.vars ≡ cnf.old.vars + prod_vars (length a.now)) }
    ensures begins { Begins cnf.old.clauses.items cnf.new.clauses.items }
    ensures means { (v : ℕ → Bool) → lit_value v lit_true ≡ true → satisfies v (blocks cnf.old.vars (prod_gates cnf.old.vars a.now b.now)) ≡ true → word_value v (prod_outs cnf.old.vars a.now b.now) ≡ (word_value v a.now * word_value v b.now) % 2 ^ length a.now }
    ensures extends { 1 ≤ cnf.old.vars → IsOver cnf.old.vars a.now → IsOver cnf.old.vars b.now → Extends cnf.old.vars (blocks cnf.old.vars (prod_gates cnf.old.vars a.now b.now)) }
{
    product(alloc, cnf, a, b)
}
