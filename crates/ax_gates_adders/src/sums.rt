//! Sums of words.

ghost use Rattle.std.specs.Prelude.{◌≡◌, ◌<◌, ◌≤◌, ◌+◌, ◌*◌, ◌^◌, ◌%◌, ◌-◌, ℕ, Bool, true, cond, ◌++◌, IfOk, length};
ghost use Rattle.ax_proof.specs.Literal.{IsOver};
ghost use Rattle.ax_proof.specs.Assignment.{lit_value, satisfies};
ghost use Rattle.ax_proof.specs.Runs.{Begins};
ghost use Rattle.ax_gates.specs.Gates.{blocks};
ghost use Rattle.ax_gates.specs.Words.{digit, word_value, Extends};
ghost use Rattle.ax_gates_adders.specs.Adders.{carry_gates, carry_outs, wrap_gates, wrap_outs, sum_gates, sum_outs, sum_vars};

use ax_gates::{add1, new_variable, parity_gate};
use ax_proof::{Cnf, Lit};
use std::alloc::{AllocError, Global};

fn sum_with_carry(
    alloc: Global,
    cnf: &mut Cnf,
    a: &[Lit],
    b: &[Lit],
    carry: Lit,
) -> Result<Vec<Lit>, AllocError>
    requires same_length { length a.now ≡ length b.now }
    requires room { cnf.old.vars + 2 * length a.now ≤ 2 ^ 62 }
    ensures appends { IfOk result (λ r. cnf.new.clauses.items ≡ cnf.old.clauses.items ++ blocks cnf.old.vars (carry_gates cnf.old.vars a.now b.now carry)) }
    ensures outs { IfOk result (λ r. r.items ≡ carry_outs cnf.old.vars a.now carry) }
    ensures vars { IfOk result (λ r. cnf.new.vars ≡ cnf.old.vars + 2 * length a.now) }
    ensures begins { Begins cnf.old.clauses.items cnf.new.clauses.items }
{
    let mut outs = Vec::new(alloc);
    let mut carry = carry;
    for i in 0..a.len() {
        let bit = new_variable(cnf);
        let next = new_variable(cnf);
        add1(alloc, cnf, bit, next, a[i], b[i], carry)?;
        outs.push(bit)?;
        carry = next;
    }
    outs.push(carry)?;
    Ok(outs)
}

fn sum_that_wraps(
    alloc: Global,
    cnf: &mut Cnf,
    a: &[Lit],
    b: &[Lit],
    carry: Lit,
) -> Result<Vec<Lit>, AllocError>
    requires some { 0 < length a.now }
    requires same_length { length a.now ≡ length b.now }
    requires room { cnf.old.vars + 2 * length a.now ≤ 2 ^ 62 }
    ensures appends { IfOk result (λ r. cnf.new.clauses.items ≡ cnf.old.clauses.items ++ blocks cnf.old.vars (wrap_gates cnf.old.vars a.now b.now carry)) }
    ensures outs { IfOk result (λ r. r.items ≡ wrap_outs cnf.old.vars a.now) }
    ensures vars { IfOk result (λ r. cnf.new.vars + 1 ≡ cnf.old.vars + 2 * length a.now) }
    ensures begins { Begins cnf.old.clauses.items cnf.new.clauses.items }
{
    let mut outs = Vec::new(alloc);
    let mut carry = carry;
    let last = a.len() - 1;
    for i in 0..last {
        let bit = new_variable(cnf);
        let next = new_variable(cnf);
        add1(alloc, cnf, bit, next, a[i], b[i], carry)?;
        outs.push(bit)?;
        carry = next;
    }
    let bit = new_variable(cnf);
    parity_gate(alloc, cnf, bit, a[last], b[last], carry)?;
    outs.push(bit)?;
    Ok(outs)
}

fn sum_either_way(
    alloc: Global,
    cnf: &mut Cnf,
    a: &[Lit],
    b: &[Lit],
    carry: Lit,
    out: bool,
) -> Result<Vec<Lit>, AllocError>
    requires some { 0 < length a.now }
    requires same_length { length a.now ≡ length b.now }
    requires room { cnf.old.vars + 2 * length a.now ≤ 2 ^ 62 }
    ensures appends { IfOk result (λ r. cnf.new.clauses.items ≡ cnf.old.clauses.items ++ blocks cnf.old.vars (sum_gates out cnf.old.vars a.now b.now carry)) }
    ensures outs { IfOk result (λ r. r.items ≡ sum_outs out cnf.old.vars a.now carry) }
    ensures vars { IfOk result (λ r. cnf.new.vars ≡ cnf.old.vars + sum_vars out (length a.now)) }
    ensures begins { Begins cnf.old.clauses.items cnf.new.clauses.items }
{
    if out {
        sum_with_carry(alloc, cnf, a, b, carry)
    } else {
        sum_that_wraps(alloc, cnf, a, b, carry)
    }
}

/// The sum of two words and a carry, where `out` with the last carry as its last literal, else modulo the power of two.
#[tactic(auto, using(crate::proofs::Laws::sum_law, crate::proofs::Laws::sum_extends))]
pub fn sum(
    alloc: Global,
    cnf: &mut Cnf,
    a: &[Lit],
    b: &[Lit],
    carry: Lit,
    out: bool,
) -> Result<Vec<Lit>, AllocError>
    requires some { 0 < length a.now }
    requires same_length { length a.now ≡ length b.now }
    requires room { cnf.old.vars + 2 * length a.now ≤ 2 ^ 62 }
    ensures appends { IfOk result (λ r. cnf.new.clauses.items ≡ cnf.old.clauses.items ++ blocks cnf.old.vars (sum_gates out cnf.old.vars a.now b.now carry)) }
    ensures outs { IfOk result (λ r. r.items ≡ sum_outs out cnf.old.vars a.now carry) }
    ensures vars { IfOk result (λ r. cnf.new.vars ≡ cnf.old.vars + sum_vars out (length a.now)) }
    ensures begins { Begins cnf.old.clauses.items cnf.new.clauses.items }
    ensures means { (v : ℕ → Bool) → satisfies v (blocks cnf.old.vars (sum_gates out cnf.old.vars a.now b.now carry)) ≡ true → word_value v (sum_outs out cnf.old.vars a.now carry) ≡ cond out (word_value v a.now + word_value v b.now + digit (lit_value v carry)) ((word_value v a.now + word_value v b.now + digit (lit_value v carry)) % 2 ^ length a.now) }
    ensures extends { IsOver cnf.old.vars a.now → IsOver cnf.old.vars b.now → carry.var ≤ cnf.old.vars → Extends cnf.old.vars (blocks cnf.old.vars (sum_gates out cnf.old.vars a.now b.now carry)) }
{
    sum_either_way(alloc, cnf, a, b, carry, out)
}
