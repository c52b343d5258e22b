//! Words bit by bit. Each bit of the result is a new variable.

ghost use Rattle.std.specs.Prelude.{◌≡◌, ◌≤◌, ◌+◌, ◌^◌, ℕ, Bool, true, cond, ◌++◌, OnOk, IfOk, length, bit_and, bit_or, bit_xor};
ghost use Rattle.ax_proof.specs.Literal.{IsOver};
ghost use Rattle.ax_proof.specs.Assignment.{lit_value, satisfies};
ghost use Rattle.ax_proof.specs.Runs.{Begins};
ghost use Rattle.ax_gates.specs.Gates.{block, blocks, both, either, differ};
ghost use Rattle.ax_gates.specs.Words.{word_value, fresh, pairwise, and_gates, or_gates, xor_gates, pick_gates, Extends};
ghost use Rattle.ax_gates.specs.Bitwise.{bit_gate};

use crate::append::new_variable;
use crate::gates::{and_gate, mux, or_gate, xor_gate};
use ax_proof::{Cnf, Lit};
use std::alloc::{AllocError, Global};

/// An operator on the bits of two words.
#[derive(Clone, Copy)]
enum Bitwise {
    And,
    Or,
    Xor,
}

/// Makes `z` the operator's value at two bits.
fn bit(alloc: Global, cnf: &mut Cnf, op: Bitwise, z: Lit, a: Lit, b: Lit) -> Result<(), AllocError>
    ensures appends { OnOk result (cnf.new.clauses.items ≡ cnf.old.clauses.items ++ block z (bit_gate op a b)) }
    ensures vars { cnf.new.vars ≡ cnf.old.vars }
    ensures begins { Begins cnf.old.clauses.items cnf.new.clauses.items }
{
    match op {
        Bitwise::And => and_gate(alloc, cnf, z, a, b),
        Bitwise::Or => or_gate(alloc, cnf, z, a, b),
        Bitwise::Xor => xor_gate(alloc, cnf, z, a, b),
    }
}

fn bit_by_bit(
    alloc: Global,
    cnf: &mut Cnf,
    op: Bitwise,
    a: &[Lit],
    b: &[Lit],
) -> Result<Vec<Lit>, AllocError>
    requires same_length { length a.now ≡ length b.now }
    requires room { cnf.old.vars + length a.now ≤ 2 ^ 62 }
    ensures appends { IfOk result (λ r. cnf.new.clauses.items ≡ cnf.old.clauses.items ++ blocks cnf.old.vars (pairwise (bit_gate op) a.now b.now)) }
    ensures outs { IfOk result (λ r. r.items ≡ fresh cnf.old.vars a.now) }
    ensures vars { IfOk result (λ r. cnf.new.vars ≡ cnf.old.vars + length a.now) }
    ensures begins { Begins cnf.old.clauses.items cnf.new.clauses.items }
{
    let mut outs = Vec::with_capacity(alloc, a.len())?;
    for i in 0..a.len() {
        let z = new_variable(cnf);
        bit(alloc, cnf, op, z, a[i], b[i])?;
        outs.push(z)?;
    }
    Ok(outs)
}

/// The bitwise conjunction of two words.
#[tactic(auto, using(crate::proofs::WordLaws::and_word_law, crate::proofs::WordLaws::and_word_extends))]
pub fn and_word(alloc: Global, cnf: &mut Cnf, a: &[Lit], b: &[Lit]) -> Result<Vec<Lit>, AllocError>
    requires same_length { length a.now ≡ length b.now }
    requires room { cnf.old.vars + length a.now ≤ 2 ^ 62 }
    ensures appends { IfOk result (λ r. cnf.new.clauses.items ≡ cnf.old.clauses.items ++ blocks cnf.old.vars (and_gates a.now b.now)) }
    ensures outs { IfOk result (λ r. r.items ≡ fresh cnf.old.vars a.now) }
    ensures vars { IfOk result (λ r. cnf.new.vars ≡ cnf.old.vars + length a.now) }
    ensures begins { Begins cnf.old.clauses.items cnf.new.clauses.items }
    ensures means { (v : ℕ → Bool) → satisfies v (blocks cnf.old.vars (and_gates a.now b.now)) ≡ true → word_value v (fresh cnf.old.vars a.now) ≡ bit_and (word_value v a.now) (word_value v b.now) }
    ensures extends { IsOver cnf.old.vars a.now → IsOver cnf.old.vars b.now → Extends cnf.old.vars (blocks cnf.old.vars (and_gates a.now b.now)) }
{
    bit_by_bit(alloc, cnf, Bitwise::And, a, b)
}

/// The bitwise disjunction of two words.
#[tactic(auto, using(crate::proofs::WordLaws::or_word_law, crate::proofs::WordLaws::or_word_extends))]
pub fn or_word(alloc: Global, cnf: &mut Cnf, a: &[Lit], b: &[Lit]) -> Result<Vec<Lit>, AllocError>
    requires same_length { length a.now ≡ length b.now }
    requires room { cnf.old.vars + length a.now ≤ 2 ^ 62 }
    ensures appends { IfOk result (λ r. cnf.new.clauses.items ≡ cnf.old.clauses.items ++ blocks cnf.old.vars (or_gates a.now b.now)) }
    ensures outs { IfOk result (λ r. r.items ≡ fresh cnf.old.vars a.now) }
    ensures vars { IfOk result (λ r. cnf.new.vars ≡ cnf.old.vars + length a.now) }
    ensures begins { Begins cnf.old.clauses.items cnf.new.clauses.items }
    ensures means { (v : ℕ → Bool) → satisfies v (blocks cnf.old.vars (or_gates a.now b.now)) ≡ true → word_value v (fresh cnf.old.vars a.now) ≡ bit_or (word_value v a.now) (word_value v b.now) }
    ensures extends { IsOver cnf.old.vars a.now → IsOver cnf.old.vars b.now → Extends cnf.old.vars (blocks cnf.old.vars (or_gates a.now b.now)) }
{
    bit_by_bit(alloc, cnf, Bitwise::Or, a, b)
}

/// The bitwise exclusive disjunction of two words.
#[tactic(auto, using(crate::proofs::WordLaws::xor_word_law, crate::proofs::WordLaws::xor_word_extends))]
pub fn xor_word(alloc: Global, cnf: &mut Cnf, a: &[Lit], b: &[Lit]) -> Result<Vec<Lit>, AllocError>
    requires same_length { length a.now ≡ length b.now }
    requires room { cnf.old.vars + length a.now ≤ 2 ^ 62 }
    ensures appends { IfOk result (λ r. cnf.new.clauses.items ≡ cnf.old.clauses.items ++ blocks cnf.old.vars (xor_gates a.now b.now)) }
    ensures outs { IfOk result (λ r. r.items ≡ fresh cnf.old.vars a.now) }
    ensures vars { IfOk result (λ r. cnf.new.vars ≡ cnf.old.vars + length a.now) }
    ensures begins { Begins cnf.old.clauses.items cnf.new.clauses.items }
    ensures means { (v : ℕ → Bool) → satisfies v (blocks cnf.old.vars (xor_gates a.now b.now)) ≡ true → word_value v (fresh cnf.old.vars a.now) ≡ bit_xor (word_value v a.now) (word_value v b.now) }
    ensures extends { IsOver cnf.old.vars a.now → IsOver cnf.old.vars b.now → Extends cnf.old.vars (blocks cnf.old.vars (xor_gates a.now b.now)) }
{
    bit_by_bit(alloc, cnf, Bitwise::Xor, a, b)
}

fn pick(alloc: Global, cnf: &mut Cnf, f: Lit, a: &[Lit], b: &[Lit]) -> Result<Vec<Lit>, AllocError>
    requires same_length { length a.now ≡ length b.now }
    requires room { cnf.old.vars + length a.now ≤ 2 ^ 62 }
    ensures appends { IfOk result (λ r. cnf.new.clauses.items ≡ cnf.old.clauses.items ++ blocks cnf.old.vars (pick_gates f a.now b.now)) }
    ensures outs { IfOk result (λ r. r.items ≡ fresh cnf.old.vars a.now) }
    ensures vars { IfOk result (λ r. cnf.new.vars ≡ cnf.old.vars + length a.now) }
    ensures begins { Begins cnf.old.clauses.items cnf.new.clauses.items }
{
    let mut outs = Vec::with_capacity(alloc, a.len())?;
    for i in 0..a.len() {
        let z = new_variable(cnf);
        mux(alloc, cnf, z, f, a[i], b[i])?;
        outs.push(z)?;
    }
    Ok(outs)
}

/// The word `a` where `f` is true, else `b`.
#[tactic(auto, using(crate::proofs::WordLaws::pick_word_law, crate::proofs::WordLaws::pick_word_extends))]
pub fn pick_word(
    alloc: Global,
    cnf: &mut Cnf,
    f: Lit,
    a: &[Lit],
    b: &[Lit],
) -> Result<Vec<Lit>, AllocError>
    requires same_length { length a.now ≡ length b.now }
    requires room { cnf.old.vars + length a.now ≤ 2 ^ 62 }
    ensures appends { IfOk result (λ r. cnf.new.clauses.items ≡ cnf.old.clauses.items ++ blocks cnf.old.vars (pick_gates f a.now b.now)) }
    ensures outs { IfOk result (λ r. r.items ≡ fresh cnf.old.vars a.now) }
    ensures vars { IfOk result (λ r. cnf.new.vars ≡ cnf.old.vars + length a.now) }
    ensures begins { Begins cnf.old.clauses.items cnf.new.clauses.items }
    ensures means { (v : ℕ → Bool) → satisfies v (blocks cnf.old.vars (pick_gates f a.now b.now)) ≡ true → word_value v (fresh cnf.old.vars a.now) ≡ cond (lit_value v f) (word_value v a.now) (word_value v b.now) }
    ensures extends { f.var ≤ cnf.old.vars → IsOver cnf.old.vars a.now → IsOver cnf.old.vars b.now → Extends cnf.old.vars (blocks cnf.old.vars (pick_gates f a.now b.now)) }
{
    pick(alloc, cnf, f, a, b)
}
