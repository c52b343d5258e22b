//! The block of an operator at two words of 32 bits.

ghost use Rattle.std.specs.Prelude.{◌≡◌, ◌<◌, ◌≤◌, ◌+◌, ◌^◌, ℕ, Bool, true, ◌++◌, IfOk, length, map, take, drop};
ghost use Rattle.ax_proof.specs.Literal.{negation, IsOver};
ghost use Rattle.ax_proof.specs.Assignment.{lit_value, satisfies};
ghost use Rattle.ax_proof.specs.Runs.{Begins};
ghost use Rattle.ax_gates.specs.Gates.{blocks};
ghost use Rattle.ax_gates.specs.Words.{lit_true, Extends};
ghost use Rattle.ax_gates_adders.specs.Adders.{signed_value};
ghost use Rattle.ax_term.specs.Values.{op_value, test_value};
ghost use Rattle.ax_blast.specs.Blocks.{extended, word_gates, word_outs, word_vars, test_gates, test_out, test_vars};

use ax_gates::{and_word, or_word, xor_word};
use ax_gates_adders::{equal, less, sum};
use ax_gates_divider::divide;
use ax_gates_multiplier::prod;
use ax_gates_shifter::shift;
use ax_proof::{Cnf, Lit};
use ax_term::{TestOp, WordOp};
use std::alloc::{AllocError, Global};

fn negated(alloc: Global, word: &[Lit]) -> Result<Vec<Lit>, AllocError>
    ensures items { IfOk result (λ r. r.items ≡ map negation word.now) }
    ensures width { IfOk result (λ r. length r.items ≡ length word.now) }
{
    let mut bits = Vec::with_capacity(alloc, word.len())?;
    for lit in word {
        bits.push(lit.negate())?;
    }
    Ok(bits)
}

/// The word with its top bit 32 times more.
fn sign_extended(alloc: Global, word: &[Lit]) -> Result<Vec<Lit>, AllocError>
    requires word { length word.now ≡ 32 }
    ensures items { IfOk result (λ r. r.items ≡ extended word.now) }
    ensures width { IfOk result (λ r. length r.items ≡ 64) }
{
    let top = vec![in alloc; word[31]; 32]?;
    let mut bits = word.to_vec(alloc)?;
    bits.extend_from_slice(&top)?;
    Ok(bits)
}

fn difference(alloc: Global, cnf: &mut Cnf, a: &[Lit], b: &[Lit]) -> Result<Vec<Lit>, AllocError>
    requires first { length a.now ≡ 32 }
    requires second { length b.now ≡ 32 }
    requires room { cnf.old.vars + word_vars WordOp.Sub < 2 ^ 62 }
    ensures appends { IfOk result (λ r. cnf.new.clauses.items ≡ cnf.old.clauses.items ++ blocks cnf.old.vars (word_gates WordOp.Sub cnf.old.vars a.now b.now)) }
    ensures outs { IfOk result (λ r. r.items ≡ word_outs WordOp.Sub cnf.old.vars a.now b.now) }
    ensures vars { IfOk result (λ r. cnf.new.vars ≡ cnf.old.vars + word_vars WordOp.Sub) }
    ensures begins { Begins cnf.old.clauses.items cnf.new.clauses.items }
{
    let minus = negated(alloc, b)?;
    sum(alloc, cnf, a, &minus, Lit::new(1, true), false)
}

fn upper_half(alloc: Global, word: &[Lit]) -> Result<Vec<Lit>, AllocError>
    requires word { length word.now ≡ 64 }
    ensures { IfOk result (λ r. r.items ≡ take 32 (drop 32 word.now)) }
{
    word[32..].to_vec(alloc)
}

fn high(alloc: Global, cnf: &mut Cnf, a: &[Lit], b: &[Lit]) -> Result<Vec<Lit>, AllocError>
    requires first { length a.now ≡ 32 }
    requires second { length b.now ≡ 32 }
    requires room { cnf.old.vars + word_vars WordOp.High < 2 ^ 62 }
    ensures appends { IfOk result (λ r. cnf.new.clauses.items ≡ cnf.old.clauses.items ++ blocks cnf.old.vars (word_gates WordOp.High cnf.old.vars a.now b.now)) }
    ensures outs { IfOk result (λ r. r.items ≡ word_outs WordOp.High cnf.old.vars a.now b.now) }
    ensures vars { IfOk result (λ r. cnf.new.vars ≡ cnf.old.vars + word_vars WordOp.High) }
    ensures begins { Begins cnf.old.clauses.items cnf.new.clauses.items }
{
    let a = sign_extended(alloc, a)?;
    let b = sign_extended(alloc, b)?;
    let product = prod(alloc, cnf, &a, &b)?;
    upper_half(alloc, &product)
}

fn quotient(alloc: Global, cnf: &mut Cnf, a: &[Lit], b: &[Lit]) -> Result<Vec<Lit>, AllocError>
    requires first { length a.now ≡ 32 }
    requires second { length b.now ≡ 32 }
    requires room { cnf.old.vars + word_vars WordOp.Quot < 2 ^ 62 }
    ensures appends { IfOk result (λ r. cnf.new.clauses.items ≡ cnf.old.clauses.items ++ blocks cnf.old.vars (word_gates WordOp.Quot cnf.old.vars a.now b.now)) }
    ensures outs { IfOk result (λ r. r.items ≡ word_outs WordOp.Quot cnf.old.vars a.now b.now) }
    ensures vars { IfOk result (λ r. cnf.new.vars ≡ cnf.old.vars + word_vars WordOp.Quot) }
    ensures begins { Begins cnf.old.clauses.items cnf.new.clauses.items }
{
    let (quotient, _) = divide(alloc, cnf, a, b)?;
    Ok(quotient)
}

fn remainder(alloc: Global, cnf: &mut Cnf, a: &[Lit], b: &[Lit]) -> Result<Vec<Lit>, AllocError>
    requires first { length a.now ≡ 32 }
    requires second { length b.now ≡ 32 }
    requires room { cnf.old.vars + word_vars WordOp.Left < 2 ^ 62 }
    ensures appends { IfOk result (λ r. cnf.new.clauses.items ≡ cnf.old.clauses.items ++ blocks cnf.old.vars (word_gates WordOp.Left cnf.old.vars a.now b.now)) }
    ensures outs { IfOk result (λ r. r.items ≡ word_outs WordOp.Left cnf.old.vars a.now b.now) }
    ensures vars { IfOk result (λ r. cnf.new.vars ≡ cnf.old.vars + word_vars WordOp.Left) }
    ensures begins { Begins cnf.old.clauses.items cnf.new.clauses.items }
{
    let (_, remainder) = divide(alloc, cnf, a, b)?;
    Ok(remainder)
}

fn by_operator(
    alloc: Global,
    cnf: &mut Cnf,
    op: WordOp,
    a: &[Lit],
    b: &[Lit],
) -> Result<Vec<Lit>, AllocError>
    requires first { length a.now ≡ 32 }
    requires second { length b.now ≡ 32 }
    requires room { cnf.old.vars + word_vars op < 2 ^ 62 }
    ensures appends { IfOk result (λ r. cnf.new.clauses.items ≡ cnf.old.clauses.items ++ blocks cnf.old.vars (word_gates op cnf.old.vars a.now b.now)) }
    ensures outs { IfOk result (λ r. r.items ≡ word_outs op cnf.old.vars a.now b.now) }
    ensures vars { IfOk result (λ r. cnf.new.vars ≡ cnf.old.vars + word_vars op) }
    ensures begins { Begins cnf.old.clauses.items cnf.new.clauses.items }
{
    match op {
        WordOp::Add => sum(alloc, cnf, a, b, Lit::new(1, false), false),
        WordOp::Sub => difference(alloc, cnf, a, b),
        WordOp::Mul => prod(alloc, cnf, a, b),
        WordOp::High => high(alloc, cnf, a, b),
        WordOp::Quot => quotient(alloc, cnf, a, b),
        WordOp::Left => remainder(alloc, cnf, a, b),
        WordOp::Shl => shift(alloc, cnf, a, b, false),
        WordOp::Shr => shift(alloc, cnf, a, b, true),
        WordOp::And => and_word(alloc, cnf, a, b),
        WordOp::Or => or_word(alloc, cnf, a, b),
        WordOp::Xor => xor_word(alloc, cnf, a, b),
    }
}

/// The operator's word. Where the clauses hold and variable 1 is true, its value with sign is the operator's.
pub fn word_block(
    alloc: Global,
    cnf: &mut Cnf,
    op: WordOp,
    a: &[Lit],
    b: &[Lit],
) -> Result<Vec<Lit>, AllocError>
    requires first { length a.now ≡ 32 }
    requires second { length b.now ≡ 32 }
    requires room { cnf.old.vars + word_vars op < 2 ^ 62 }
    ensures appends { IfOk result (λ r. cnf.new.clauses.items ≡ cnf.old.clauses.items ++ blocks cnf.old.vars (word_gates op cnf.old.vars a.now b.now)) }
    ensures outs { IfOk result (λ r. r.items ≡ word_outs op cnf.old.vars a.now b.now) }
    ensures vars { IfOk result (λ r. cnf.new.vars ≡ cnf.old.vars + word_vars op) }
    ensures begins { Begins cnf.old.clauses.items cnf.new.clauses.items }
    ensures means { (v : ℕ → Bool) → lit_value v lit_true ≡ true → satisfies v (blocks cnf.old.vars (word_gates op cnf.old.vars a.now b.now)) ≡ true → signed_value v (word_outs op cnf.old.vars a.now b.now) ≡ op_value op (signed_value v a.now) (signed_value v b.now) }
    ensures extends { 1 ≤ cnf.old.vars → IsOver cnf.old.vars a.now → IsOver cnf.old.vars b.now → Extends cnf.old.vars (blocks cnf.old.vars (word_gates op cnf.old.vars a.now b.now)) }
{
    by_operator(alloc, cnf, op, a, b)
}

fn by_test(
    alloc: Global,
    cnf: &mut Cnf,
    op: TestOp,
    a: &[Lit],
    b: &[Lit],
) -> Result<Lit, AllocError>
    requires first { length a.now ≡ 32 }
    requires second { length b.now ≡ 32 }
    requires room { cnf.old.vars + test_vars op < 2 ^ 62 }
    ensures appends { IfOk result (λ r. cnf.new.clauses.items ≡ cnf.old.clauses.items ++ blocks cnf.old.vars (test_gates op cnf.old.vars a.now b.now)) }
    ensures out { IfOk result (λ r. r ≡ test_out op cnf.old.vars) }
    ensures vars { IfOk result (λ r. cnf.new.vars ≡ cnf.old.vars + test_vars op) }
    ensures begins { Begins cnf.old.clauses.items cnf.new.clauses.items }
{
    match op {
        TestOp::Eq => equal(alloc, cnf, a, b),
        TestOp::Lt => less(alloc, cnf, a, b),
    }
}

/// The test's literal. Where the clauses hold and variable 1 is true, it is true where the test holds of the words with sign.
pub fn test_block(
    alloc: Global,
    cnf: &mut Cnf,
    op: TestOp,
    a: &[Lit],
    b: &[Lit],
) -> Result<Lit, AllocError>
    requires first { length a.now ≡ 32 }
    requires second { length b.now ≡ 32 }
    requires room { cnf.old.vars + test_vars op < 2 ^ 62 }
    ensures appends { IfOk result (λ r. cnf.new.clauses.items ≡ cnf.old.clauses.items ++ blocks cnf.old.vars (test_gates op cnf.old.vars a.now b.now)) }
    ensures out { IfOk result (λ r. r ≡ test_out op cnf.old.vars) }
    ensures vars { IfOk result (λ r. cnf.new.vars ≡ cnf.old.vars + test_vars op) }
    ensures begins { Begins cnf.old.clauses.items cnf.new.clauses.items }
    ensures means { (v : ℕ → Bool) → lit_value v lit_true ≡ true → satisfies v (blocks cnf.old.vars (test_gates op cnf.old.vars a.now b.now)) ≡ true → lit_value v (test_out op cnf.old.vars) ≡ test_value op (signed_value v a.now) (signed_value v b.now) }
    ensures extends { 1 ≤ cnf.old.vars → IsOver cnf.old.vars a.now → IsOver cnf.old.vars b.now → Extends cnf.old.vars (blocks cnf.old.vars (test_gates op cnf.old.vars a.now b.now)) }
{
    by_test(alloc, cnf, op, a, b)
}
