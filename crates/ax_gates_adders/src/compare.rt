//! Comparisons of words of 32 bits.

ghost use Rattle.std.specs.Prelude.{◌≡◌, ◌<◌, ◌≤◌, ◌+◌, ◌^◌, ℕ, Bool, true, false, ◌++◌, IfOk, length, nat_eq, int_lt};
ghost use Rattle.ax_proof.specs.Literal.{literal, IsOver};
ghost use Rattle.ax_proof.specs.Assignment.{lit_value, satisfies};
ghost use Rattle.ax_proof.specs.Runs.{Begins};
ghost use Rattle.ax_gates.specs.Gates.{blocks, next};
ghost use Rattle.ax_gates.specs.Words.{word_value, Extends, lit_true};
ghost use Rattle.ax_gates_adders.specs.Adders.{equal_gates, less_gates, signed_value};

use ax_gates::{maj, new_variable, none_gate, xor_word};
use ax_proof::{Cnf, Lit};
use std::alloc::{AllocError, Global};

fn equal_words(alloc: Global, cnf: &mut Cnf, a: &[Lit], b: &[Lit]) -> Result<Lit, AllocError>
    requires same_length { length a.now ≡ length b.now }
    requires room { cnf.old.vars + length a.now < 2 ^ 62 }
    ensures appends { IfOk result (λ r. cnf.new.clauses.items ≡ cnf.old.clauses.items ++ blocks cnf.old.vars (equal_gates cnf.old.vars a.now b.now)) }
    ensures out { IfOk result (λ r. r ≡ next (cnf.old.vars + length a.now)) }
    ensures vars { IfOk result (λ r. cnf.new.vars ≡ cnf.old.vars + length a.now + 1) }
    ensures begins { Begins cnf.old.clauses.items cnf.new.clauses.items }
{
    let unlike = xor_word(alloc, cnf, a, b)?;
    let z = new_variable(cnf);
    none_gate(alloc, cnf, z, &unlike)?;
    Ok(z)
}

/// Whether two words are equal.
#[tactic(auto, using(crate::proofs::Laws::equal_law, crate::proofs::Laws::equal_extends))]
pub fn equal(alloc: Global, cnf: &mut Cnf, a: &[Lit], b: &[Lit]) -> Result<Lit, AllocError>
    requires same_length { length a.now ≡ length b.now }
    requires room { cnf.old.vars + length a.now < 2 ^ 62 }
    ensures appends { IfOk result (λ r. cnf.new.clauses.items ≡ cnf.old.clauses.items ++ blocks cnf.old.vars (equal_gates cnf.old.vars a.now b.now)) }
    ensures out { IfOk result (λ r. r ≡ next (cnf.old.vars + length a.now)) }
    ensures vars { IfOk result (λ r. cnf.new.vars ≡ cnf.old.vars + length a.now + 1) }
    ensures begins { Begins cnf.old.clauses.items cnf.new.clauses.items }
    ensures means { (v : ℕ → Bool) → satisfies v (blocks cnf.old.vars (equal_gates cnf.old.vars a.now b.now)) ≡ true → lit_value v (next (cnf.old.vars + length a.now)) ≡ nat_eq (word_value v a.now) (word_value v b.now) }
    ensures extends { IsOver cnf.old.vars a.now → IsOver cnf.old.vars b.now → Extends cnf.old.vars (blocks cnf.old.vars (equal_gates cnf.old.vars a.now b.now)) }
{
    equal_words(alloc, cnf, a, b)
}

/// The last carry, which is true where the first word is at least the second.
fn last_carry(
    alloc: Global,
    cnf: &mut Cnf,
    a: &[Lit],
    b: &[Lit],
    below: Lit,
) -> Result<Lit, AllocError>
    requires some { 0 < length a.now }
    requires same_length { length a.now ≡ length b.now }
    requires room { cnf.old.vars + length a.now ≤ 2 ^ 62 }
    ensures appends { IfOk result (λ r. cnf.new.clauses.items ≡ cnf.old.clauses.items ++ blocks cnf.old.vars (less_gates cnf.old.vars a.now b.now below)) }
    ensures out { IfOk result (λ r. r ≡ literal (cnf.old.vars + length a.now) true) }
    ensures vars { IfOk result (λ r. cnf.new.vars ≡ cnf.old.vars + length a.now) }
    ensures begins { Begins cnf.old.clauses.items cnf.new.clauses.items }
{
    let mut carry = below;
    let top = a.len() - 1;
    for i in 0..top {
        let next = new_variable(cnf);
        maj(alloc, cnf, next, a[i], b[i].negate(), carry)?;
        carry = next;
    }
    let next = new_variable(cnf);
    maj(alloc, cnf, next, a[top].negate(), b[top], carry)?;
    Ok(next)
}

/// Whether the first word, as a number with sign, is below the second. Where the clauses are to mean this, variable 1 is
/// true.
#[tactic(auto, using(crate::proofs::Laws::less_law, crate::proofs::Laws::less_extends))]
pub fn less(alloc: Global, cnf: &mut Cnf, a: &[Lit], b: &[Lit]) -> Result<Lit, AllocError>
    requires first { length a.now ≡ 32 }
    requires second { length b.now ≡ 32 }
    requires room { cnf.old.vars + 32 ≤ 2 ^ 62 }
    ensures appends { IfOk result (λ r. cnf.new.clauses.items ≡ cnf.old.clauses.items ++ blocks cnf.old.vars (less_gates cnf.old.vars a.now b.now lit_true)) }
    ensures out { IfOk result (λ r. r ≡ literal (cnf.old.vars + 32) false) }
    ensures vars { IfOk result (λ r. cnf.new.vars ≡ cnf.old.vars + 32) }
    ensures begins { Begins cnf.old.clauses.items cnf.new.clauses.items }
    ensures means { (v : ℕ → Bool) → lit_value v lit_true ≡ true → satisfies v (blocks cnf.old.vars (less_gates cnf.old.vars a.now b.now lit_true)) ≡ true → lit_value v (literal (cnf.old.vars + 32) false) ≡ int_lt (signed_value v a.now) (signed_value v b.now) }
    ensures extends { 1 ≤ cnf.old.vars → IsOver cnf.old.vars a.now → IsOver cnf.old.vars b.now → Extends cnf.old.vars (blocks cnf.old.vars (less_gates cnf.old.vars a.now b.now lit_true)) }
{
    let carry = last_carry(alloc, cnf, a, b, Lit::new(1, true))?;
    Ok(carry.negate())
}
