//! Quotients and remainders of words without sign.

ghost use Rattle.std.specs.Prelude.{◌≡◌, ◌<◌, ◌≤◌, ◌+◌, ◌*◌, ◌^◌, ◌∷◌, ℕ, Bool, true, ◌++◌, IfOk, length, take};
ghost use Rattle.ax_proof.specs.Literal.{IsOver};
ghost use Rattle.ax_proof.specs.Assignment.{lit_value, satisfies};
ghost use Rattle.ax_proof.specs.Runs.{Begins};
ghost use Rattle.ax_gates.specs.Gates.{blocks};
ghost use Rattle.ax_gates.specs.Words.{fresh, word_value, lit_true, Extends};
ghost use Rattle.ax_gates_adders.specs.Adders.{carry_outs};
ghost use Rattle.ax_gates_divider.specs.Divisions.{negated, fits, turn_gates, turn_vars, division, divide_vars, quotient_of, remainder_of};

use ax_gates::pick_word;
use ax_gates_adders::sum;
use ax_proof::{Cnf, Lit};
use std::alloc::{AllocError, Global};

/// The divisor's bits negated, below a bit that is true.
fn negated_bits(alloc: Global, b: &[Lit]) -> Result<Vec<Lit>, AllocError>
    ensures { IfOk result (λ r. r.items ≡ negated b.now) }
{
    let mut minus = Vec::new(alloc);
    for lit in b {
        minus.push(lit.negate())?;
    }
    minus.push(Lit::new(1, true))?;
    Ok(minus)
}

/// The remainder with one more bit below it.
fn widened(alloc: Global, bit: Lit, remainder: &[Lit]) -> Result<Vec<Lit>, AllocError>
    ensures { IfOk result (λ r. r.items ≡ bit ∷ remainder.now) }
{
    let mut wide = vec![in alloc; bit]?;
    wide.extend_from_slice(remainder)?;
    Ok(wide)
}

/// Takes the divisor from a word where it fits: whether it does, and what is left of it.
#[tactic(auto, using(crate::proofs::Steps::carry_is, crate::proofs::Steps::length_sums, crate::proofs::Steps::length_low, crate::proofs::Steps::length_wide))]
fn subtract(
    alloc: Global,
    cnf: &mut Cnf,
    wide: &[Lit],
    minus: &[Lit],
    low: usize,
) -> Result<(Lit, Vec<Lit>), AllocError>
    requires low { low + 1 ≡ length wide.now }
    requires same_length { length wide.now ≡ length minus.now }
    requires room { cnf.old.vars + 3 * length wide.now ≤ 2 ^ 62 }
    ensures appends { IfOk result (λ p. cnf.new.clauses.items ≡ cnf.old.clauses.items ++ blocks cnf.old.vars (turn_gates cnf.old.vars wide.now minus.now low)) }
    ensures fits { IfOk result (λ p. p.0 ≡ fits cnf.old.vars wide.now) }
    ensures left { IfOk result (λ p. p.1.items ≡ fresh (cnf.old.vars + 2 * length wide.now) (take low (carry_outs cnf.old.vars wide.now lit_true))) }
    ensures vars { IfOk result (λ p. cnf.new.vars ≡ cnf.old.vars + turn_vars low) }
    ensures begins { Begins cnf.old.clauses.items cnf.new.clauses.items }
{
    let sums = sum(alloc, cnf, wide, minus, Lit::new(1, true), true)?;
    let carry = sums[low + 1];
    let left = pick_word(alloc, cnf, carry, &sums[..low], &wide[..low])?;
    Ok((carry, left))
}

/// One turn: the dividend's next bit stands below the remainder.
fn next_bit(
    alloc: Global,
    cnf: &mut Cnf,
    bit: Lit,
    remainder: &[Lit],
    minus: &[Lit],
) -> Result<(Lit, Vec<Lit>), AllocError>
    requires same_length { length minus.now ≡ length remainder.now + 1 }
    requires room { cnf.old.vars + turn_vars (length remainder.now) < 2 ^ 62 }
    ensures appends { IfOk result (λ p. cnf.new.clauses.items ≡ cnf.old.clauses.items ++ blocks cnf.old.vars (turn_gates cnf.old.vars (bit ∷ remainder.now) minus.now (length remainder.now))) }
    ensures fits { IfOk result (λ p. p.0 ≡ fits cnf.old.vars (bit ∷ remainder.now)) }
    ensures left { IfOk result (λ p. p.1.items ≡ fresh (cnf.old.vars + 2 * (length remainder.now + 1)) remainder.now) }
    ensures vars { IfOk result (λ p. cnf.new.vars ≡ cnf.old.vars + turn_vars (length remainder.now)) }
    ensures begins { Begins cnf.old.clauses.items cnf.new.clauses.items }
{
    let wide = widened(alloc, bit, remainder)?;
    subtract(alloc, cnf, &wide, minus, remainder.len())
}

fn long_division(
    alloc: Global,
    cnf: &mut Cnf,
    a: &[Lit],
    b: &[Lit],
) -> Result<(Vec<Lit>, Vec<Lit>), AllocError>
    requires same_length { length a.now ≡ length b.now }
    requires room { cnf.old.vars + divide_vars (length a.now) < 2 ^ 62 }
    ensures appends { IfOk result (λ p. cnf.new.clauses.items ≡ cnf.old.clauses.items ++ blocks cnf.old.vars (division cnf.old.vars a.now b.now).gates) }
    ensures quotient { IfOk result (λ p. p.0.items ≡ (division cnf.old.vars a.now b.now).quotient) }
    ensures remainder { IfOk result (λ p. p.1.items ≡ (division cnf.old.vars a.now b.now).remainder) }
    ensures vars { IfOk result (λ p. cnf.new.vars ≡ cnf.old.vars + divide_vars (length a.now)) }
    ensures begins { Begins cnf.old.clauses.items cnf.new.clauses.items }
{
    let minus = negated_bits(alloc, b)?;
    let mut quotient = Vec::new(alloc);
    let mut remainder = vec![in alloc; Lit::new(1, false); b.len()]?;
    for i in (0..a.len()).rev() {
        let (bit, rest) = next_bit(alloc, cnf, a[i], &remainder, &minus)?;
        quotient.push(bit)?;
        remainder = rest;
    }
    quotient.reverse();
    Ok((quotient, remainder))
}

/// The quotient and the remainder of two words as numbers without sign; by 0 they are all ones and the dividend. Where the
/// clauses are to mean this, variable 1 is true.
#[tactic(auto, using(crate::proofs::Laws::quotient_law, crate::proofs::Laws::remainder_law, crate::proofs::Laws::division_extends))]
pub fn divide(
    alloc: Global,
    cnf: &mut Cnf,
    a: &[Lit],
    b: &[Lit],
) -> Result<(Vec<Lit>, Vec<Lit>), AllocError>
    requires same_length { length a.now ≡ length b.now }
    requires room { cnf.old.vars + divide_vars (length a.now) < 2 ^ 62 }
    ensures appends { IfOk result (λ p. cnf.new.clauses.items ≡ cnf.old.clauses.items ++ blocks cnf.old.vars (division cnf.old.vars a.now b.now).gates) }
    ensures quotient { IfOk result (λ p. p.0.items ≡ (division cnf.old.vars a.now b.now).quotient) }
    ensures remainder { IfOk result (λ p. p.1.items ≡ (division cnf.old.vars a.now b.now).remainder) }
    ensures vars { IfOk result (λ p. cnf.new.vars ≡ cnf.old.vars + divide_vars (length a.now)) }
    ensures begins { Begins cnf.old.clauses.items cnf.new.clauses.items }
    ensures quotient_means { (v : ℕ → Bool) → lit_value v lit_true ≡ true → satisfies v (blocks cnf.old.vars (division cnf.old.vars a.now b.now).gates) ≡ true → word_value v (division cnf.old.vars a.now b.now).quotient ≡ quotient_of (length a.now) (word_value v a.now) (word_value v b.now) }
    ensures remainder_means { (v : ℕ → Bool) → lit_value v lit_true ≡ true → satisfies v (blocks cnf.old.vars (division cnf.old.vars a.now b.now).gates) ≡ true → word_value v (division cnf.old.vars a.now b.now).remainder ≡ remainder_of (word_value v a.now) (word_value v b.now) }
    ensures extends { 1 ≤ cnf.old.vars → IsOver cnf.old.vars a.now → IsOver cnf.old.vars b.now → Extends cnf.old.vars (blocks cnf.old.vars (division cnf.old.vars a.now b.now).gates) }
{
    long_division(alloc, cnf, a, b)
}
