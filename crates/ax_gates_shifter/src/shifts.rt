//! Shifts of words of 32 bits by the low five bits of a count.

ghost use Rattle.std.specs.Prelude.{◌≡◌, ◌<◌, ◌≤◌, ◌+◌, ◌*◌, ◌^◌, ◌%◌, ℕ, Bool, true, ◌++◌, IfOk, length, take};
ghost use Rattle.ax_proof.specs.Literal.{IsOver};
ghost use Rattle.ax_proof.specs.Assignment.{lit_value, satisfies};
ghost use Rattle.ax_proof.specs.Runs.{Begins};
ghost use Rattle.ax_gates.specs.Gates.{blocks};
ghost use Rattle.ax_gates.specs.Words.{word_value, fresh, pick_gates, lit_true, Extends};
ghost use Rattle.ax_gates_shifter.specs.Shifter.{filling, moved_word, shift_gates, shift_outs, signed_value, shifted};

use ax_gates::pick_word;
use ax_proof::{Cnf, Lit};
use std::alloc::{AllocError, Global};

fn joined(alloc: Global, low: &[Lit], high: &[Lit]) -> Result<Vec<Lit>, AllocError>
    ensures { IfOk result (λ r. r.items ≡ low.now ++ high.now) }
{
    let mut bits = low.to_vec(alloc)?;
    bits.extend_from_slice(high)?;
    Ok(bits)
}

/// The word moved by so many places, with `fill` at the free ones.
#[tactic(auto, using(crate::proofs::Words::moved_right_is, crate::proofs::Words::moved_left_is))]
fn moved(
    alloc: Global,
    word: &[Lit],
    places: usize,
    fill: Lit,
    right: bool,
) -> Result<Vec<Lit>, AllocError>
    requires places { places ≤ length word.now }
    ensures { IfOk result (λ r. r.items ≡ moved_word right fill places word.now) }
{
    let free = vec![in alloc; fill; places]?;
    if right {
        joined(alloc, &word[places..], &free)
    } else {
        joined(alloc, &free, &word[..word.len() - places])
    }
}

/// One stage: the word moved by so many places where `bit` is true.
#[tactic(auto, using(crate::proofs::Words::moved_length, crate::proofs::Words::moved_fresh))]
fn stage(
    alloc: Global,
    cnf: &mut Cnf,
    word: &[Lit],
    bit: Lit,
    places: usize,
    fill: Lit,
    right: bool,
) -> Result<Vec<Lit>, AllocError>
    requires places { places ≤ length word.now }
    requires room { cnf.old.vars + length word.now ≤ 2 ^ 62 }
    ensures appends { IfOk result (λ r. cnf.new.clauses.items ≡ cnf.old.clauses.items ++ blocks cnf.old.vars (pick_gates bit (moved_word right fill places word.now) word.now)) }
    ensures outs { IfOk result (λ r. r.items ≡ fresh cnf.old.vars word.now) }
    ensures vars { IfOk result (λ r. cnf.new.vars ≡ cnf.old.vars + length word.now) }
    ensures begins { Begins cnf.old.clauses.items cnf.new.clauses.items }
{
    let moved = moved(alloc, word, places, fill, right)?;
    pick_word(alloc, cnf, bit, &moved, word)
}

/// A stage for each bit of the count, by 1, 2, 4, 8 and 16 places.
#[tactic(auto, using(crate::proofs::Words::power_small))]
fn stages(
    alloc: Global,
    cnf: &mut Cnf,
    word: &[Lit],
    count: &[Lit],
    fill: Lit,
    right: bool,
) -> Result<Vec<Lit>, AllocError>
    requires word { length word.now ≡ 32 }
    requires count { length count.now ≡ 5 }
    requires room { cnf.old.vars + 160 ≤ 2 ^ 62 }
    ensures appends { IfOk result (λ r. cnf.new.clauses.items ≡ cnf.old.clauses.items ++ blocks cnf.old.vars (shift_gates right fill cnf.old.vars word.now count.now 1)) }
    ensures outs { IfOk result (λ r. r.items ≡ shift_outs cnf.old.vars word.now count.now) }
    ensures vars { IfOk result (λ r. cnf.new.vars ≡ cnf.old.vars + 160) }
    ensures begins { Begins cnf.old.clauses.items cnf.new.clauses.items }
{
    let mut bits = word.to_vec(alloc)?;
    let mut places = 1;
    for i in 0..count.len() {
        bits = stage(alloc, cnf, &bits, count[i], places, fill, right)?;
        places *= 2;
    }
    Ok(bits)
}

fn shift_by_low_bits(
    alloc: Global,
    cnf: &mut Cnf,
    a: &[Lit],
    n: &[Lit],
    right: bool,
) -> Result<Vec<Lit>, AllocError>
    requires word { length a.now ≡ 32 }
    requires count { length n.now ≡ 32 }
    requires room { cnf.old.vars + 160 ≤ 2 ^ 62 }
    ensures appends { IfOk result (λ r. cnf.new.clauses.items ≡ cnf.old.clauses.items ++ blocks cnf.old.vars (shift_gates right (filling right a.now) cnf.old.vars a.now (take 5 n.now) 1)) }
    ensures outs { IfOk result (λ r. r.items ≡ shift_outs cnf.old.vars a.now (take 5 n.now)) }
    ensures vars { IfOk result (λ r. cnf.new.vars ≡ cnf.old.vars + 160) }
    ensures begins { Begins cnf.old.clauses.items cnf.new.clauses.items }
{
    if right {
        stages(alloc, cnf, a, &n[..5], a[31], true)
    } else {
        stages(alloc, cnf, a, &n[..5], Lit::new(1, false), false)
    }
}

/// The word `a` shifted by the low five bits of `n`, so by `n` modulo 32. To the right the sign fills the free places, to the
/// left 0 does. Where the clauses are to mean this, variable 1 is true.
pub fn shift(
    alloc: Global,
    cnf: &mut Cnf,
    a: &[Lit],
    n: &[Lit],
    right: bool,
) -> Result<Vec<Lit>, AllocError>
    requires word { length a.now ≡ 32 }
    requires count { length n.now ≡ 32 }
    requires room { cnf.old.vars + 160 ≤ 2 ^ 62 }
    ensures appends { IfOk result (λ r. cnf.new.clauses.items ≡ cnf.old.clauses.items ++ blocks cnf.old.vars (shift_gates right (filling right a.now) cnf.old.vars a.now (take 5 n.now) 1)) }
    ensures outs { IfOk result (λ r. r.items ≡ shift_outs cnf.old.vars a.now (take 5 n.now)) }
    ensures vars { IfOk result (λ r. cnf.new.vars ≡ cnf.old.vars + 160) }
    ensures begins { Begins cnf.old.clauses.items cnf.new.clauses.items }
    ensures means { (v : ℕ → Bool) → lit_value v lit_true ≡ true → satisfies v (blocks cnf.old.vars (shift_gates right (filling right a.now) cnf.old.vars a.now (take 5 n.now) 1)) ≡ true → signed_value v (shift_outs cnf.old.vars a.now (take 5 n.now)) ≡ shifted right (signed_value v a.now) (word_value v n.now % 32) }
    ensures extends { 1 ≤ cnf.old.vars → IsOver cnf.old.vars a.now → IsOver cnf.old.vars n.now → Extends cnf.old.vars (blocks cnf.old.vars (shift_gates right (filling right a.now) cnf.old.vars a.now (take 5 n.now) 1)) }
{
    shift_by_low_bits(alloc, cnf, a, n, right)
}
