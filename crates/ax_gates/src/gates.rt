//! Gates over given literals.

ghost use Rattle.std.specs.Prelude.{◌≡◌, ◌↔◌, ◌+◌, ◌*◌, ◌&&◌, ℕ, Bool, true, not, cond, ◌++◌, OnOk};
ghost use Rattle.ax_proof.specs.Literal.{negation};
ghost use Rattle.ax_proof.specs.Assignment.{lit_value, clause_true, satisfies};
ghost use Rattle.ax_proof.specs.Runs.{Begins};
ghost use Rattle.ax_gates.specs.Gates.{both, either, differ, choose, parity, majority, none, xor_of, majority_of, block, add1_block, as_clauses, each_not};
ghost use Rattle.ax_gates.specs.Words.{digit};

use crate::append::{push_clause, push_clauses};
use ax_proof::{Clause, Cnf, Lit};
use std::alloc::{AllocError, Global};

#[tactic(auto, unfolding(crate::specs::Gates::block, crate::specs::Gates::and_clauses))]
fn push_both(
    alloc: Global,
    clauses: &mut Vec<Clause>,
    z: Lit,
    a: Lit,
    b: Lit,
) -> Result<(), AllocError>
    ensures appends { OnOk result (clauses.new.items ≡ clauses.old.items ++ block z (both a b)) }
    ensures begins { Begins clauses.old.items clauses.new.items }
{
    push_clause(alloc, clauses, &[z, a.negate(), b.negate()])?;
    push_clauses(alloc, clauses, &[[z.negate(), a], [z.negate(), b]])
}

/// Makes `z` true where `a` and `b` are.
#[tactic(auto, using(crate::proofs::Laws::and_gate_law))]
pub fn and_gate(alloc: Global, cnf: &mut Cnf, z: Lit, a: Lit, b: Lit) -> Result<(), AllocError>
    ensures appends { OnOk result (cnf.new.clauses.items ≡ cnf.old.clauses.items ++ block z (both a b)) }
    ensures vars { cnf.new.vars ≡ cnf.old.vars }
    ensures begins { Begins cnf.old.clauses.items cnf.new.clauses.items }
    ensures means { (v : ℕ → Bool) → (satisfies v (block z (both a b)) ≡ true) ↔ (lit_value v z ≡ (lit_value v a && lit_value v b)) }
{
    push_both(alloc, &mut cnf.clauses, z, a, b)
}

#[tactic(auto, unfolding(crate::specs::Gates::block, crate::specs::Gates::xor_clauses))]
fn push_differ(
    alloc: Global,
    clauses: &mut Vec<Clause>,
    z: Lit,
    a: Lit,
    b: Lit,
) -> Result<(), AllocError>
    ensures appends { OnOk result (clauses.new.items ≡ clauses.old.items ++ block z (differ a b)) }
    ensures begins { Begins clauses.old.items clauses.new.items }
{
    push_clauses(
        alloc,
        clauses,
        &[
            [z.negate(), a, b],
            [z.negate(), a.negate(), b.negate()],
            [z, a.negate(), b],
            [z, a, b.negate()],
        ],
    )
}

/// Makes `z` true where one of `a` and `b` is, and not both.
#[tactic(auto, using(crate::proofs::Laws::xor_gate_law))]
pub fn xor_gate(alloc: Global, cnf: &mut Cnf, z: Lit, a: Lit, b: Lit) -> Result<(), AllocError>
    ensures appends { OnOk result (cnf.new.clauses.items ≡ cnf.old.clauses.items ++ block z (differ a b)) }
    ensures vars { cnf.new.vars ≡ cnf.old.vars }
    ensures begins { Begins cnf.old.clauses.items cnf.new.clauses.items }
    ensures means { (v : ℕ → Bool) → (satisfies v (block z (differ a b)) ≡ true) ↔ (lit_value v z ≡ xor_of (lit_value v a) (lit_value v b)) }
{
    push_differ(alloc, &mut cnf.clauses, z, a, b)
}

#[tactic(auto, unfolding(crate::specs::Gates::block, crate::specs::Gates::mux_clauses))]
fn push_choose(
    alloc: Global,
    clauses: &mut Vec<Clause>,
    z: Lit,
    f: Lit,
    a: Lit,
    b: Lit,
) -> Result<(), AllocError>
    ensures appends { OnOk result (clauses.new.items ≡ clauses.old.items ++ block z (choose f a b)) }
    ensures begins { Begins clauses.old.items clauses.new.items }
{
    push_clauses(
        alloc,
        clauses,
        &[
            [f.negate(), a.negate(), z],
            [f.negate(), a, z.negate()],
            [f, b.negate(), z],
            [f, b, z.negate()],
        ],
    )
}

/// Makes `z` what `a` is where `f` is true, else what `b` is.
#[tactic(auto, using(crate::proofs::Laws::mux_law))]
pub fn mux(alloc: Global, cnf: &mut Cnf, z: Lit, f: Lit, a: Lit, b: Lit) -> Result<(), AllocError>
    ensures appends { OnOk result (cnf.new.clauses.items ≡ cnf.old.clauses.items ++ block z (choose f a b)) }
    ensures vars { cnf.new.vars ≡ cnf.old.vars }
    ensures begins { Begins cnf.old.clauses.items cnf.new.clauses.items }
    ensures means { (v : ℕ → Bool) → (satisfies v (block z (choose f a b)) ≡ true) ↔ (lit_value v z ≡ cond (lit_value v f) (lit_value v a) (lit_value v b)) }
{
    push_choose(alloc, &mut cnf.clauses, z, f, a, b)
}

#[tactic(auto, unfolding(crate::specs::Gates::block, crate::specs::Gates::parity_clauses))]
fn push_parity(
    alloc: Global,
    clauses: &mut Vec<Clause>,
    z: Lit,
    a: Lit,
    b: Lit,
    c: Lit,
) -> Result<(), AllocError>
    ensures appends { OnOk result (clauses.new.items ≡ clauses.old.items ++ block z (parity a b c)) }
    ensures begins { Begins clauses.old.items clauses.new.items }
{
    push_clauses(
        alloc,
        clauses,
        &[
            [a, b, c, z.negate()],
            [a, b, c.negate(), z],
            [a, b.negate(), c, z],
            [a, b.negate(), c.negate(), z.negate()],
            [a.negate(), b, c, z],
            [a.negate(), b, c.negate(), z.negate()],
            [a.negate(), b.negate(), c, z.negate()],
            [a.negate(), b.negate(), c.negate(), z],
        ],
    )
}

/// Makes `z` true where an odd number of `a`, `b` and `c` is.
#[tactic(auto, using(crate::proofs::Laws::parity_gate_law))]
pub fn parity_gate(
    alloc: Global,
    cnf: &mut Cnf,
    z: Lit,
    a: Lit,
    b: Lit,
    c: Lit,
) -> Result<(), AllocError>
    ensures appends { OnOk result (cnf.new.clauses.items ≡ cnf.old.clauses.items ++ block z (parity a b c)) }
    ensures vars { cnf.new.vars ≡ cnf.old.vars }
    ensures begins { Begins cnf.old.clauses.items cnf.new.clauses.items }
    ensures means { (v : ℕ → Bool) → (satisfies v (block z (parity a b c)) ≡ true) ↔ (lit_value v z ≡ xor_of (lit_value v a) (xor_of (lit_value v b) (lit_value v c))) }
{
    push_parity(alloc, &mut cnf.clauses, z, a, b, c)
}

#[tactic(auto, unfolding(crate::specs::Gates::block, crate::specs::Gates::maj_clauses))]
fn push_majority(
    alloc: Global,
    clauses: &mut Vec<Clause>,
    z: Lit,
    a: Lit,
    b: Lit,
    c: Lit,
) -> Result<(), AllocError>
    ensures appends { OnOk result (clauses.new.items ≡ clauses.old.items ++ block z (majority a b c)) }
    ensures begins { Begins clauses.old.items clauses.new.items }
{
    push_clauses(
        alloc,
        clauses,
        &[
            [a.negate(), b.negate(), z],
            [a.negate(), c.negate(), z],
            [b.negate(), c.negate(), z],
            [a, b, z.negate()],
            [a, c, z.negate()],
            [b, c, z.negate()],
        ],
    )
}

/// Makes `z` what two of `a`, `b` and `c` are.
#[tactic(auto, using(crate::proofs::Laws::maj_law))]
pub fn maj(alloc: Global, cnf: &mut Cnf, z: Lit, a: Lit, b: Lit, c: Lit) -> Result<(), AllocError>
    ensures appends { OnOk result (cnf.new.clauses.items ≡ cnf.old.clauses.items ++ block z (majority a b c)) }
    ensures vars { cnf.new.vars ≡ cnf.old.vars }
    ensures begins { Begins cnf.old.clauses.items cnf.new.clauses.items }
    ensures means { (v : ℕ → Bool) → (satisfies v (block z (majority a b c)) ≡ true) ↔ (lit_value v z ≡ majority_of (lit_value v a) (lit_value v b) (lit_value v c)) }
{
    push_majority(alloc, &mut cnf.clauses, z, a, b, c)
}

/// Makes `z` true where one of `a` and `b` is.
#[tactic(auto, unfolding(crate::specs::Gates::block))]
pub(crate) fn or_gate(
    alloc: Global,
    cnf: &mut Cnf,
    z: Lit,
    a: Lit,
    b: Lit,
) -> Result<(), AllocError>
    ensures appends { OnOk result (cnf.new.clauses.items ≡ cnf.old.clauses.items ++ block z (either a b)) }
    ensures vars { cnf.new.vars ≡ cnf.old.vars }
    ensures begins { Begins cnf.old.clauses.items cnf.new.clauses.items }
{
    push_both(alloc, &mut cnf.clauses, z.negate(), a.negate(), b.negate())
}

fn push_add1(
    alloc: Global,
    cnf: &mut Cnf,
    s: Lit,
    carry: Lit,
    a: Lit,
    b: Lit,
    c: Lit,
) -> Result<(), AllocError>
    ensures appends { OnOk result (cnf.new.clauses.items ≡ cnf.old.clauses.items ++ add1_block s carry a b c) }
    ensures vars { cnf.new.vars ≡ cnf.old.vars }
    ensures begins { Begins cnf.old.clauses.items cnf.new.clauses.items }
{
    parity_gate(alloc, cnf, s, a, b, c)?;
    maj(alloc, cnf, carry, a, b, c)
}

/// Makes `s` the low bit and `carry` the high bit of the sum of three bits.
#[tactic(auto, using(crate::proofs::Laws::add1_law))]
pub fn add1(
    alloc: Global,
    cnf: &mut Cnf,
    s: Lit,
    carry: Lit,
    a: Lit,
    b: Lit,
    c: Lit,
) -> Result<(), AllocError>
    ensures appends { OnOk result (cnf.new.clauses.items ≡ cnf.old.clauses.items ++ add1_block s carry a b c) }
    ensures vars { cnf.new.vars ≡ cnf.old.vars }
    ensures begins { Begins cnf.old.clauses.items cnf.new.clauses.items }
    ensures means { (v : ℕ → Bool) → (satisfies v (add1_block s carry a b c) ≡ true) ↔ (digit (lit_value v s) + 2 * digit (lit_value v carry) ≡ digit (lit_value v a) + digit (lit_value v b) + digit (lit_value v c)) }
{
    push_add1(alloc, cnf, s, carry, a, b, c)
}

/// The clauses that make `z` false where one of these is true.
fn push_each(alloc: Global, clauses: &mut Vec<Clause>, z: Lit, xs: &[Lit]) -> Result<(), AllocError>
    ensures appends { OnOk result (clauses.new.items ≡ clauses.old.items ++ as_clauses (each_not z xs.now)) }
    ensures begins { Begins clauses.old.items clauses.new.items }
{
    for x in xs {
        push_clause(alloc, clauses, &[z.negate(), x.negate()])?;
    }
    Ok(())
}

#[tactic(auto, unfolding(crate::specs::Gates::block, crate::specs::Gates::none_clauses))]
fn push_none(alloc: Global, clauses: &mut Vec<Clause>, z: Lit, xs: &[Lit]) -> Result<(), AllocError>
    ensures appends { OnOk result (clauses.new.items ≡ clauses.old.items ++ block z (none xs.now)) }
    ensures begins { Begins clauses.old.items clauses.new.items }
{
    let mut lits = vec![in alloc; z]?;
    lits.extend_from_slice(xs)?;
    push_clause(alloc, clauses, &lits)?;
    push_each(alloc, clauses, z, xs)
}

/// Makes `z` true where none of these is.
#[tactic(auto, using(crate::proofs::Laws::none_gate_law))]
pub fn none_gate(alloc: Global, cnf: &mut Cnf, z: Lit, xs: &[Lit]) -> Result<(), AllocError>
    ensures appends { OnOk result (cnf.new.clauses.items ≡ cnf.old.clauses.items ++ block z (none xs.now)) }
    ensures vars { cnf.new.vars ≡ cnf.old.vars }
    ensures begins { Begins cnf.old.clauses.items cnf.new.clauses.items }
    ensures means { (v : ℕ → Bool) → (satisfies v (block z (none xs.now)) ≡ true) ↔ (lit_value v z ≡ not (clause_true v xs.now)) }
{
    push_none(alloc, &mut cnf.clauses, z, xs)
}
