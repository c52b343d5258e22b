//! Worked examples of gates: clauses written out by hand.

ghost use Rattle.std.specs.Prelude.{◌≡◌};

use crate::circuits::{expect, without_clauses};
use ax_gates::{
    add1, and_gate, and_word, maj, mux, none_gate, or_word, pick_word, push_clause, xor_gate,
    xor_word,
};
use ax_proof::{Cnf, Lit};
use std::alloc::{AllocError, Global};
use std::test::Fail;

/// Conjunctions, of which that of a literal and its negation leaves a clause out, and that of a literal and itself counts it once; an
/// exclusive disjunction, a choice, a majority, a sum of three bits, and none of three.
#[test]
fn gates(rt: HostRuntime) -> Result<(), Fail> {
    let [a, b, c] = [Lit::new(1, true), Lit::new(2, true), Lit::new(3, true)];
    let [z, carry] = [Lit::new(4, true), Lit::new(5, true)];
    let mut cnf = without_clauses(rt.alloc(), 5);
    and_gate(rt.alloc(), &mut cnf, c, a, b)?;
    and_gate(rt.alloc(), &mut cnf, b, a, a.negate())?;
    and_gate(rt.alloc(), &mut cnf, b, a, a)?;
    xor_gate(rt.alloc(), &mut cnf, c, a, b)?;
    mux(rt.alloc(), &mut cnf, z, a, b, c)?;
    maj(rt.alloc(), &mut cnf, z, a, b, c)?;
    add1(rt.alloc(), &mut cnf, z, carry, a, b, c)?;
    none_gate(rt.alloc(), &mut cnf, z, &[a, b, c])?;
    expect(&rt, rt.alloc(), &cnf, GATES)
}

const GATES: &str = "p cnf 5 40
-1 -2 3 0
1 -3 0
2 -3 0
1 -2 0
-1 -2 0
-1 2 0
1 -2 0
1 -2 0
1 2 -3 0
-1 -2 -3 0
-1 2 3 0
1 -2 3 0
-1 -2 4 0
-1 2 -4 0
1 -3 4 0
1 3 -4 0
-1 -2 4 0
-1 -3 4 0
-2 -3 4 0
1 2 -4 0
1 3 -4 0
2 3 -4 0
1 2 3 -4 0
1 2 -3 4 0
1 -2 3 4 0
1 -2 -3 -4 0
-1 2 3 4 0
-1 2 -3 -4 0
-1 -2 3 -4 0
-1 -2 -3 4 0
-1 -2 5 0
-1 -3 5 0
-2 -3 5 0
1 2 -5 0
1 3 -5 0
2 3 -5 0
1 2 3 4 0
-1 -4 0
-2 -4 0
-3 -4 0
";

/// Puts a word's literals behind the clauses, as one clause more.
fn push_word(alloc: Global, word: Vec<Lit>, cnf: &mut Cnf) -> Result<(), AllocError>
    ensures { cnf.new.vars ≡ cnf.old.vars }
{
    push_clause(alloc, &mut cnf.clauses, &word)
}

/// Words of two bits, over the variables 1 and 2, and 3 and 4, and then of one. Each new literal is a new variable. What each call gives
/// stands behind its clauses.
#[test]
fn words(rt: HostRuntime) -> Result<(), Fail> {
    let alloc = rt.alloc();
    let a = [Lit::new(1, true), Lit::new(2, true)];
    let b = [Lit::new(3, true), Lit::new(4, true)];
    let mut cnf = without_clauses(alloc, 4);
    push_word(alloc, and_word(alloc, &mut cnf, &a, &b)?, &mut cnf)?;
    push_word(alloc, or_word(alloc, &mut cnf, &a, &b)?, &mut cnf)?;
    let [a, c] = [[a[0]], [a[1]]];
    let b = [b[0]];
    push_word(alloc, xor_word(alloc, &mut cnf, &a, &b)?, &mut cnf)?;
    push_word(alloc, pick_word(alloc, &mut cnf, a[0], &c, &b)?, &mut cnf)?;
    expect(&rt, alloc, &cnf, WORDS)
}

const WORDS: &str = "p cnf 10 24
-1 -3 5 0
1 -5 0
3 -5 0
-2 -4 6 0
2 -6 0
4 -6 0
5 6 0
1 3 -7 0
-1 7 0
-3 7 0
2 4 -8 0
-2 8 0
-4 8 0
7 8 0
1 3 -9 0
-1 -3 -9 0
-1 3 9 0
1 -3 9 0
9 0
-1 -2 10 0
-1 2 -10 0
1 -3 10 0
1 3 -10 0
10 0
";
