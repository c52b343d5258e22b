//! Worked examples of the clauses of operators: numbers of variables and clauses counted by hand.

ghost use Rattle.std.specs.Prelude.{◌≡◌, ◌≤◌, ◌<◌, ◌^◌};

use ax_blast::{test_block, word_block};
use ax_proof::{Cnf, Lit};
use ax_term::{TestOp, WordOp};
use std::alloc::Global;
use std::test::Fail;

/// A list without clauses.
fn without_clauses(alloc: Global, vars: u64) -> Cnf
    ensures { result.vars ≡ vars }
{
    Cnf {
        vars,
        clauses: Vec::new(alloc),
    }
}

/// A word of 32 variables, from this one on.
fn word(first: u64) -> [Lit; 32]
    requires low { 1 ≤ first }
    requires high { first < 2 ^ 32 }
{
    let mut lits = [Lit::new(first, true); 32];
    for (place, lit) in lits.iter_mut().enumerate() {
        *lit = Lit::new(first + place as u64, true);
    }
    lits
}

/// 31 sums of three bits with 14 clauses each, and 8 clauses for the last bit.
#[test]
fn differences(rt: HostRuntime) -> Result<(), Fail> {
    let mut cnf = without_clauses(rt.alloc(), 65);
    let outs = word_block(rt.alloc(), &mut cnf, WordOp::Sub, &word(2), &word(34))?;
    assert_eq!(rt;
        (outs.len(), cnf.vars, cnf.clauses.len()),
        (32, 65 + 63, 442)
    );
    assert_eq!(rt; outs.last(), Some(&Lit::new(128, true)));
    Ok(())
}

/// 32 exclusive disjunctions with 4 clauses each, a clause of 33 literals, and 32 clauses of two.
#[test]
fn equalities(rt: HostRuntime) -> Result<(), Fail> {
    let mut cnf = without_clauses(rt.alloc(), 65);
    let out = test_block(rt.alloc(), &mut cnf, TestOp::Eq, &word(2), &word(34))?;
    assert_eq!(rt; out, Lit::new(98, true));
    assert_eq!(rt; cnf.clauses.len(), 161);
    Ok(())
}
