//! Worked examples of adders, comparisons and shifts of 32 bits: numbers of variables and clauses counted by hand.

use crate::circuits::{without_clauses, word};
use ax_gates_adders::{equal, less, sum};
use ax_gates_shifter::shift;
use ax_proof::Lit;
use std::test::Fail;

/// A sum that wraps has 31 sums of three bits with 14 clauses each, and 8 clauses for the last bit. One with its carry out, the
/// last literal, has 32 sums of three bits.
#[test]
fn sums(rt: HostRuntime) -> Result<(), Fail> {
    let [a, b] = [word::<32>(2), word::<32>(34)];
    for (carried, outs, vars, clauses) in [(false, 32, 65 + 63, 442), (true, 33, 65 + 64, 448)] {
        let mut cnf = without_clauses(rt.alloc(), 65);
        let made = sum(rt.alloc(), &mut cnf, &a, &b, Lit::new(1, false), carried)?;
        assert_eq!(rt;
            (made.len(), cnf.vars, cnf.clauses.len()),
            (outs, vars, clauses)
        );
        let last = made.last().ok_or("no literal")?;
        assert_eq!(rt; (last.var(), last.positive()), (vars, true));
    }
    Ok(())
}

/// An equality has 32 exclusive disjunctions with 4 clauses each, a clause of 33 literals, and 32 clauses of two. An order has 32
/// majorities with 6 clauses each; its literal is the last carry's negation.
#[test]
fn comparisons(rt: HostRuntime) -> Result<(), Fail> {
    let [a, b] = [word::<32>(2), word::<32>(34)];
    let mut cnf = without_clauses(rt.alloc(), 65);
    assert_eq!(rt; equal(rt.alloc(), &mut cnf, &a, &b)?, Lit::new(98, true));
    assert_eq!(rt; (cnf.vars, cnf.clauses.len()), (65 + 33, 161));
    let mut cnf = without_clauses(rt.alloc(), 65);
    assert_eq!(rt; less(rt.alloc(), &mut cnf, &a, &b)?, Lit::new(97, false));
    assert_eq!(rt; (cnf.vars, cnf.clauses.len()), (65 + 32, 192));
    Ok(())
}

/// Five stages of 32 choices with 4 clauses each. The first clause has the lowest bit of the count, what comes to the lowest
/// place, and its new variable: to the left 0 comes there, to the right the bit above.
#[test]
fn shifts(rt: HostRuntime) -> Result<(), Fail> {
    let [a, n] = [word::<32>(2), word::<32>(34)];
    for (right, moved) in [(false, Lit::new(1, true)), (true, Lit::new(3, false))] {
        let mut cnf = without_clauses(rt.alloc(), 65);
        let outs = shift(rt.alloc(), &mut cnf, &a, &n, right)?;
        assert_eq!(rt; outs.len(), 32);
        assert_eq!(rt; outs.last(), Some(&Lit::new(225, true)));
        assert_eq!(rt; (cnf.vars, cnf.clauses.len()), (65 + 160, 640));
        let first = [moved, Lit::new(34, false), Lit::new(66, true)];
        assert_eq!(rt; cnf.clauses[0].lits(), first.as_slice());
    }
    Ok(())
}
