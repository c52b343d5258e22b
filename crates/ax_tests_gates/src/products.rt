//! Worked examples of products, quotients and remainders: numbers of variables and clauses counted by hand, and all products and
//! divisions of numbers of four bits.

use crate::circuits::{without_clauses, word};
use ax_gates_divider::divide;
use ax_gates_multiplier::prod;
use ax_proof::{Clause, Lit};
use std::process::Abort;
use std::test::Fail;

/// Whether the literal holds under the values of the variables from 1 on.
fn holds(rt: &impl Abort, values: &[bool], lit: Lit) -> bool {
    let place = lit.var() as usize - 1;
    assert!(rt; place < values.len());
    values[place] == lit.positive()
}

/// Makes the clause's last literal true where no other is.
fn force(rt: &impl Abort, values: &mut [bool], lits: &[Lit]) {
    let mut last = Lit::new(1, true);
    for lit in lits {
        if holds(rt, values, *lit) {
            return;
        }
        last = *lit;
    }
    let place = last.var() as usize - 1;
    assert!(rt; place < values.len());
    values[place] = last.positive();
}

/// What the clauses make of two numbers of four bits, in the variables 2 to 5 and 6 to 9, where variable 1 is true.
fn forced(rt: &impl Abort, clauses: &[Clause], x: u64, y: u64) -> [bool; 65] {
    let mut values = [false; 65];
    values[0] = true;
    for place in 0..4u32 {
        values[1 + place as usize] = (x >> place) & 1 == 1;
        values[5 + place as usize] = (y >> place) & 1 == 1;
    }
    for clause in clauses {
        force(rt, &mut values, clause.lits());
    }
    values
}

fn number(rt: &impl Abort, values: &[bool], word: &[Lit]) -> u64 {
    let mut number = 0u64;
    for lit in word.iter().rev() {
        number = number
            .wrapping_mul(2)
            .wrapping_add(u64::from(holds(rt, values, *lit)));
    }
    number
}

/// Ten conjunctions of three clauses each, and sums of three, two and one bits with 14 clauses a bit, the last 8.
#[test]
fn products_of_four_bits(rt: HostRuntime) -> Result<(), Fail> {
    let mut cnf = without_clauses(rt.alloc(), 9);
    let outs = prod(rt.alloc(), &mut cnf, &word::<4>(2), &word::<4>(6))?;
    assert_eq!(rt;
        (outs.len(), cnf.vars, cnf.clauses.len()),
        (4, 9 + 19, 30 + 66)
    );
    for x in 0..16u64 {
        for y in 0..16u64 {
            let values = forced(&rt, &cnf.clauses, x, y);
            assert_eq!(rt; number(&rt, &values, &outs), x * y % 16, "{x} times {y}");
        }
    }
    Ok(())
}

/// 528 conjunctions of three clauses each, and sums of 31 bits down to one with 14 clauses a bit, the last 8.
#[test]
fn products_of_32_bits(rt: HostRuntime) -> Result<(), Fail> {
    let mut cnf = without_clauses(rt.alloc(), 65);
    let outs = prod(rt.alloc(), &mut cnf, &word::<32>(2), &word::<32>(34))?;
    assert_eq!(rt;
        (outs.len(), cnf.vars, cnf.clauses.len()),
        (32, 65 + 1489, 1584 + 6758)
    );
    assert_eq!(rt; outs.first(), Some(&Lit::new(66, true)));
    assert_eq!(rt; outs.last(), Some(&Lit::new(65 + 1489, true)));
    Ok(())
}

/// Each of four turns has a sum of five bits with 14 clauses a bit, and four choices of four clauses each. In the first turn the
/// top bit adds the literals -1 and 1, so six of its clauses are left out.
#[test]
fn divisions_of_four_bits(rt: HostRuntime) -> Result<(), Fail> {
    let mut cnf = without_clauses(rt.alloc(), 9);
    let (quotient, remainder) = divide(rt.alloc(), &mut cnf, &word::<4>(2), &word::<4>(6))?;
    assert_eq!(rt; quotient.last(), Some(&Lit::new(19, true)));
    assert_eq!(rt; remainder.last(), Some(&Lit::new(65, true)));
    assert_eq!(rt; (cnf.vars, cnf.clauses.len()), (9 + 56, 4 * 86 - 6));
    for x in 0..16u64 {
        for y in 0..16u64 {
            let values = forced(&rt, &cnf.clauses, x, y);
            let (whole, rest) = if y == 0 { (15, x) } else { (x / y, x % y) };
            assert_eq!(rt; number(&rt, &values, &quotient), whole, "{x} by {y}");
            assert_eq!(rt; number(&rt, &values, &remainder), rest, "{x} by {y}");
        }
    }
    Ok(())
}

/// Each of 32 turns has a sum of 33 bits with 14 clauses a bit, and 32 choices of four clauses each; six clauses are left out.
#[test]
fn divisions_of_32_bits(rt: HostRuntime) -> Result<(), Fail> {
    let mut cnf = without_clauses(rt.alloc(), 65);
    let (quotient, remainder) = divide(rt.alloc(), &mut cnf, &word::<32>(2), &word::<32>(34))?;
    assert_eq!(rt; (quotient.len(), remainder.len()), (32, 32));
    assert_eq!(rt; quotient.last(), Some(&Lit::new(65 + 66, true)));
    assert_eq!(rt; remainder.last(), Some(&Lit::new(65 + 3136, true)));
    assert_eq!(rt; (cnf.vars, cnf.clauses.len()), (65 + 3136, 32 * 590 - 6));
    Ok(())
}
