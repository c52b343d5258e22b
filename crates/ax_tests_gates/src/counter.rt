//! Worked examples of the counter: clauses written out by hand.

use crate::circuits::{expect, without_clauses};
use ax_gates_counter::at_most;
use ax_proof::Lit;
use std::test::Fail;

/// One of three has six variables and ten clauses: five of the first column, four of the second, and the last variable's
/// negation. A bound that can't be exceeded needs no clause.
#[test]
fn some_of_three(rt: HostRuntime) -> Result<(), Fail> {
    let inputs = [Lit::new(1, true), Lit::new(2, true), Lit::new(3, true)];
    let one = "p cnf 9 10
-1 4 0
-2 5 0
-4 5 0
-3 6 0
-5 6 0
-7 8 0
-2 -4 8 0
-8 9 0
-3 -5 9 0
-9 0
";
    for (bound, text) in [(1, one), (3, "p cnf 3 0\n")] {
        let mut cnf = without_clauses(rt.alloc(), 3);
        at_most(rt.alloc(), &mut cnf, &inputs, bound)?;
        expect(&rt, rt.alloc(), &cnf, text)?;
    }
    Ok(())
}

#[test]
fn none_of_two(rt: HostRuntime) -> Result<(), Fail> {
    let mut cnf = without_clauses(rt.alloc(), 2);
    let inputs = [Lit::new(1, true), Lit::new(2, false)];
    at_most(rt.alloc(), &mut cnf, &inputs, 0)?;
    expect(
        &rt,
        rt.alloc(),
        &cnf,
        "p cnf 4 4\n-1 3 0\n2 4 0\n-3 4 0\n-4 0\n",
    )
}
