//! Worked examples of proofs and of the clauses that their lines use.

use crate::circuits::read;
use ax_proof::{
    Assignment, BadLine, BadUse, Clause, Cnf, Denied, Lit, check_lines, check_right, ends_empty,
    find_uses,
};
use std::alloc::Global;
use std::process::Abort;
use std::test::Fail;

/// Clauses that no assignment satisfies.
const SQUARE: &str = "p cnf 2 4\n1 2 0\n-1 2 0\n1 -2 0\n-1 -2 0\n";

/// A proof of that.
const LINES: &str = "p cnf 2 2\n2 0\n0\n";

#[test]
fn an_assignment_has_values(rt: HostRuntime) -> Result<(), Fail> {
    let assignment = Assignment {
        bits: vec![in rt.alloc(); true, false]?,
    };
    assert_eq!(rt; assignment.bits.len(), 2);
    assert!(rt; assignment.value(Lit::new(2, false)));
    Ok(())
}

/// What the check of the lines of a clause file comes to.
fn checked(alloc: Global, lines: &str) -> Result<Result<(), Denied<BadLine>>, Fail> {
    let cnf = read(alloc, SQUARE)?;
    let lines = read(alloc, lines)?;
    Ok(check_lines(alloc, &cnf, &lines.clauses))
}

#[test]
fn lines_are_checked(rt: HostRuntime) -> Result<(), Fail> {
    let bad = Denied::Fault(BadLine { at: 0 });
    for (lines, wanted) in [(LINES, Ok(())), ("p cnf 2 1\n0\n", Err(bad))] {
        assert_eq!(rt; checked(rt.alloc(), lines)?, wanted);
    }
    Ok(())
}

/// Whether the uses of the lines of a clause file are found, as many as there are lines, and right.
fn are_found(rt: &impl Abort, alloc: Global, lines: &Cnf) -> Result<bool, Fail> {
    let cnf = read(alloc, SQUARE)?;
    match find_uses(alloc, &cnf, &lines.clauses) {
        Ok(found) => {
            assert_eq!(rt; found.len(), lines.clauses.len());
            Ok(check_right(alloc, &cnf, &lines.clauses, &found).is_ok())
        }
        Err(_) => Ok(false),
    }
}

#[test]
fn uses_are_found(rt: HostRuntime) -> Result<(), Fail> {
    for (text, found) in [(LINES, true), ("p cnf 2 1\n0\n", false)] {
        let lines = read(rt.alloc(), text)?;
        assert_eq!(rt; ends_empty(&lines.clauses), true);
        assert_eq!(rt; are_found(&rt, rt.alloc(), &lines)?, found);
    }
    Ok(())
}

/// What the check of these uses of the two lines comes to.
fn used(rt: &impl Abort, alloc: Global, last: &[u64]) -> Result<Result<(), Denied<BadUse>>, Fail> {
    let cnf = read(alloc, SQUARE)?;
    let lines = read(alloc, LINES)?;
    let uses = vec![in alloc;
        Vec::from_slice(alloc, &[1, 2])?,
        Vec::from_slice(alloc, last)?,
    ]?;
    assert_eq!(rt; uses.len(), lines.clauses.len());
    Ok(check_right(alloc, &cnf, &lines.clauses, &uses))
}

#[test]
fn uses_are_checked(rt: HostRuntime) -> Result<(), Fail> {
    let bad = Denied::Fault(BadUse { at: 1 });
    for (last, wanted) in [([5, 3, 4], Ok(())), ([3, 5, 4], Err(bad))] {
        assert_eq!(rt; used(&rt, rt.alloc(), &last)?, wanted);
    }
    Ok(())
}

/// A variable that no table has room for.
const HUGE: u64 = 1 << 62;

/// Clauses of one, each of some literals.
fn clauses_of(alloc: Global, lits: &[Lit]) -> Result<Cnf, Fail> {
    let clause = Clause::from_lits(alloc, lits)?.ok_or("a clash")?;
    Ok(Cnf {
        vars: HUGE,
        clauses: vec![in alloc; clause]?,
    })
}

#[test]
fn huge_variables_are_checked(rt: HostRuntime) -> Result<(), Fail> {
    let alloc = rt.alloc();
    let cnf = read(alloc, SQUARE)?;
    let huge = Lit::new(HUGE, true);
    let alone = clauses_of(alloc, &[huge])?;
    let bad = Denied::Fault(BadLine { at: 0 });
    assert_eq!(rt; check_lines(alloc, &cnf, &alone.clauses), Err(bad));
    let beside = clauses_of(alloc, &[huge, Lit::new(2, true)])?;
    assert_eq!(rt; check_lines(alloc, &cnf, &beside.clauses), Ok(()));
    Ok(())
}

#[test]
fn huge_variables_are_used(rt: HostRuntime) -> Result<(), Fail> {
    let alloc = rt.alloc();
    let lines = clauses_of(alloc, &[Lit::new(HUGE, true), Lit::new(2, true)])?;
    assert_eq!(rt; are_found(&rt, alloc, &lines)?, true);
    let cnf = read(alloc, SQUARE)?;
    let bad = Denied::Fault(BadUse { at: 0 });
    let given = vec![in alloc; Vec::from_slice(alloc, &[3, 4])?]?;
    assert_eq!(rt; given.len(), lines.clauses.len());
    assert_eq!(rt; check_right(alloc, &cnf, &lines.clauses, &given), Err(bad));
    Ok(())
}
