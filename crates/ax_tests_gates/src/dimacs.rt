//! Worked examples of clause files.

use crate::circuits::{expect, read};
use ax_dimacs::{CnfFault, read_cnf};
use ax_proof::Denied;
use std::test::Fail;

#[test]
fn refusals(rt: HostRuntime) {
    let rows = [
        ("", 0),
        ("p cnf 1", 7),
        ("p dnf 1 1", 2),
        ("p cnf 10000001 1", 6),
        ("p cnf 1 1\n2 0", 10),
        ("p cnf 1 1\n00", 10),
        ("p cnf 1 1\n1 %", 12),
        ("p cnf 1 1\n1 x 0", 12),
        (" c\np cnf 1 1", 1),
    ];
    for (text, at) in rows {
        match read_cnf(rt.alloc(), text.as_bytes()) {
            Err(Denied::Fault(fault)) => assert_eq!(rt; fault, CnfFault { at }, "{text}"),
            _ => assert!(rt; false, "{text}"),
        }
    }
}

/// What is read, written again: comments, clauses over several lines or on one, repeated literals, clashes, and a last clause without its
/// end. A percent sign ends the clauses. The literals of a clause stand by rising variable.
#[test]
fn clauses_are_read_and_written(rt: HostRuntime) -> Result<(), Fail> {
    let rows = [
        (
            "c a comment\np cnf 3 9\n1 -3\nc 9 9\n 2 0 0 -2 2 0\r\n3 3 0\n-1",
            "p cnf 3 4\n1 2 -3 0\n0\n3 0\n-1 0\n",
        ),
        ("p cnf 3 2\n3 1 3 0\n1 -1 0\n", "p cnf 3 1\n1 3 0\n"),
        ("p cnf 2 1\n1 2 0\n%\n0\nany", "p cnf 2 1\n1 2 0\n"),
        ("p cnf 12 2\n-3 12 0\n0\n", "p cnf 12 2\n-3 12 0\n0\n"),
    ];
    for (text, written) in rows {
        let cnf = read(rt.alloc(), text)?;
        expect(&rt, rt.alloc(), &cnf, written)?;
    }
    Ok(())
}
