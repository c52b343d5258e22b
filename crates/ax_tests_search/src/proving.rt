//! Worked examples of clause files, answered.

use ax_proof::Denied;
use ax_prove::{Outcome, prove};

/// Each of four clauses rules out one of the four assignments of two variables.
const NO_MODEL: &str = "p cnf 2 4\n1 2 0\n-1 2 0\n1 -2 0\n-1 -2 0\n";

/// Four pigeons in three holes.
const PIGEONS: &str = "p cnf 12 22
1 2 3 0 4 5 6 0 7 8 9 0 10 11 12 0
-1 -4 0 -1 -7 0 -1 -10 0 -4 -7 0 -4 -10 0 -7 -10 0
-2 -5 0 -2 -8 0 -2 -11 0 -5 -8 0 -5 -11 0 -8 -11 0
-3 -6 0 -3 -9 0 -3 -12 0 -6 -9 0 -6 -12 0 -9 -12 0
";

/// Clause files, the budget, the status, the report, and whether lines are put.
const ROWS: [(&str, u32, u8, &str, bool); 6] = [
    (NO_MODEL, 100, 0, "s UNSATISFIABLE\n", true),
    (PIGEONS, 100_000, 0, "s UNSATISFIABLE\n", true),
    (PIGEONS, 1, 9, "budget used up\n", true),
    ("p cnf 1 1\n1 0\n", 1, 1, "s SATISFIABLE\nv 1 0\n", false),
    (
        "p cnf 2 2\n-1 0\n1 2 0\n",
        1,
        1,
        "s SATISFIABLE\nv -1 2 0\n",
        false,
    ),
    ("p cnf 0 0\n", 1, 1, "s SATISFIABLE\nv 0\n", false),
];

fn is_so(outcome: &Outcome, status: u8, report: &str, puts: bool) -> bool {
    outcome.status() == status
        && outcome.report() == report.as_bytes()
        && outcome.lines().is_some() == puts
}

#[test]
fn outcomes(rt: HostRuntime) {
    for (text, budget, status, report, puts) in ROWS {
        assert!(rt; budget > 0);
        match prove(rt.alloc(), text.as_bytes(), budget) {
            Ok(outcome) => assert!(rt; is_so(&outcome, status, report, puts), "{text}"),
            Err(_) => assert!(rt; false, "{text}"),
        }
    }
}

#[test]
fn refusals(rt: HostRuntime) {
    for (text, at) in [("p cnf 1 1\n2 0", 10), ("p cnf 1", 7)] {
        match prove(rt.alloc(), text.as_bytes(), 1) {
            Err(Denied::Fault(fault)) => assert_eq!(rt; fault.at, at, "{text}"),
            _ => assert!(rt; false, "{text}"),
        }
    }
}

#[test]
fn an_empty_clause_is_refuted_by_the_empty_line(rt: HostRuntime) {
    match prove(rt.alloc(), b"p cnf 1 1\n0", 10) {
        Ok(outcome) => assert!(rt; outcome.lines() == Some(b"0\n".as_slice())),
        Err(_) => assert!(rt; false),
    }
}
