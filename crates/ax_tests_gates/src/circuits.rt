//! Clause lists and words for the tests, and what they are compared with.

ghost use Rattle.std.specs.Prelude.{◌≡◌, ◌≤◌, ◌<◌, ◌^◌};

use ax_dimacs::{read_cnf, write_cnf};
use ax_proof::{Cnf, Lit};
use std::alloc::Global;
use std::process::Abort;
use std::test::Fail;

/// A list without clauses.
pub fn without_clauses(alloc: Global, vars: u64) -> Cnf
    ensures { result.vars ≡ vars }
{
    Cnf {
        vars,
        clauses: Vec::new(alloc),
    }
}

/// The clauses of a clause file.
pub fn read(alloc: Global, text: &str) -> Result<Cnf, Fail> {
    let cnf = read_cnf(alloc, text.as_bytes()).ok().ok_or("refused")?;
    Ok(cnf)
}

/// The clauses are those of the clause file.
pub fn expect(rt: &impl Abort, alloc: Global, cnf: &Cnf, text: &str) -> Result<(), Fail> {
    let written = write_cnf(alloc, cnf)?;
    assert_eq!(rt; written.as_slice(), text.as_bytes());
    Ok(())
}

/// A word of so many variables, from this one on.
pub fn word<const BITS: usize>(first: u64) -> [Lit; BITS]
    requires low { 1 ≤ first }
    requires high { first < 2 ^ 32 }
    requires bits { BITS < 2 ^ 32 }
{
    let mut lits = [Lit::new(first, true); BITS];
    for (place, lit) in lits.iter_mut().enumerate() {
        *lit = Lit::new(first + place as u64, true);
    }
    lits
}
