//! The order to prove: a model of the clauses of a file, or a proof that there is none.
ghost use Rattle.std.specs.Prelude.{◌≡◌, ◌≤◌, IfOk, string_bytes};
ghost use Rattle.ax_outside.specs.Seen.{NoLess, Same};
ghost use Rattle.ax_top.specs.Proving.{CnfEnds, DoesProve, GivesOutcome, Refuses, halt_report, halt_status};

use crate::delivery::{deliver, report};
use crate::report::{of_file, print_refusal};
use ax_dimacs::CnfFault;
use ax_outside::{ReadFault, Shelf, read_all};
use ax_proof::Denied;
use ax_prove::Outcome;
use std::alloc::{AllocError, Global};

/// How many bytes a clause file has at most.
const CNF_LIMIT: u64 = 268_435_456;

/// Why an order to prove comes to no outcome.
#[derive(Clone, Copy, Debug, PartialEq, Eq)]
pub enum Halt {
    Memory,
    ReadFailed,
    TooLong,
    /// The file is no clause file; the place of its first fault.
    Refused(usize),
}

// What comes of the clauses of the file.
fn outcome_in<S: Shelf>(
    alloc: Global,
    cnf: &str,
    budget: u32,
    shelf: &mut S,
) -> Result<Outcome, Halt>
    requires { 1 ≤ budget }
    ensures ends { CnfEnds (S.seen shelf.old) (S.seen shelf.new) cnf.now budget result }
    ensures same { Same (S.seen shelf.old) (S.seen shelf.new) }
    ensures counts { NoLess (S.seen shelf.old) (S.seen shelf.new) }
{
    let bytes = match read_all(alloc, shelf, cnf, CNF_LIMIT) {
        Ok(bytes) => bytes,
        Err(ReadFault::Memory) => return Err(Halt::Memory),
        Err(ReadFault::TooLong) => return Err(Halt::TooLong),
        Err(ReadFault::Failed) => return Err(Halt::ReadFailed),
    };
    match ax_prove::prove(alloc, bytes.as_slice(), budget) {
        Ok(outcome) => Ok(outcome),
        Err(Denied::Fault(CnfFault { at })) => Err(Halt::Refused(at)),
        Err(Denied::Memory) => Err(Halt::Memory),
    }
}

fn halt_text(alloc: Global, cnf: &str, halt: Halt) -> Result<String, AllocError>
    ensures { IfOk result (λ s. string_bytes s ≡ halt_report cnf.now halt) }
{
    match halt {
        Halt::Memory => Ok(String::new(alloc)),
        Halt::ReadFailed => of_file(alloc, "read failed: ", cnf),
        Halt::TooLong => of_file(alloc, "file too long: ", cnf),
        Halt::Refused(at) => format!(in alloc; "cnf refused at {at}\n"),
    }
}

fn status_of(halt: Halt) -> u8
    ensures { result ≡ halt_status halt }
{
    match halt {
        Halt::TooLong => 5,
        Halt::ReadFailed => 6,
        Halt::Memory => 10,
        Halt::Refused(_) => 13,
    }
}

// Prints why there is no outcome, and answers the status.
fn refuse<S: Shelf>(alloc: Global, cnf: &str, halt: Halt, shelf: &mut S) -> u8
    ensures { Refuses (S.seen shelf.old) (S.seen shelf.new) cnf.now halt result }
{
    if halt == Halt::Memory {
        return 10;
    }
    match halt_text(alloc, cnf, halt) {
        Ok(text) => {
            print_refusal(shelf, text.as_str());
            status_of(halt)
        }
        Err(_) => 10,
    }
}

// Puts the lines, where there are some, and prints the report.
fn give<S: Shelf>(proof: &str, outcome: &Outcome, shelf: &mut S) -> u8
    ensures { GivesOutcome (S.seen shelf.old) (S.seen shelf.new) proof.now outcome.now result }
{
    match outcome.lines() {
        None => report(shelf, outcome.report(), outcome.status()),
        Some(lines) => deliver(shelf, proof, lines, outcome.report(), outcome.status()),
    }
}

/// Does what an order to prove asks for, and answers the status.
pub fn prove<S: Shelf>(alloc: Global, cnf: &str, proof: &str, budget: u32, shelf: &mut S) -> u8
    requires { 1 ≤ budget }
    ensures { DoesProve (S.seen shelf.old) (S.seen shelf.new) cnf.now proof.now budget result }
{
    match outcome_in(alloc, cnf, budget, shelf) {
        Err(halt) => refuse(alloc, cnf, halt, shelf),
        Ok(outcome) => give(proof, &outcome, shelf),
    }
}
