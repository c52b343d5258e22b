//! The search for a model of the clauses of a file.

ghost use Rattle.std.specs.Prelude.{◌≡◌, ◌<◌, ◌≤◌, ◌^◌, All, IfOk};
ghost use Rattle.ax_proof.specs.Literal.{IsOver};
ghost use Rattle.ax_prove.specs.Outcomes.{Decides, Proves, Shows};

use crate::outcome::Outcome;
use crate::text::{model_report, proof_text};
use ax_dimacs::{CnfFault, read_cnf};
use ax_proof::laws::laws;
use ax_proof::{Cnf, Denied};
use ax_sat::{Answer, Log, solve};
use std::alloc::{AllocError, Global};

/// What comes of clauses, with at most `budget` lines.
fn outcome_of(alloc: Global, cnf: &Cnf, budget: u32) -> Result<Outcome, AllocError>
    requires budget { 1 ≤ budget }
    requires vars { cnf.now.vars < 2 ^ 63 }
    requires over { All (IsOver cnf.now.vars) cnf.now.clauses.items }
    ensures shows { IfOk result (Shows (record { vars = cnf.now.vars; clauses = cnf.now.clauses.items }) budget) }
    ensures decides { IfOk result (Decides (record { vars = cnf.now.vars; clauses = cnf.now.clauses.items })) }
{
    // a proof refutes
    laws();
    let mut log = Log {
        lines: Vec::new(alloc),
    };
    match solve(alloc, cnf, &[], &mut log, budget)? {
        Answer::Model(assignment) => Ok(Outcome::Model {
            report: model_report(alloc, assignment.bits.as_slice())?,
        }),
        Answer::Refuted => Ok(Outcome::Refuted {
            proof: proof_text(alloc, log.lines.as_slice())?,
        }),
        Answer::Budget => Ok(Outcome::Budget {
            lines: proof_text(alloc, log.lines.as_slice())?,
        }),
    }
}

/// Searches for a model of the clauses of a file, with at most `budget` lines of a proof besides an empty one. The fault
/// is that of `read_cnf`.
pub fn prove(alloc: Global, bytes: &[u8], budget: u32) -> Result<Outcome, Denied<CnfFault>>
    requires { 1 ≤ budget }
    ensures { Proves bytes.now budget result }
{
    let cnf = read_cnf(alloc, bytes)?;
    let outcome = outcome_of(alloc, &cnf, budget)?;
    Ok(outcome)
}
