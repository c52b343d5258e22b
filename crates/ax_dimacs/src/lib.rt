//! Clause files: lists of clauses as text, in the profile of DIMACS that docs/FORMATS.md gives.
#![tactic(auto)]

mod read;
mod words;
mod write;

pub use read::{CnfFault, MAX_VARS, read_cnf};
pub use write::{push_clause_text, write_cnf};
