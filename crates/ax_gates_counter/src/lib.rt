//! Clauses that say that at most so many of some literals are true.
#![tactic(auto)]

pub mod columns;
pub mod counter;

pub use counter::at_most;
