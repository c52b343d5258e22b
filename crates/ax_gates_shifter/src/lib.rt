//! Clauses of shifts of words.
#![tactic(auto)]

pub mod shifts;

pub use shifts::shift;
