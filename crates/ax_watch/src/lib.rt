//! Clauses, a list of literals made true, and unit propagation.
#![tactic(auto)]

mod lists;
mod pairs;
mod reach;
pub mod scan;
pub mod store;
pub mod watch;
mod watched;

pub use watch::Watch;
