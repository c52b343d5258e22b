//! What an order to run reports: which tests of a suite a program passes, and how it fails the others.
#![tactic(auto)]

mod laws;
mod report;
mod running;
mod verdict;

pub use laws::one_verdict;
pub use report::Outcome;
pub use running::run;
pub use verdict::Verdict;
