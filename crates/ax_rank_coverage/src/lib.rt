//! Which candidates of a program the runs of a suite cover, and so which of them are suspicious.
#![tactic(auto)]

mod choice;
mod laws;
mod lists;
mod ordering;
mod seen;
mod text;

pub use choice::{choose, report};
pub use laws::one_candidate_order;
pub use lists::{choose_in, report_in};
pub use ordering::order;
pub use seen::seen_runs;
pub use text::order_text;

#[cfg(test)]
mod tests;
