//! Clause blocks of adders, and of comparisons of words.
#![tactic(auto)]

pub mod compare;
pub mod sums;

pub use compare::{equal, less};
pub use sums::sum;
