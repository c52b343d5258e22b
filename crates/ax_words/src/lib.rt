//! The words of a command line: which order they give, or why they give none.
#![tactic(auto)]

mod commands;
mod laws;
mod lists;
mod numbers;
mod order;
mod prove;
mod read;
mod repair;

pub use laws::{one_order, orders_have_no_fault};
pub use order::{Choice, Order, RepairOrder, WordFault};
pub use read::read_words;
