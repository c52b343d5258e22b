//! The clauses of each operator of terms, with the operator's value.
//! The clause list of terms, and the valuation of its models.
#![tactic(auto)]

mod blasted;
mod block;
pub mod blocks;
mod valuation;

pub use blasted::{Blasted, clauses};
pub use blocks::{test_block, word_block};
pub use valuation::model_to_valuation;
