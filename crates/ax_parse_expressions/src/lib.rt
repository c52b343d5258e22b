//! Reading expressions: the tree that the tokens from a place on begin with, and the place behind it.
#![tactic(auto)]

pub mod expressions;
pub mod faults;
mod leaves;
mod nodes;
pub mod tokens;

pub use expressions::{args, postfix, unary, whole, whole_until};
pub use faults::ReadFault;
