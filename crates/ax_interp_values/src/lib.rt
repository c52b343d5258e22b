//! What expressions, places and pointer expressions are in a store, and what a store is after a change: exactly as the
//! definitions of `ax_meaning` say.
//!
//! Evaluating takes no memory. It evaluates an operand only where C does, and passes the first undefined act on.
#![tactic(auto)]

pub mod layout;
pub mod operators;
pub mod pointers;
pub mod store;
pub mod types;
pub mod values;
