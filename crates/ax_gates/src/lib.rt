//! Clause blocks of gates over given literals, and of bitwise operators on words.
#![tactic(auto)]

pub mod append;
pub mod gates;
pub mod words;

pub use append::{new_variable, push_clause, push_clauses};
pub use gates::{add1, and_gate, maj, mux, none_gate, parity_gate, xor_gate};
pub use words::{and_word, or_word, pick_word, xor_word};
