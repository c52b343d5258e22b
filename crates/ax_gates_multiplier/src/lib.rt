//! Clause blocks of products of words.
#![tactic(auto)]

pub mod products;

pub use products::prod;
