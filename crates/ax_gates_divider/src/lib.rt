//! Clause blocks of quotients and remainders of words.
#![tactic(auto)]

pub mod quotients;

pub use quotients::divide;
