//! What a search for a model tries next: which variable, with which value, and when to begin anew.
//! Watching fewer clauses: those alone of which no other part is watched.
#![tactic(auto)]

mod anew;
mod choice;
mod due;
pub mod order;
pub mod pace;
mod parts;

pub use anew::{put, renew};
pub use due::Due;
pub use order::Order;
pub use pace::Pace;
