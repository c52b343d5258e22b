//! Values for places: what numbers, calls, values for a place of some type and targets of changes are behind what a source has
//! said so far, with the state of that as code.
//!
//! Each contract is an equation with the walk of `ax_names_rules`, whose laws say what the walk has to do with the rules.
#![tactic(auto)]

mod calls;
pub mod states;
mod stops;
mod values;

pub use calls::{Called, call_of, given_for};
pub use stops::Stop;
pub use values::{slot_of, target_of};
