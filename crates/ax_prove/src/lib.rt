//! Clause files, answered: a model of their clauses, or a proof that there is none.
#![tactic(auto)]

mod outcome;
mod proving;
mod text;

pub use outcome::Outcome;
pub use proving::prove;
