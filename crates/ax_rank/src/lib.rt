//! Rankers: which places of a program are suspicious, by the runs that cover them.
//! The three rankers of the program.
//! The order of suspicion: the places of a program by their scores.
#![tactic(auto)]

mod formulas;
mod kept;
mod laws;
mod places;
mod ranker;
mod rankers;

pub use laws::one_suspicion_order;
pub use places::{Standing, rank};
pub use ranker::{Ranker, Score, SeenRun};
pub use rankers::{Jaccard, Ochiai, Tarantula};
