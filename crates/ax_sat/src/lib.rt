//! A search for a model of clauses that learns lines, and logs them as a proof.
#![tactic(auto)]

pub mod analysis;
pub mod answer;
pub mod base;
pub mod counts;
pub mod descent;
pub mod lesson;
pub mod levels;
pub mod marks;
pub mod over;
pub mod search;

pub use answer::{Answer, Log};
pub use base::{Base, solve};
pub use counts::Counts;
pub use over::{are_over, is_over};
