//! The acts of a plain run: what each gives and the state afterwards, exactly as the definitions of `ax_meaning` say.
//!
//! Each act takes the state by `&mut`. Where it stops the run, the state is the one in which the run stops.
//! What begins and ends runs and calls, and what a run that is over shows: the same for each machine that runs programs.
#![tactic(auto)]

pub mod assigning;
pub mod calling;
pub mod deciding;
pub mod declaring;
pub mod passing;
pub mod printing;
pub mod sources;
pub mod start;
pub mod steps;
mod zeros;
