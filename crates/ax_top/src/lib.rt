//! The top call: everything that the program does, over a shelf.
//!
//! An order is read and judged, with its ranker, its files and its picked numbers. An order to repair that is built is
//! then answered by a least repair, or by there being none; one to run or to rank by its report; one to prove by a model or
//! a proof; every other one is answered as not built.
#![tactic(auto)]

mod answer;
mod built;
mod call;
mod choosing;
mod delivery;
mod files;
mod judging;
mod orders;
mod proving;
mod rankers;
mod report;
mod telling;

pub use call::angelix;
pub use files::{File, Stop};
