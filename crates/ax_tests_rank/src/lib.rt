//! The tests of the rankers, and of the orders of suspicion.
#![tactic(auto)]

#[cfg(test)]
mod rankers;
#[cfg(test)]
mod ranking;
