//! Tests of unit propagation with watched literals, and of clause files answered by a model or a proof.
#![tactic(auto)]

#[cfg(test)]
mod proving;
#[cfg(test)]
mod watching;
