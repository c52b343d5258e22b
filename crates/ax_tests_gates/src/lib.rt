//! Tests of clauses, proofs, clause files and the clause blocks of circuits.
#![tactic(auto)]

#[cfg(test)]
mod adders;
#[cfg(test)]
mod circuits;
#[cfg(test)]
mod counter;
#[cfg(test)]
mod dimacs;
#[cfg(test)]
mod gates;
#[cfg(test)]
mod products;
#[cfg(test)]
mod proofs;
