//! Tests of terms, of the clauses of their operators, and of C's operators as terms.
#![tactic(auto)]

#[cfg(test)]
mod blasting;
#[cfg(test)]
mod blocks;
#[cfg(test)]
mod operators;
#[cfg(test)]
mod terms;
