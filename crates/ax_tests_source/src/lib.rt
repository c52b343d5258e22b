//! The tests of reading sources: tokens, programs, and what is written back.
#![tactic(auto)]

#[cfg(test)]
mod programs;
#[cfg(test)]
mod spans;
#[cfg(test)]
mod tokens;
#[cfg(test)]
mod written;
