//! The tests of the whole grammar: tokens read into trees, and the types that these declare.
#![tactic(auto)]

#[cfg(test)]
mod expressions;
#[cfg(test)]
mod grammar;
#[cfg(test)]
mod texts;
#[cfg(test)]
mod trees;
#[cfg(test)]
mod types;
