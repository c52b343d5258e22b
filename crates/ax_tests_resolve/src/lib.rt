//! The tests of resolving, from the text of a source on.
#![tactic(auto)]

#[cfg(test)]
mod answers;
#[cfg(test)]
mod declarations;
#[cfg(test)]
mod deep;
#[cfg(test)]
mod firsts;
#[cfg(test)]
mod functions;
#[cfg(test)]
mod names;
#[cfg(test)]
mod operators;
#[cfg(test)]
mod statements;
