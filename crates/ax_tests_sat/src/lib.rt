//! Tests of the search that learns lines, of what it tries next, and of what it watches.
#![tactic(auto)]

#[cfg(test)]
mod anew;
#[cfg(test)]
mod pick;
#[cfg(test)]
mod sat;
