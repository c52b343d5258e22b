//! The tests of the outside, of orders, and of what every layer speaks of.
#![tactic(auto)]

#[cfg(test)]
mod printing;
#[cfg(test)]
mod programs;
#[cfg(test)]
mod shelves;
#[cfg(test)]
mod values;
#[cfg(test)]
mod words;
