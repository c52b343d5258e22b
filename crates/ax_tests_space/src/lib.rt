//! Tests of spaces of patches, of keeping the bounds, and of least repairs.
#![tactic(auto)]

#[cfg(test)]
mod bounds;
#[cfg(test)]
mod regions;
#[cfg(test)]
mod repairs;
#[cfg(test)]
mod spaces;
#[cfg(test)]
mod texts;
