//! Tests of runs of programs, by the definition and by the interpreter, and of their reports.
#![tactic(auto)]

#[cfg(test)]
mod flow;
#[cfg(test)]
mod language;
#[cfg(test)]
mod reports;
#[cfg(test)]
mod runs;
#[cfg(test)]
mod texts;
#[cfg(test)]
mod values;
