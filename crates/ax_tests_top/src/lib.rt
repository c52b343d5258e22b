//! The tests of the top call: its statuses and reports, what it writes, and what it leaves where calls fail.
#![tactic(auto)]

#[cfg(test)]
mod orders;
