//! Test suites, read from JSON.
#![tactic(auto)]

mod laws;
mod numbers;
mod shape;
mod suite;
mod test;

pub use laws::{one_suite, suites_have_no_fault};
pub use suite::read_suite;
use thiserror::Error;

/// Why bytes aren't a suite. Tests are numbered from 1, and 0 stands for the suite as a whole.
#[derive(Clone, Copy, Debug, PartialEq, Eq, Error)]
pub enum SuiteFault {
    /// `serde_json` reads no value.
    #[error("not json")]
    NotJson,
    /// The suite isn't an array, or the test isn't an object of whole numbers under `in`, `out` and `ret`.
    #[error("bad shape in test {0}")]
    BadShape(u32),
    /// The suite has more than 256 tests, or a list of the test has more than 4,096 numbers.
    #[error("too many in test {0}")]
    TooMany(u32),
    /// A number of the test is below -2147483648 or above 2147483647.
    #[error("out of int in test {0}")]
    OutOfInt(u32),
    #[error("out of memory")]
    Memory,
}

#[cfg(test)]
mod tests;
