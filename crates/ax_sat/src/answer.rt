//! The log of a search, and its answer.

use ax_proof::{Assignment, Line};

/// The lines learnt so far. Each has reverse unit propagation from the clauses and the lines before it.
#[derive(Drop, Debug)]
pub struct Log {
    pub lines: Vec<Line>,
}

/// What a search found.
#[derive(Drop, Debug)]
pub enum Answer {
    /// The clauses and the assumptions hold under this assignment.
    Model(Assignment),
    /// The log is a proof that the clauses and the assumptions have no model.
    Refuted,
    /// As many new lines as were allowed are in the log, without an answer yet.
    Budget,
}
