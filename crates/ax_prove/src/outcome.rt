//! What comes of the clauses of a file.

ghost use Rattle.std.specs.Prelude.{◌≡◌, option_map};
ghost use Rattle.ax_prove.specs.Outcomes.{lines_of, report_of, status_of};

/// A model, a proof that there is none, or the lines of an unfinished proof, as text (docs/FORMATS.md).
#[derive(Drop)]
pub enum Outcome {
    /// What is reported of the model: that there is one, and the literals that it makes true.
    Model { report: Vec<u8> },
    /// A line for each line of the proof.
    Refuted { proof: Vec<u8> },
    /// A line for each line of the unfinished proof.
    Budget { lines: Vec<u8> },
}

impl Outcome {
    /// What is printed.
    pub fn report(&self) -> &[u8]
        ensures { result.now ≡ report_of self.now }
    {
        match self {
            Outcome::Model { report } => report.as_slice(),
            Outcome::Refuted { .. } => b"s UNSATISFIABLE\n",
            Outcome::Budget { .. } => b"budget used up\n",
        }
    }

    /// What is put under PROOF, where something is.
    pub fn lines(&self) -> Option<&[u8]>
        ensures { option_map (λ s. s.now) result ≡ lines_of self.now }
    {
        match self {
            Outcome::Model { .. } => None,
            Outcome::Refuted { proof } => Some(proof.as_slice()),
            Outcome::Budget { lines } => Some(lines.as_slice()),
        }
    }

    /// The status with which the program is to end: 0 where there is no model, 1 where there is one, and 9 where the budget
    /// is used up.
    pub fn status(&self) -> u8
        ensures { result ≡ status_of self.now }
    {
        match self {
            Outcome::Refuted { .. } => 0,
            Outcome::Model { .. } => 1,
            Outcome::Budget { .. } => 9,
        }
    }
}
