//! The report of a suite: a line for each test, and how many pass.
ghost use Rattle.std.specs.Prelude.{◌≡◌, ◌≤◌, IfOk, codes, length, string_bytes};
ghost use Rattle.ax_interp_report.specs.Texts.{pass_count, run_report, summary, test_line, test_lines, verdict_text};

use crate::verdict::{Verdict, passes};
use std::alloc::{AllocError, Global};

/// What comes of an order to run.
#[derive(Drop)]
pub struct Outcome {
    /// What is printed (docs/FORMATS.md).
    pub report: Vec<u8>,
    /// The status with which the program is to end: 0 where every test passes, and else 1.
    pub status: u8,
}

fn words(verdict: Verdict) -> &'static str
    ensures { result.now ≡ verdict_text verdict }
{
    match verdict {
        Verdict::Passes => "passes",
        Verdict::Undefined => "fails, undefined",
        Verdict::OutOfSteps => "fails, out of steps",
        Verdict::WrongOutput => "fails, wrong output",
        Verdict::WrongReturn => "fails, wrong return",
    }
}

fn line(alloc: Global, number: usize, verdict: Verdict) -> Result<String, AllocError>
    ensures { IfOk result (λ s. string_bytes s ≡ test_line number verdict) }
{
    let text = words(verdict);
    format!(in alloc; "test {number}: {text}\n")
}

// A line for each test, numbered from 1.
fn lines(alloc: Global, verdicts: &[Verdict]) -> Result<Vec<u8>, AllocError>
    ensures { IfOk result (λ text. text.items ≡ test_lines 1 verdicts.now) }
{
    let mut text = Vec::new(alloc);
    for (at, verdict) in verdicts.iter().enumerate() {
        let line = line(alloc, at + 1, *verdict)?;
        text.extend_from_slice(line.as_bytes())?;
    }
    Ok(text)
}

/// How many of the verdicts say that the program passes.
pub fn count_passing(verdicts: &[Verdict]) -> usize
    ensures count { result ≡ pass_count verdicts.now }
    ensures most { result ≤ length verdicts.now }
{
    let mut passing = 0;
    for verdict in verdicts {
        if passes(*verdict) {
            passing += 1;
        }
    }
    passing
}

fn summary_text(alloc: Global, passing: usize, count: usize) -> Result<String, AllocError>
    ensures { IfOk result (λ s. string_bytes s ≡ summary passing count) }
{
    format!(in alloc; "{passing} of {count} pass\n")
}

/// A line for each test, and how many pass.
pub fn report_of(alloc: Global, verdicts: &[Verdict]) -> Result<Vec<u8>, AllocError>
    ensures { IfOk result (λ text. text.items ≡ run_report verdicts.now) }
{
    let mut text = lines(alloc, verdicts)?;
    let last = summary_text(alloc, count_passing(verdicts), verdicts.len())?;
    text.extend_from_slice(last.as_bytes())?;
    Ok(text)
}
