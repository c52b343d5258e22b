//! Laws of verdicts.
ghost use Rattle.ax_interp_report.specs.Verdicts.{OneVerdict};

/// A run has at most one verdict on a test (a law).
pub fn one_verdict()
    ensures { OneVerdict }
{}
