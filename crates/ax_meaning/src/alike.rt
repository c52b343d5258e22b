//! Programs that are the same, spans aside, run alike: a law over the meaning of programs.

ghost use Rattle.ax_meaning.specs.Alike.{SameRuns};

/// Programs that are the same, spans aside, have the same runs (a law).
pub fn same_runs()
    ensures { SameRuns }
{}
