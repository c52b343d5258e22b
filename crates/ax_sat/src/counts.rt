//! How much a search did.

ghost use Rattle.std.specs.Prelude.{◌≡◌};

/// What a search did so far: the false clauses that lines were learnt from, the literals that were decided, and those that
/// were made true by clauses. They are for comparing searches, and no answer rests on them.
#[derive(Clone, Copy, PartialEq, Eq, Debug)]
pub struct Counts {
    pub conflicts: u64,
    pub decisions: u64,
    pub propagations: u64,
}

impl Counts {
    /// Nothing was done yet.
    pub fn new() -> Counts
        ensures { result ≡ record { conflicts = 0; decisions = 0; propagations = 0 } }
    {
        Counts {
            conflicts: 0,
            decisions: 0,
            propagations: 0,
        }
    }
}
