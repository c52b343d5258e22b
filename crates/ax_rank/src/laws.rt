//! Laws of the order of suspicion.
ghost use Rattle.ax_rank.specs.Suspicion.{OneSuspicionOrder};

/// Places have at most one order of suspicion (a law).
pub fn one_suspicion_order()
    ensures { OneSuspicionOrder }
{}
