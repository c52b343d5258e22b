//! Laws of the order of candidates.
ghost use Rattle.ax_rank_coverage.specs.Orders.{OneCandidateOrder};

use ax_rank::one_suspicion_order;

/// The candidates of a program have one order by a formula and the runs that were seen before (a law).
pub fn one_candidate_order()
    ensures { OneCandidateOrder }
{
    one_suspicion_order();
}
