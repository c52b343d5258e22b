//! Laws of suites.
ghost use Rattle.ax_suite.specs.Laws.{OneSuite, SuitesHaveNoFault};

/// A text spells at most one suite (a law).
pub fn one_suite()
    ensures { OneSuite }
{}

/// A text that spells a suite is refused for want of memory alone (a law).
pub fn suites_have_no_fault()
    ensures { SuitesHaveNoFault }
{}
