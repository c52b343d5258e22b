//! Laws of words.
ghost use Rattle.ax_words.specs.Laws.{OneOrder, OrdersHaveNoFault};

/// Words give at most one order (a law).
pub fn one_order()
    ensures { OneOrder }
{}

/// Words that give an order are refused for want of memory alone (a law).
pub fn orders_have_no_fault()
    ensures { OrdersHaveNoFault }
{}
