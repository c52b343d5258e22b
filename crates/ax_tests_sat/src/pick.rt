//! The order of variables, and the pace of restarts.

use ax_proof::Lit;
use ax_sat_policy::{Order, Pace};
use ax_watch::Watch;
use std::alloc::Global;
use std::test::Fail;

/// The first units of Luby's sequence, as it is defined, and a hundred lines before the first of them is over.
#[test]
fn the_pace_is_lubys(rt: HostRuntime) {
    let mut pace = Pace::new();
    for _ in 0..100 {
        assert!(rt; !pace.is_over());
    }
    assert!(rt; pace.is_over());
    let mut pace = Pace::new();
    for units in [1, 1, 2, 1, 1, 2, 4, 1, 1, 2, 1, 1, 2, 4, 8] {
        assert_eq!(rt; pace.units(), units);
        pace.advance();
    }
}

/// An order of four variables: 1 was made busy once, and after a line 2 twice and 3 once. These are open again.
fn busy(alloc: Global) -> Result<Order, Fail> {
    let mut order = Order::new(alloc, 4)?;
    order.bump(1);
    order.decay()?;
    for x in [2, 3, 2] {
        order.bump(x);
    }
    for lit in [Lit::new(1, true), Lit::new(2, false), Lit::new(3, true)] {
        order.release(lit)?;
    }
    Ok(order)
}

/// What was made busy more often, or later, comes first, by the literal that was true last. A true one is passed over.
#[test]
fn the_busiest_comes_first(rt: HostRuntime) -> Result<(), Fail> {
    let alloc = rt.alloc();
    let mut order = busy(alloc)?;
    let mut watch = Watch::new(alloc, 4)?;
    watch.assume(Lit::new(1, true));
    for lit in [
        Some(Lit::new(2, false)),
        Some(Lit::new(3, true)),
        Some(Lit::new(4, false)),
        None,
    ] {
        assert_eq!(rt; order.next(&watch), lit);
    }
    Ok(())
}
