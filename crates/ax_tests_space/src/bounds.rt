//! Worked examples of keeping the bounds.

use ax_least::keeps_bounds;
use ax_meaning::{Run, RunEnd};
use ax_prog::{Bounds, SlotId};
use sqlite_items::Items;
use std::alloc::{AllocError, Global};

/// A run of 10 steps, with 3, 0, 2 and all 64-bit evaluations of its slots.
fn sample(alloc: Global) -> Result<Run, AllocError> {
    let end = RunEnd::Returned {
        out: Items::new(alloc),
        ret: 0,
    };
    let counts = Items::from_slice(alloc, &[3, 0, 2, u64::MAX])?;
    Ok(Run {
        end,
        used: 10,
        counts,
    })
}

/// The chosen slots, the bounds on steps and on evaluations, and whether the run keeps them.
const ROWS: [(&str, &[SlotId], u32, u32, bool); 6] = [
    ("both bounds reached", &[SlotId(0), SlotId(2)], 10, 5, true),
    ("one step too many", &[SlotId(0), SlotId(2)], 9, 5, false),
    (
        "one evaluation too many",
        &[SlotId(0), SlotId(2)],
        10,
        4,
        false,
    ),
    ("never evaluated", &[SlotId(1)], 10, 0, true),
    ("evaluated too often", &[SlotId(3)], 10, 0, false),
    ("nothing chosen", &[], 10, 0, true),
];

#[test]
fn runs_and_bounds(rt: HostRuntime) -> Result<(), AllocError> {
    let run = sample(rt.alloc())?;
    for (row, chosen, steps, evals, keeps) in ROWS {
        let bounds = Bounds {
            steps,
            evals,
            grow: 0,
        };
        assert_eq!(rt; keeps_bounds(&run, &bounds, chosen), keeps, "{row}");
    }
    Ok(())
}
