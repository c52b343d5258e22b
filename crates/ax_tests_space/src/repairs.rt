//! Least repairs of a program, found by hand.

use crate::texts::{COMPARISONS, program_of};
use ax_prog::{Bounds, SlotId};
use ax_repair::{Outcome, repair};
use ax_space::are_chosen;
use ax_suite::read_suite;
use std::alloc::Global;
use std::test::Fail;

const SOURCE: &str =
    "int main() { int x; int y; scanf(\"%d\", &x); scanf(\"%d\", &y); if (x < y) printf(\"%d\", 1); else printf(\"%d\", 0); return 0; }";

const AT_MOST: &str =
    "int main() { int x; int y; scanf(\"%d\", &x); scanf(\"%d\", &y); if ((x <= y)) printf(\"%d\", 1); else printf(\"%d\", 0); return 0; }";

const OTHER: &str =
    "int main() { int x; int y; scanf(\"%d\", &x); scanf(\"%d\", &y); if ((x != y)) printf(\"%d\", 1); else printf(\"%d\", 0); return 0; }";

/// Whether this comes of the source's condition under these tests and so many evaluations: the cost and the written text, or none.
fn comes_to(
    alloc: Global,
    tests: &str,
    evals: u32,
    wanted: Option<(u64, &str)>,
) -> Result<bool, Fail> {
    let program = program_of(alloc, SOURCE)?;
    let suite = read_suite(alloc, tests.as_bytes()).ok().ok_or("no suite")?;
    let chosen = [SlotId(0)];
    if !are_chosen(&program, &chosen) {
        return Err(Fail::from("no candidate"));
    }
    let bounds = Bounds {
        steps: 100,
        evals,
        grow: 1,
    };
    let source = SOURCE.as_bytes();
    match (
        repair(
            alloc,
            &program,
            source,
            &suite,
            &COMPARISONS,
            &bounds,
            &chosen,
        )?,
        wanted,
    ) {
        (Outcome::NoPatch, None) => Ok(true),
        (Outcome::Repaired(it), Some((cost, text))) => {
            Ok(it.cost == cost && it.source.as_slice() == text.as_bytes())
        }
        _ => Ok(false),
    }
}

/// The tests, the bound on evaluations, the cost and the source. The condition is evaluated once in each run.
const ROWS: [(&str, u32, Option<(u64, &str)>); 8] = [
    (
        "[{\"in\":[1,2],\"out\":[1]},{\"in\":[2,2],\"out\":[1]},{\"in\":[3,2],\"out\":[0]},{\"in\":[5,7],\"out\":[1]}]",
        16,
        Some((1, AT_MOST)),
    ),
    (
        "[{\"in\":[1,2],\"out\":[1]},{\"in\":[2,2],\"out\":[0]},{\"in\":[3,2],\"out\":[1]}]",
        16,
        Some((1, OTHER)),
    ),
    (
        "[{\"in\":[1,2],\"out\":[1]},{\"in\":[3,2],\"out\":[0]}]",
        16,
        Some((0, SOURCE)),
    ),
    ("[]", 16, Some((0, SOURCE))),
    ("[]", 0, Some((0, SOURCE))),
    (
        "[{\"in\":[1,2],\"out\":[1]},{\"in\":[1,2],\"out\":[0]}]",
        16,
        None,
    ),
    ("[{\"in\":[1,2],\"out\":[1]}]", 0, None),
    ("[{\"in\":[1,2],\"out\":[1]}]", 1, Some((0, SOURCE))),
];

#[test]
fn least_repairs(rt: HostRuntime) -> Result<(), Fail> {
    for (tests, evals, wanted) in ROWS {
        assert!(rt;
            comes_to(rt.alloc(), tests, evals, wanted)?,
            "{tests} within {evals}"
        );
    }
    Ok(())
}

const EQUAL: &str =
    "int main() { int x; int y; scanf(\"%d\", &x); scanf(\"%d\", &y); if ((x == y)) printf(\"%d\", 1); else printf(\"%d\", 0); return 0; }";

#[test]
fn one_of_two_least_repairs(rt: HostRuntime) -> Result<(), Fail> {
    let tests = "[{\"in\":[2,2],\"out\":[1]},{\"in\":[3,2],\"out\":[0]}]";
    let equal = comes_to(rt.alloc(), tests, 16, Some((1, EQUAL)))?;
    let at_most = comes_to(rt.alloc(), tests, 16, Some((1, AT_MOST)))?;
    assert!(rt; equal || at_most);
    Ok(())
}
