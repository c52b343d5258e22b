//! Worked examples of reports.

use crate::texts::{BELOW, MARKS, program_of};
use ax_interp_report::run;
use ax_suite::read_suite;
use std::test::Fail;

/// The tests, the bound on steps, the status and the report.
const ROWS: [(&str, u32, u8, &str); 9] = [
    (
        "[{\"in\":[1,2],\"out\":[1]}]",
        7,
        0,
        "test 1: passes\n1 of 1 pass\n",
    ),
    (
        "[{\"in\":[1,2],\"out\":[1]}]",
        6,
        1,
        "test 1: fails, out of steps\n0 of 1 pass\n",
    ),
    (
        "[{\"in\":[1],\"out\":[1]}]",
        100,
        1,
        "test 1: fails, undefined\n0 of 1 pass\n",
    ),
    (
        "[{\"in\":[2,2],\"out\":[1]}]",
        100,
        1,
        "test 1: fails, wrong output\n0 of 1 pass\n",
    ),
    (
        "[{\"in\":[2,2],\"out\":[1],\"ret\":5}]",
        100,
        1,
        "test 1: fails, wrong output\n0 of 1 pass\n",
    ),
    (
        "[{\"in\":[1,2],\"out\":[1],\"ret\":5}]",
        100,
        1,
        "test 1: fails, wrong return\n0 of 1 pass\n",
    ),
    (
        "[{\"in\":[1,2],\"out\":[1,1]}]",
        100,
        1,
        "test 1: fails, wrong output\n0 of 1 pass\n",
    ),
    (
        "[{\"in\":[1,2],\"out\":[1]},{\"in\":[2,2],\"out\":[1]},{\"in\":[3,2],\"out\":[0]},{\"in\":[5,7],\"out\":[1]}]",
        10_000,
        1,
        "test 1: passes\ntest 2: fails, wrong output\ntest 3: passes\ntest 4: passes\n3 of 4 pass\n",
    ),
    ("[]", 1, 0, "0 of 0 pass\n"),
];

#[test]
fn suites_are_reported(rt: HostRuntime) -> Result<(), Fail> {
    let program = program_of(rt.alloc(), BELOW)?;
    for (tests, steps, status, report) in ROWS {
        let suite = read_suite(rt.alloc(), tests.as_bytes())
            .ok()
            .ok_or("no suite")?;
        let outcome = run(rt.alloc(), &program, &suite, steps)?;
        assert_eq!(rt; outcome.status, status, "{tests}");
        assert_eq!(rt; outcome.report.as_slice(), report.as_bytes(), "{tests}");
    }
    Ok(())
}

/// The suite `marks.json`.
const MARKS_TESTS: &str =
    "[{\"in\":[3,40,60,120,0],\"out\":[66,100]},{\"in\":[1,-5,0],\"out\":[0,0]},{\"in\":[0,0],\"out\":[0,0]},{\"in\":[2,40,60,1],\"out\":[50,60,1]},{\"in\":[2,20,40,1],\"out\":[30,40,0]}]";

#[test]
fn marks_are_reported(rt: HostRuntime) -> Result<(), Fail> {
    let program = program_of(rt.alloc(), MARKS)?;
    let suite = read_suite(rt.alloc(), MARKS_TESTS.as_bytes())
        .ok()
        .ok_or("no suite")?;
    let outcome = run(rt.alloc(), &program, &suite, 10_000)?;
    let report =
        "test 1: passes\ntest 2: passes\ntest 3: passes\ntest 4: fails, wrong output\ntest 5: passes\n4 of 5 pass\n";
    assert_eq!(rt; outcome.status, 1);
    assert_eq!(rt; outcome.report.as_slice(), report.as_bytes());
    Ok(())
}
