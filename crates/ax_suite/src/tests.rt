use crate::{SuiteFault, read_suite};
use std::alloc::{AllocError, Global};

// Texts, with how many tests they have or what is wrong with them.
const TEXTS: [(&str, Result<usize, SuiteFault>); 17] = [
    ("[]", Ok(0)),
    ("[{}]", Ok(1)),
    (
        " [{\"in\": [1, 2], \"out\": [1], \"ret\": -5}, {\"in\": [-2147483648]}] ",
        Ok(2),
    ),
    ("{", Err(SuiteFault::NotJson)),
    ("[{}] x", Err(SuiteFault::NotJson)),
    ("{}", Err(SuiteFault::BadShape(0))),
    ("[1]", Err(SuiteFault::BadShape(1))),
    ("[{}, {\"in\": 1}]", Err(SuiteFault::BadShape(2))),
    ("[{\"inputs\": []}]", Err(SuiteFault::BadShape(1))),
    ("[{\"ret\": null}]", Err(SuiteFault::BadShape(1))),
    ("[{\"in\": [1.0]}]", Err(SuiteFault::BadShape(1))),
    ("[{\"ret\": -0}]", Err(SuiteFault::BadShape(1))),
    ("[{\"ret\": 1e2}]", Err(SuiteFault::BadShape(1))),
    (
        "[{\"ret\": 18446744073709551616}]",
        Err(SuiteFault::BadShape(1)),
    ),
    ("[{\"in\": [2147483648]}]", Err(SuiteFault::OutOfInt(1))),
    (
        "[{\"ret\": 18446744073709551615}, 1]",
        Err(SuiteFault::OutOfInt(1)),
    ),
    ("[{\"ret\": \"x\", \"ret\": 3}]", Ok(1)),
];

// How many tests the suite of a text has, or what is wrong with it.
fn count(alloc: Global, text: &str) -> Result<usize, SuiteFault> {
    let suite = read_suite(alloc, text.as_bytes())?;
    Ok(suite.tests.len())
}

#[test]
fn texts_are_suites_or_faulty(rt: HostRuntime) {
    for (text, want) in &TEXTS {
        assert!(rt; count(rt.alloc(), text) == *want, "at {text}");
    }
}

// A text of `before`, so many times `middle`, and `behind`.
fn repeated(
    alloc: Global,
    before: &str,
    middle: &str,
    times: u32,
    behind: &str,
) -> Result<String, AllocError> {
    let mut text = String::from_str(alloc, before)?;
    for _ in 0..times {
        text.push_str(middle)?;
    }
    text.push_str(behind)?;
    Ok(text)
}

#[test]
fn lists_have_an_end(rt: HostRuntime) -> Result<(), AllocError> {
    let rows = [
        ("[{}", ",{}", 255, "]", Ok(256)),
        ("[{}", ",{}", 256, "]", Err(SuiteFault::TooMany(0))),
        ("[{\"out\":[7", ",7", 4095, "]}]", Ok(1)),
        (
            "[{\"out\":[7",
            ",7",
            4096,
            "]}]",
            Err(SuiteFault::TooMany(1)),
        ),
    ];
    let alloc = rt.alloc();
    for (before, middle, times, behind, want) in &rows {
        let text = repeated(alloc, before, middle, *times, behind)?;
        assert!(rt; count(alloc, &text) == *want, "{times} times {middle}");
    }
    Ok(())
}

#[test]
fn a_suite_has_its_numbers(rt: HostRuntime) {
    let text = b"[{\"in\":[1,2],\"out\":[3]},{\"ret\":4}]";
    match read_suite(rt.alloc(), text) {
        Ok(suite) => {
            let tests = suite.tests.as_slice();
            assert!(rt; tests.len() == 2);
            assert!(rt; tests[0].inputs.as_slice() == [1, 2].as_slice());
            assert!(rt; tests[0].outputs.as_slice() == [3].as_slice());
            assert!(rt; tests[0].ret == 0);
            assert!(rt; tests[1].inputs.is_empty());
            assert!(rt; tests[1].ret == 4);
        }
        Err(fault) => assert!(rt; false, "{fault:?}"),
    }
}
