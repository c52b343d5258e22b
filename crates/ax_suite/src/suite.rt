//! A suite.
ghost use Rattle.std.specs.Prelude.{◌≡◌, ◌≤◌, Some, length};
ghost use Rattle.serde_json.specs.Find.{as_array};
ghost use Rattle.serde_json.specs.View.{items_view, view};
ghost use Rattle.ax_suite.specs.Suites.{Reads, ReadsArray, ReadsTests, stop_at};
ghost use Rattle.ax_suite.specs.declared.suite.Stop.TheVariants.{Memory};

use crate::SuiteFault;
use crate::test::{Kind, TestFault, read_test};
use ax_prog::{Suite, Test};
use serde_json::Value;
use sqlite_items::Items;
use std::alloc::{AllocError, Global};

// The first that is wrong: the number of the test, or 0 for the suite as a whole.
#[derive(Clone, Copy)]
pub(crate) enum Stop {
    At(u32, Kind),
    Memory,
}

impl From<AllocError> for Stop {
    ghost from_gives = { λ _ e. e ≡ Memory };

    fn from(_: AllocError) -> Self {
        Stop::Memory
    }
}

fn stop_at(fault: TestFault, number: u32) -> Stop
    ensures { result ≡ stop_at fault number }
{
    match fault {
        TestFault::Fault(kind) => Stop::At(number, kind),
        TestFault::Memory => Stop::Memory,
    }
}

// The tests of an array, or the number of the first value that is none.
fn read_tests(alloc: Global, values: &[Value]) -> Result<Items<Test>, Stop>
    requires { length values.now ≤ 256 }
    ensures { ReadsTests (items_view values.now) result }
{
    let mut tests = Items::new(alloc);
    let mut rest = values;
    let mut number: u32 = 1;
    while let [first, after @ ..] = rest {
        match read_test(alloc, first) {
            Ok(test) => tests.push(test)?,
            Err(fault) => return Err(stop_at(fault, number)),
        }
        rest = after;
        number += 1;
    }
    Ok(tests)
}

fn read_array(alloc: Global, values: &[Value]) -> Result<Suite, Stop>
    ensures { ReadsArray (Some (items_view values.now)) result }
{
    if values.len() > 256 {
        return Err(Stop::At(0, Kind::TooMany));
    }
    match read_tests(alloc, values) {
        Ok(tests) => Ok(Suite { tests }),
        Err(stop) => Err(stop),
    }
}

fn read_value(alloc: Global, value: &Value) -> Result<Suite, Stop>
    ensures { ReadsArray (as_array (view value.now)) result }
{
    match value.as_array() {
        Some(values) => read_array(alloc, values),
        None => Err(Stop::At(0, Kind::BadShape)),
    }
}

/// The suite that a JSON text spells: an array of at most 256 objects with no keys but `in`, `out` and `ret`.
///
/// `in` and `out` are arrays of at most 4,096 whole numbers, and empty where absent. `ret` is a whole number, and 0
/// where absent. Each is from -2147483648 to 2147483647. Where a key stands twice, the last value counts. The first
/// fault is told: that the bytes are no JSON, that the value is no array, that it has too many tests, and then the
/// first fault of the first test that has one, where a bad shape comes before too many numbers, and these before a
/// number out of range.
pub fn read_suite(alloc: Global, bytes: &[u8]) -> Result<Suite, SuiteFault>
    ensures { Reads bytes.now result }
{
    match Value::from_slice(alloc, bytes) {
        Ok(value) => match read_value(alloc, &value) {
            Ok(suite) => Ok(suite),
            Err(Stop::At(number, Kind::BadShape)) => Err(SuiteFault::BadShape(number)),
            Err(Stop::At(number, Kind::TooMany)) => Err(SuiteFault::TooMany(number)),
            Err(Stop::At(number, Kind::OutOfInt)) => Err(SuiteFault::OutOfInt(number)),
            Err(Stop::Memory) => Err(SuiteFault::Memory),
        },
        Err(error) => {
            if error.is_memory() {
                Err(SuiteFault::Memory)
            } else {
                Err(SuiteFault::NotJson)
            }
        }
    }
}
