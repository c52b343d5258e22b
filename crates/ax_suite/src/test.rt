//! One test.
ghost use Rattle.std.specs.Prelude.{◌≡◌, IfOk, IfSome, MatchOption, Some, false, length, nat_lt, option_map, true};
ghost use Rattle.serde_json.specs.View.{items_view, view};
ghost use Rattle.ax_suite.specs.Tests.{ReadsTest, all_fit, fits, integers_of, list_or_none, number_or_zero};
ghost use Rattle.ax_suite.specs.declared.test.TestFault.TheVariants.{Memory};

use crate::numbers::{int, integer, integers};
use crate::shape::is_test;
use ax_prog::Test;
use serde_json::Value;
use sqlite_items::Items;
use std::alloc::{AllocError, Global};

// What can be wrong with a value, in the order in which it is told.
#[derive(Clone, Copy)]
pub(crate) enum Kind {
    BadShape,
    TooMany,
    OutOfInt,
}

#[derive(Clone, Copy)]
pub(crate) enum TestFault {
    Fault(Kind),
    Memory,
}

impl From<AllocError> for TestFault {
    ghost from_gives = { λ _ e. e ≡ Memory };

    fn from(_: AllocError) -> Self {
        TestFault::Memory
    }
}

// More than 4,096 numbers.
fn is_long(values: &[Value]) -> bool
    ensures { IfSome (integers_of (items_view values.now)) (λ zs. result ≡ nat_lt 4096 (length zs)) }
{
    values.len() > 4096
}

fn is_long_list(value: Option<&Value>) -> bool
    ensures { IfSome (list_or_none (option_map (λ v. view v.now) value.entry)) (λ zs. result ≡ nat_lt 4096 (length zs)) }
{
    match value {
        None => false,
        Some(value) => match value.as_array() {
            None => false,
            Some(values) => is_long(values),
        },
    }
}

fn read_list(alloc: Global, value: Option<&Value>) -> Result<Option<Vec<i32>>, AllocError>
    ensures { IfOk result (λ o. MatchOption o
        (IfSome (list_or_none (option_map (λ v. view v.now) value.entry)) (λ zs. all_fit zs ≡ false))
        (λ v. (list_or_none (option_map (λ v. view v.now) value.entry) ≡ Some v.items) × (all_fit v.items ≡ true))) }
{
    match value {
        None => Ok(Some(Vec::new(alloc))),
        Some(value) => match value.as_array() {
            None => Ok(None),
            Some(values) => integers(alloc, values),
        },
    }
}

fn read_ret(value: Option<&Value>) -> Option<i32>
    ensures { MatchOption result
        (IfSome (number_or_zero (option_map (λ v. view v.now) value.entry)) (λ z. fits z ≡ false))
        (λ n. (number_or_zero (option_map (λ v. view v.now) value.entry) ≡ Some n) × (fits n ≡ true)) }
{
    match value {
        None => Some(0),
        Some(value) => match integer(value) {
            None => None,
            Some(number) => int(number),
        },
    }
}

// One test, or the first that is wrong with it.
pub(crate) fn read_test(alloc: Global, value: &Value) -> Result<Test, TestFault>
    ensures { ReadsTest (view value.now) result }
{
    if !is_test(value) {
        return Err(TestFault::Fault(Kind::BadShape));
    }
    if is_long_list(value.get("in")) {
        return Err(TestFault::Fault(Kind::TooMany));
    }
    if is_long_list(value.get("out")) {
        return Err(TestFault::Fault(Kind::TooMany));
    }
    let Some(inputs) = read_list(alloc, value.get("in"))? else {
        return Err(TestFault::Fault(Kind::OutOfInt));
    };
    let Some(outputs) = read_list(alloc, value.get("out"))? else {
        return Err(TestFault::Fault(Kind::OutOfInt));
    };
    let Some(ret) = read_ret(value.get("ret")) else {
        return Err(TestFault::Fault(Kind::OutOfInt));
    };
    Ok(Test {
        inputs: Items::from_vec(inputs),
        outputs: Items::from_vec(outputs),
        ret,
    })
}
