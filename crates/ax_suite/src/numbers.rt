//! Whole numbers and lists of them.
ghost use Rattle.std.specs.Prelude.{◌≡◌, is_some, IfOk, IfSome, MatchOption, Some, false, true};
ghost use Rattle.serde_json.specs.View.{items_view, view};
ghost use Rattle.ax_suite.specs.Tests.{all_fit, int_from, integer_of, integers_of};

use serde_json::Value;
use std::alloc::{AllocError, Global};

// A whole number that is read as `u64` or `i64`.
pub(crate) fn integer(value: &Value) -> Option<i128>
    ensures { result ≡ integer_of (view value.now) }
{
    match value.as_number() {
        Some(number) => number.as_i128(),
        None => None,
    }
}

// Whether each value is such a number.
pub(crate) fn lists_integers(values: &[Value]) -> bool
    ensures { result ≡ is_some (integers_of (items_view values.now)) }
{
    let mut rest = values;
    while let [first, after @ ..] = rest {
        if integer(first).is_none() {
            return false;
        }
        rest = after;
    }
    true
}

// The number as an `int`, where it is one.
pub(crate) fn int(number: i128) -> Option<i32>
    ensures { result ≡ int_from number }
{
    i32::try_from(number).ok()
}

// The numbers of a list of such numbers, where each is an `int`.
pub(crate) fn integers(alloc: Global, values: &[Value]) -> Result<Option<Vec<i32>>, AllocError>
    ensures { IfOk result (λ o. MatchOption o
        (IfSome (integers_of (items_view values.now)) (λ zs. all_fit zs ≡ false))
        (λ v. (integers_of (items_view values.now) ≡ Some v.items) × (all_fit v.items ≡ true))) }
{
    let mut list = Vec::new(alloc);
    let mut rest = values;
    while let [first, after @ ..] = rest {
        let Some(number) = integer(first) else {
            return Ok(None);
        };
        let Some(number) = int(number) else {
            return Ok(None);
        };
        list.push(number)?;
        rest = after;
    }
    Ok(Some(list))
}
