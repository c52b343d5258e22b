//! The shape of a test.
ghost use Rattle.std.specs.Prelude.{◌≡◌, is_some, option_map, string_bytes};
ghost use Rattle.std.specs.BTreeMap.{keys};
ghost use Rattle.std.specs.List.{list_all};
ghost use Rattle.serde_json.specs.View.{view};
ghost use Rattle.ax_suite.specs.Tests.{is_known_key, is_known_object, list_or_none, number_or_zero, test_of};

use crate::numbers::{integer, lists_integers};
use serde_json::{Map, Value};

fn is_known(key: &String) -> bool
    ensures { result ≡ is_known_key (string_bytes key.now) }
{
    key.as_str() == "in" || key.as_str() == "out" || key.as_str() == "ret"
}

fn has_known_keys(map: &Map<String, Value>) -> bool
    ensures { result ≡ list_all (λ k. is_known_key (string_bytes k)) (keys map.now) }
{
    map.keys().all(is_known)
}

fn is_list(value: Option<&Value>) -> bool
    ensures { result ≡ is_some (list_or_none (option_map (λ v. view v.now) value.entry)) }
{
    match value {
        None => true,
        Some(value) => match value.as_array() {
            Some(values) => lists_integers(values),
            None => false,
        },
    }
}

fn is_whole(value: Option<&Value>) -> bool
    ensures { result ≡ is_some (number_or_zero (option_map (λ v. view v.now) value.entry)) }
{
    match value {
        None => true,
        Some(value) => integer(value).is_some(),
    }
}

fn is_known_object(value: &Value) -> bool
    ensures { result ≡ is_known_object (view value.now) }
{
    match value.as_object() {
        Some(map) => has_known_keys(map),
        None => false,
    }
}

// Whether a value has the shape of a test.
pub(crate) fn is_test(value: &Value) -> bool
    ensures { result ≡ is_some (test_of (view value.now)) }
{
    if !is_known_object(value) {
        return false;
    }
    if !is_list(value.get("in")) {
        return false;
    }
    if !is_list(value.get("out")) {
        return false;
    }
    is_whole(value.get("ret"))
}
