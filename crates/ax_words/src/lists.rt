//! Options whose text is a list, with commas between its parts.
ghost use Rattle.std.specs.Prelude.{◌≡◌, ◌≤◌, ◌<◌, ℕ, ◌∷◌, [], IfOk, IfSome, option_map, MatchOption, length};
ghost use Rattle.ax_words.specs.Lists.{next_pick, no_sets, once, parts_of, picks_of, sets_of, with_set};

use crate::numbers::number;
use ax_prog::Sets;
use sqlite_items::Items;
use std::alloc::{AllocError, Global};

/// The sets of labels where none is named.
pub fn no_set() -> Sets
    ensures { result ≡ no_sets }
{
    Sets {
        cmp: false,
        logic: false,
        arith: false,
        mul: false,
        bits: false,
        vars: false,
        consts: false,
        guard: false,
    }
}

// The first part of a list, and what stands behind its comma, where it has one.
fn split(text: &str) -> (&str, Option<&str>)
    ensures parts { MatchOption result.1 (parts_of text.now ≡ result.0.now ∷ []) (λ rest. (parts_of text.now ≡ result.0.now ∷ parts_of rest.now)) }
    ensures shorter { IfSome result.1 (λ rest. length rest.now < length text.now) }
{
    match text.split_once(',') {
        Some((first, rest)) => (first, Some(rest)),
        None => (text, None),
    }
}

// A picked number, where the text writes one above the last.
fn picked(part: &str, last: u32) -> Option<u32>
    ensures { result ≡ next_pick last part.now }
{
    match number(part) {
        Some(n) => if (last as u64) < n && n <= 20_000 {
            Some(n as u32)
        } else {
            None
        },
        None => None,
    }
}

fn if_new(already: bool, sets: Sets) -> Option<Sets>
    ensures { result ≡ once already sets }
{
    if already { None } else { Some(sets) }
}

// The sets with one more, where the text names one that isn't there yet.
fn with_named(name: &str, sets: Sets) -> Option<Sets>
    ensures { result ≡ with_set name.now sets }
{
    if name == "cmp" {
        if_new(sets.cmp, Sets { cmp: true, ..sets })
    } else if name == "logic" {
        if_new(
            sets.logic,
            Sets {
                logic: true,
                ..sets
            },
        )
    } else if name == "arith" {
        if_new(
            sets.arith,
            Sets {
                arith: true,
                ..sets
            },
        )
    } else if name == "mul" {
        if_new(sets.mul, Sets { mul: true, ..sets })
    } else if name == "bits" {
        if_new(sets.bits, Sets { bits: true, ..sets })
    } else if name == "vars" {
        if_new(sets.vars, Sets { vars: true, ..sets })
    } else if name == "consts" {
        if_new(
            sets.consts,
            Sets {
                consts: true,
                ..sets
            },
        )
    } else if name == "guard" {
        if_new(
            sets.guard,
            Sets {
                guard: true,
                ..sets
            },
        )
    } else {
        None
    }
}

/// The sets that a list names, where it names at least one, each known and none twice.
pub fn sets_in(text: &str) -> Option<Sets>
    ensures { result ≡ sets_of text.now }
{
    let mut sets = no_set();
    let mut rest = text;
    'parts: loop {
        let (part, more) = split(rest);
        let Some(named) = with_named(part, sets) else {
            return None;
        };
        let Some(after) = more else {
            return Some(named);
        };
        sets = named;
        rest = after;
    }
}

/// The numbers that a list writes, where they are one to four, strictly rising, from 1 to 20,000.
pub fn picks_in(alloc: Global, text: &str) -> Result<Option<Items<u32>>, AllocError>
    ensures { IfOk result (λ picks. picks ≡ picks_of text.now) }
{
    let mut picks = Items::new(alloc);
    let mut last = 0;
    let mut rest = text;
    'parts: loop {
        let (part, more) = split(rest);
        if picks.len() == 4 {
            return Ok(None);
        }
        let Some(n) = picked(part, last) else {
            return Ok(None);
        };
        picks.push(n)?;
        let Some(after) = more else {
            return Ok(Some(picks));
        };
        last = n;
        rest = after;
    }
}
