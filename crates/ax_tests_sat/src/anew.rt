//! Watches that begin anew.

use crate::sat::clause;
use ax_proof::Clause;
use ax_sat_policy::{Due, put, renew};
use ax_watch::Watch;
use std::alloc::Global;
use std::process::Abort;
use std::test::Fail;

/// Puts the clauses of these numbers behind those that are watched.
fn add_all(rt: &impl Abort, alloc: Global, watch: &mut Watch, rows: &[&[i32]]) -> Result<(), Fail> {
    for numbers in rows {
        add(watch, &clause(rt, alloc, numbers)?)?;
    }
    Ok(())
}

/// Puts a clause behind those that are watched.
fn add(watch: &mut Watch, one: &Clause) -> Result<(), Fail> {
    if !watch.covers(one) {
        return Err(Fail::from("a variable too high"));
    }
    put(watch, one)?;
    Ok(())
}

/// Whether the clause at this place is this one.
fn stands(watch: &Watch, place: usize, one: &Clause) -> bool {
    place < watch.len() && watch.clause(place) == one.lits()
}

/// Whether those that are watched are the clauses of these numbers, in this order.
fn are(rt: &impl Abort, alloc: Global, watch: &Watch, rows: &[&[i32]]) -> Result<bool, Fail> {
    for (place, numbers) in rows.iter().enumerate() {
        if !stands(watch, place, &clause(rt, alloc, numbers)?) {
            return Ok(false);
        }
    }
    Ok(watch.len() == rows.len())
}

const CLAUSES: [&[i32]; 6] = [
    &[1, 2, 3],
    &[-1, 3],
    &[1, 2, -4],
    &[1, 2],
    &[-2, 3, 4],
    &[-2, 4],
];

const CORE: [&[i32]; 3] = [&[-1, 3], &[1, 2], &[-2, 4]];

/// Of these clauses those stay of which no later one is a part, in their order.
#[test]
fn a_core_stays(rt: HostRuntime) -> Result<(), Fail> {
    let alloc = rt.alloc();
    let mut watch = Watch::new(alloc, 4)?;
    add_all(&rt, alloc, &mut watch, &CLAUSES)?;
    renew(alloc, &mut watch)?;
    assert!(rt; are(&rt, alloc, &watch, &CORE)?);
    Ok(())
}

/// Two thousand lines before the first time, and five hundred more before the second.
#[test]
fn the_parts_grow(rt: HostRuntime) {
    let mut due = Due::new();
    for lines in [2000, 2500] {
        for _ in 0..lines {
            assert!(rt; !due.is_over());
        }
        assert!(rt; due.is_over());
    }
}
