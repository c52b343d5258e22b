//! Worked examples of unit propagation.

use ax_dimacs::read_cnf;
use ax_proof::trail::Truth;
use ax_proof::{Clause, Lit};
use ax_watch::Watch;
use std::alloc::Global;
use std::process::Abort;
use std::test::Fail;

/// The literal that a number stands for, as in DIMACS files.
fn literal(rt: &impl Abort, number: i32) -> Lit {
    let var = u64::from(number.unsigned_abs());
    assert!(rt; var >= 1);
    assert!(rt; var < 100);
    Lit::new(var, number > 0)
}

/// Adds a clause, with room made for it, and gives its place.
fn add(watch: &mut Watch, clause: &Clause) -> Result<usize, Fail> {
    watch.reserve(1, clause.len())?;
    if !watch.covers(clause) {
        return Err(Fail::from("a variable too high"));
    }
    Ok(watch.add(clause))
}

/// Adds the clauses of a clause file. They stand at the places from 0 on, in their order.
fn add_all(alloc: Global, watch: &mut Watch, text: &str) -> Result<(), Fail> {
    let cnf = read_cnf(alloc, text.as_bytes()).ok().ok_or("refused")?;
    for clause in &cnf.clauses {
        let _ = add(watch, clause)?;
    }
    Ok(())
}

/// A watch over so many variables, with the clauses of a clause file.
fn watch_of(alloc: Global, vars: u64, text: &str) -> Result<Watch, Fail> {
    let mut watch = Watch::new(alloc, vars)?;
    add_all(alloc, &mut watch, text)?;
    Ok(watch)
}

/// Cuts the trail to so many literals, and makes the open literal of this number true.
fn turn(rt: &impl Abort, watch: &mut Watch, len: usize, number: i32) {
    assert!(rt; len <= watch.trail().len());
    watch.back(len);
    let lit = literal(rt, number);
    assert!(rt; lit.var() <= watch.vars());
    assert_eq!(rt; watch.truth(lit), Truth::Open);
    watch.assume(lit);
}

/// The place of a clause that propagation finds false, and its first literal.
fn clash(watch: &mut Watch) -> Option<(usize, Option<Lit>)> {
    match watch.propagate() {
        Some(place) => Some((place, watch.clause(place).first().copied())),
        None => None,
    }
}

/// Whether the literal of this number is true, false or open.
fn truth(rt: &impl Abort, watch: &Watch, number: i32) -> Truth {
    watch.truth(literal(rt, number))
}

/// From 1 follows 2 by (-1 2), and then not 3 by (-2 -3).
#[test]
fn literals_follow(rt: HostRuntime) -> Result<(), Fail> {
    let mut watch = watch_of(rt.alloc(), 3, "p cnf 3 2\n-2 -3 0\n-1 2 0\n")?;
    assert!(rt; clash(&mut watch).is_none());
    assert!(rt; watch.trail().is_empty());
    turn(&rt, &mut watch, 0, 1);
    assert!(rt; clash(&mut watch).is_none());
    assert_eq!(rt; watch.trail().len(), 3);
    for (number, wanted) in [(2, Truth::True), (3, Truth::False)] {
        assert_eq!(rt; truth(&rt, &watch, number), wanted);
    }
    for (place, reason) in [(0, None), (1, Some(1)), (2, Some(0))] {
        assert_eq!(rt; watch.reason(place), reason);
    }
    Ok(())
}

const THREE: &str = "p cnf 2 3\n1 2 0\n1 -2 0\n-1 2 0\n";

/// Makes room for variables up to this one.
fn widen(watch: &mut Watch, vars: u64) -> Result<(), Fail> {
    if watch.vars() > vars {
        return Err(Fail::from("no wider"));
    }
    watch.widen(vars)?;
    Ok(())
}

/// Of (1 2), (1 -2), (-1 2), the first two are false together where 1 is.
#[test]
fn clauses_become_false(rt: HostRuntime) -> Result<(), Fail> {
    let mut watch = watch_of(rt.alloc(), 2, "p cnf 0 0\n")?;
    assert!(rt; watch.is_empty());
    add_all(rt.alloc(), &mut watch, THREE)?;
    assert_eq!(rt; watch.len(), 3);
    turn(&rt, &mut watch, 0, -1);
    match clash(&mut watch) {
        Some((place, first)) => {
            assert!(rt; place < 2);
            assert_eq!(rt; first, Some(literal(&rt, 1)));
        }
        None => assert!(rt; false),
    }
    watch.back(0);
    assert_eq!(rt; truth(&rt, &watch, 2), Truth::Open);
    Ok(())
}

/// Without 1 and 3, 2 has to be true. A wider watch has a variable more.
#[test]
fn a_watch_is_widened(rt: HostRuntime) -> Result<(), Fail> {
    let mut watch = watch_of(rt.alloc(), 2, THREE)?;
    assert_eq!(rt; watch.vars(), 2);
    widen(&mut watch, 3)?;
    add_all(rt.alloc(), &mut watch, "p cnf 3 2\n1 3 0\n-3 0\n")?;
    assert!(rt; clash(&mut watch).is_none());
    assert_eq!(rt; watch.trail().len(), 3);
    assert_eq!(rt; truth(&rt, &watch, 2), Truth::True);
    Ok(())
}

/// A number of variables that no table has room for ends in want of memory.
#[test]
fn huge_tables_want_memory(rt: HostRuntime) -> Result<(), Fail> {
    assert!(rt; Watch::new(rt.alloc(), u64::MAX).is_err());
    let mut watch = Watch::new(rt.alloc(), 1)?;
    assert!(rt; watch.widen(u64::MAX).is_err());
    assert_eq!(rt; watch.vars(), 1);
    Ok(())
}

/// Four pigeons in three holes. That the first pigeon is in a hole are the variables 1 to 3, the second 4 to 6, and so on.
const PIGEONS: &str = "p cnf 12 22
1 2 3 0 4 5 6 0 7 8 9 0 10 11 12 0
-1 -4 0 -1 -7 0 -1 -10 0 -4 -7 0 -4 -10 0 -7 -10 0
-2 -5 0 -2 -8 0 -2 -11 0 -5 -8 0 -5 -11 0 -8 -11 0
-3 -6 0 -3 -9 0 -3 -12 0 -6 -9 0 -6 -12 0 -9 -12 0
";

/// Whether both have made the same literals true.
fn agree(one: &Watch, other: &Watch) -> bool {
    for lit in one.trail() {
        if other.truth(*lit) != Truth::True {
            return false;
        }
    }
    one.trail().len() == other.trail().len()
}

/// Turns both, and gives whether each finds a clause false, and whether they agree.
fn both(
    rt: &impl Abort,
    watch: &mut Watch,
    plain: &mut Watch,
    len: usize,
    number: i32,
) -> (bool, bool, bool) {
    turn(rt, watch, len, number);
    turn(rt, plain, len, number);
    let by_watching = watch.propagate().is_some();
    let by_scan = plain.propagate_by_scan().is_some();
    (by_watching, by_scan, agree(watch, plain))
}

/// Watching two literals of each clause comes to what going over all clauses does.
#[test]
fn watching_is_as_good_as_a_scan(rt: HostRuntime) -> Result<(), Fail> {
    let mut watch = watch_of(rt.alloc(), 12, PIGEONS)?;
    let mut plain = watch_of(rt.alloc(), 12, PIGEONS)?;
    for (len, number, clashes) in [
        (0, 1, false),
        (4, 5, true),
        (4, -5, true),
        (4, -2, false),
        (5, 8, true),
        (0, -1, false),
        (1, -2, false),
        (6, 4, true),
    ] {
        let (by_watching, by_scan, agree) = both(&rt, &mut watch, &mut plain, len, number);
        assert_eq!(rt; (by_watching, by_scan), (clashes, clashes));
        assert!(rt; clashes || agree);
    }
    Ok(())
}
