//! Worked examples of the search.

use ax_proof::{Clause, Cnf, Lit, check_lines, ends_empty};
use ax_sat::{Answer, Base, Log, are_over, is_over, solve};
use std::alloc::Global;
use std::process::Abort;
use std::test::Fail;

/// Which answer it is.
#[derive(Clone, Copy, PartialEq, Eq, Debug)]
enum Kind {
    Model,
    Refuted,
    Budget,
}

/// Which answer it is, and the truth values of a model.
fn told(answer: &Answer) -> (Kind, &[bool]) {
    match answer {
        Answer::Model(assignment) => (Kind::Model, assignment.bits.as_slice()),
        Answer::Refuted => (Kind::Refuted, &[]),
        Answer::Budget => (Kind::Budget, &[]),
    }
}

/// The clause of these numbers, as in DIMACS files.
pub(crate) fn clause(rt: &impl Abort, alloc: Global, numbers: &[i32]) -> Result<Clause, Fail> {
    let mut lits = Vec::new(alloc);
    for number in numbers {
        let var = u64::from(number.unsigned_abs());
        assert!(rt; var >= 1);
        lits.push(Lit::new(var, *number > 0))?;
    }
    Ok(Clause::from_lits(alloc, lits.as_slice())?.ok_or("a clash")?)
}

/// Pigeons, one more than holes: variable 7 p + h puts pigeon p, from 0, into hole h, from 1. No two are in one.
fn pigeons(rt: &impl Abort, alloc: Global, holes: i32) -> Result<Cnf, Fail> {
    assert!(rt; holes >= 1);
    assert!(rt; holes <= 7);
    let mut clauses = Vec::new(alloc);
    for pigeon in 0..holes + 1 {
        let mut housed = Vec::new(alloc);
        for hole in 1..holes + 1 {
            let here = pigeon.saturating_mul(7).saturating_add(hole);
            housed.push(here)?;
            for other in 0..pigeon {
                let there = other.saturating_mul(7).saturating_add(hole);
                clauses.push(clause(rt, alloc, &[here.saturating_neg(), there.saturating_neg()])?)?;
            }
        }
        clauses.push(clause(rt, alloc, housed.as_slice())?)?;
    }
    Ok(Cnf { vars: 56, clauses })
}

/// What `solve` answers, with its log.
fn solved(alloc: Global, cnf: &Cnf, assumed: &[Lit], budget: u32) -> Result<(Answer, Log), Fail> {
    if budget == 0 || cnf.vars > 1000 {
        return Err("no budget, or many variables".into());
    }
    if !are_over(cnf.vars, cnf.clauses.as_slice()) {
        return Err("a clause over other variables".into());
    }
    if !is_over(cnf.vars, assumed) {
        return Err("an assumption over other variables".into());
    }
    let mut log = Log {
        lines: Vec::new(alloc),
    };
    let answer = solve(alloc, cnf, assumed, &mut log, budget)?;
    Ok((answer, log))
}

/// Four pigeons in three holes, 22 clauses: one line doesn't show that there is no model. Seven in six, 133
/// clauses: refuted within 100,000 lines. The checker accepts the lines each time.
#[test]
fn pigeons_are_refuted(rt: HostRuntime) -> Result<(), Fail> {
    let alloc = rt.alloc();
    for (holes, count, budget, kind) in [
        (3, 22, 1, Kind::Budget),
        (3, 22, 1000, Kind::Refuted),
        (6, 133, 100_000, Kind::Refuted),
    ] {
        let cnf = pigeons(&rt, alloc, holes)?;
        assert_eq!(rt; cnf.clauses.len(), count);
        let (answer, log) = solved(alloc, &cnf, &[], budget)?;
        assert_eq!(rt; told(&answer).0, kind);
        assert_eq!(rt; ends_empty(log.lines.as_slice()), kind == Kind::Refuted);
        assert!(rt; kind == Kind::Refuted || log.lines.len() == 1);
        assert!(rt; check_lines(alloc, &cnf, log.lines.as_slice()).is_ok());
    }
    Ok(())
}

/// Eight pigeons in seven holes take more lines than there are before the watch begins anew.
#[test]
fn long_searches_begin_anew(rt: HostRuntime) -> Result<(), Fail> {
    let alloc = rt.alloc();
    let cnf = pigeons(&rt, alloc, 7)?;
    let (answer, log) = solved(alloc, &cnf, &[], 100_000)?;
    assert_eq!(rt; told(&answer).0, Kind::Refuted);
    assert!(rt; ends_empty(log.lines.as_slice()));
    assert!(rt; log.lines.len() > 2000);
    Ok(())
}

/// (1), (-1): the empty line is the whole proof. (1 2) with -1 assumed makes 2 true.
#[test]
fn small_clauses(rt: HostRuntime) -> Result<(), Fail> {
    let alloc = rt.alloc();
    let mut clauses = Vec::new(alloc);
    clauses.push(clause(&rt, alloc, &[1])?)?;
    clauses.push(clause(&rt, alloc, &[-1])?)?;
    let (answer, log) = solved(alloc, &Cnf { vars: 1, clauses }, &[], 1)?;
    assert_eq!(rt; told(&answer).0, Kind::Refuted);
    assert_eq!(rt; log.lines.len(), 1);
    let mut clauses = Vec::new(alloc);
    clauses.push(clause(&rt, alloc, &[1, 2])?)?;
    let cnf = Cnf { vars: 2, clauses };
    let (answer, _) = solved(alloc, &cnf, &[Lit::new(1, false)], 1)?;
    let (kind, bits) = told(&answer);
    assert_eq!(rt; kind, Kind::Model);
    assert_eq!(rt; bits, [false, true].as_slice());
    Ok(())
}

/// What a base of the clauses answers, and what it answers with more of them.
fn grown(alloc: Global, cnf: &Cnf, more: &[Clause]) -> Result<(Answer, Answer), Fail> {
    if cnf.vars > 1000 {
        return Err("many variables".into());
    }
    if !are_over(cnf.vars, cnf.clauses.as_slice()) {
        return Err("a clause over other variables".into());
    }
    if !are_over(cnf.vars, more) {
        return Err("one more over other variables".into());
    }
    let mut base = Base::new(alloc, cnf)?;
    let mut log = Log {
        lines: Vec::new(alloc),
    };
    let first = base.ask(&[], &mut log, 1)?;
    base.add(cnf.vars, more)?;
    let mut next = Log {
        lines: Vec::new(alloc),
    };
    let second = base.ask(&[], &mut next, 1)?;
    Ok((first, second))
}

/// (1 2) has a model, and with (-1) and (-2) put behind it none.
#[test]
fn bases_grow(rt: HostRuntime) -> Result<(), Fail> {
    let alloc = rt.alloc();
    let mut clauses = Vec::new(alloc);
    clauses.push(clause(&rt, alloc, &[1, 2])?)?;
    let mut more = Vec::new(alloc);
    more.push(clause(&rt, alloc, &[-1])?)?;
    more.push(clause(&rt, alloc, &[-2])?)?;
    let (first, second) = grown(alloc, &Cnf { vars: 2, clauses }, more.as_slice())?;
    assert_eq!(rt; told(&first).0, Kind::Model);
    assert_eq!(rt; told(&second).0, Kind::Refuted);
    Ok(())
}
