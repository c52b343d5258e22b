//! The check that each line of a proof is right with its uses.

ghost use Rattle.std.specs.Prelude.{◌≡◌, ◌↔◌, ◌++◌, ◌+◌, ◌-◌, ◌<◌, ◌≤◌, [], ◌∷◌, IfOk, IfErr, OnOk, IsTrue, length, map, take, drop};
ghost use Rattle.ax_proof.specs.Literal.{negation};
ghost use Rattle.ax_proof.specs.Trail.{Judges};
ghost use Rattle.ax_proof.specs.Uses.{numbered, IsNumber, Refutes, IsRight, AreRight, IsFirstWrong, Forces, lists, named_literals, all_named_literals};
ghost use Rattle.ax_proof.specs.Denied.{IfFault};

use crate::clause::{Cnf, Line};
use crate::denied::Denied;
use crate::known::Known;
use crate::literal::Lit;
use crate::shown::{Both, Shown};
use crate::steps::Steps;
use crate::trail::{Judgement, Truth};
use std::alloc::{AllocError, Global};
use std::marker::Brand;
use std::sync::ledger::{Blank, Ledger};

/// The place, from 0, of the first line that is not right with its uses.
#[derive(Clone, Copy, PartialEq, Eq, Debug)]
pub struct BadUse {
    pub at: usize,
}

/// What is known of the clause of this number.
fn judge_shown<S: Shown, L: Ledger>(
    known: &Known,
    shown: &S,
    number: u64,
    steps: &mut Steps<L>,
) -> Judgement
    requires { IsNumber (S.clauses shown.now) number }
    ensures judged { Judges known.now (numbered (S.clauses shown.now) number) result }
    ensures steps { steps.new ≤ steps.old + length (numbered (S.clauses shown.now) number) }
{
    let mut unit: Option<Lit> = None;
    for place in 0..shown.width(number) {
        let lit = shown.lit(number, place, steps);
        match known.truth(lit) {
            Truth::True => return Judgement::Satisfied,
            Truth::False => {}
            Truth::Open => match unit {
                Some(_) => return Judgement::Undecided,
                None => unit = Some(lit),
            },
        }
    }
    match unit {
        Some(lit) => Judgement::Unit(lit),
        None => Judgement::Falsified,
    }
}

/// Makes each literal of the clause of this number false.
fn deny_shown<S: Shown, L: Ledger>(
    known: &mut Known,
    shown: &S,
    number: u64,
    steps: &mut Steps<L>,
) -> Result<(), AllocError>
    requires empty { known.old ≡ [] }
    requires number { IsNumber (S.clauses shown.now) number }
    ensures lits { OnOk result (known.new ≡ map negation (numbered (S.clauses shown.now) number)) }
    ensures steps { steps.new ≤ steps.old + length (numbered (S.clauses shown.now) number) }
{
    for place in 0..shown.width(number) {
        let lit = shown.lit(number, place, steps).negate();
        known.push(lit)?;
    }
    Ok(())
}

/// Makes true what the clause of this number forces; `false` where it is no clause before `limit`, or forces nothing.
fn force<S: Shown, L: Ledger>(
    known: &mut Known,
    shown: &S,
    limit: u64,
    number: u64,
    steps: &mut Steps<L>,
) -> Result<bool, AllocError>
    requires { IsNumber (S.clauses shown.now) limit }
    ensures forced { IfOk result (λ yes. Forces (take (limit - 1) (S.clauses shown.now)) number known.old known.new yes) }
    ensures steps { steps.new ≤ steps.old + length (numbered (S.clauses shown.now) number) }
{
    if number == 0 || number >= limit {
        return Ok(false);
    }
    match judge_shown(known, shown, number, steps) {
        Judgement::Satisfied => Ok(false),
        Judgement::Falsified => Ok(false),
        Judgement::Undecided => Ok(false),
        Judgement::Unit(lit) => {
            known.push(lit)?;
            Ok(true)
        }
    }
}

/// Whether the clause of this number is one before `limit`, and is false.
fn is_false<S: Shown, L: Ledger>(
    known: &Known,
    shown: &S,
    limit: u64,
    number: u64,
    steps: &mut Steps<L>,
) -> bool
    requires { IsNumber (S.clauses shown.now) limit }
    ensures exact { IsTrue result ↔ Refutes (take (limit - 1) (S.clauses shown.now)) known.now (number ∷ []) }
    ensures steps { steps.new ≤ steps.old + length (numbered (S.clauses shown.now) number) }
{
    if number == 0 || number >= limit {
        return false;
    }
    match judge_shown(known, shown, number, steps) {
        Judgement::Satisfied => false,
        Judgement::Falsified => true,
        Judgement::Undecided => false,
        Judgement::Unit(_) => false,
    }
}

/// Whether the used clauses in turn, all before `limit`, force a literal each, and the last is false.
fn refutes<S: Shown, L: Ledger>(
    known: &mut Known,
    shown: &S,
    limit: u64,
    uses: &[u64],
    steps: &mut Steps<L>,
) -> Result<bool, AllocError>
    requires { IsNumber (S.clauses shown.now) limit }
    ensures exact { IfOk result (λ yes. IsTrue yes ↔ Refutes (take (limit - 1) (S.clauses shown.now)) known.old uses.now) }
    ensures steps { steps.new ≤ steps.old + named_literals (S.clauses shown.now) uses.now }
{
    let Some((last, firsts)) = uses.split_last() else {
        return Ok(false);
    };
    for number in firsts {
        if !force(known, shown, limit, *number, steps)? {
            return Ok(false);
        }
    }
    Ok(is_false(known, shown, limit, *last, steps))
}

/// Whether the line of this number is right with these uses. No literal is known before, and after an answer.
fn is_right<S: Shown, L: Ledger>(
    known: &mut Known,
    shown: &S,
    number: u64,
    uses: &[u64],
    steps: &mut Steps<L>,
) -> Result<bool, AllocError>
    requires empty { known.old ≡ [] }
    requires number { IsNumber (S.clauses shown.now) number }
    ensures exact { IfOk result (λ yes. IsTrue yes ↔ IsRight (take (number - 1) (S.clauses shown.now)) (numbered (S.clauses shown.now) number) uses.now) }
    ensures empty { IfOk result (λ yes. known.new ≡ []) }
    ensures steps { steps.new ≤ steps.old + length (numbered (S.clauses shown.now) number) + named_literals (S.clauses shown.now) uses.now }
{
    deny_shown(known, shown, number, steps)?;
    let right = refutes(known, shown, number, uses, steps)?;
    known.clear();
    Ok(right)
}

/// Checks that each line is right with its uses. The lines are the clauses of `shown` from number `from` on. `shown` is
/// read by `lit` alone.
pub fn check_uses<S: Shown, L: Ledger>(
    alloc: Global,
    shown: &S,
    from: u64,
    uses: &[Vec<u64>],
    steps: &mut Steps<L>,
) -> Result<(), Denied<BadUse>>
    requires low { 1 ≤ from }
    requires lines { from + length uses.now ≡ length (S.clauses shown.now) + 1 }
    ensures right { OnOk result (AreRight (take (from - 1) (S.clauses shown.now)) (drop (from - 1) (S.clauses shown.now)) (lists uses.now)) }
    ensures fault { IfErr result (λ denied. IfFault denied (λ bad. IsFirstWrong (take (from - 1) (S.clauses shown.now)) (drop (from - 1) (S.clauses shown.now)) (lists uses.now) bad.at)) }
    ensures steps { steps.new ≤ steps.old + all_named_literals (S.clauses shown.now) from (lists uses.now) }
{
    let count = shown.count();
    prove!(from - 1 + uses.len() as u64 == count);
    let mut known = Known::new(alloc);
    for (at, named) in uses.iter().enumerate() {
        let number = from + at as u64;
        if !is_right(&mut known, shown, number, named.as_slice(), steps)? {
            return Err(Denied::Fault(BadUse { at }));
        }
    }
    Ok(())
}

/// `check_uses` over clauses and the lines that go on from them, with the steps counted in this ledger.
fn check_counted<L: Ledger>(
    alloc: Global,
    blank: Blank,
    cnf: &Cnf,
    lines: &[Line],
    uses: &[Vec<u64>],
) -> Result<(), Denied<BadUse>>
    requires name { blank.name ≡ L.name }
    requires parts { blank.parts ≡ L.parts }
    requires some { 0 < blank.parts }
    requires lines { length uses.now ≡ length lines.now }
    ensures right { OnOk result (AreRight cnf.now.clauses.items lines.now (lists uses.now)) }
    ensures fault { IfErr result (λ denied. IfFault denied (λ bad. IsFirstWrong cnf.now.clauses.items lines.now (lists uses.now) bad.at)) }
{
    let both = Both { cnf, lines };
    let mut steps = Steps::<L>::new(blank);
    check_uses(alloc, &both, cnf.clauses.len() as u64 + 1, uses, &mut steps)
}

/// Checks that each line is right with its uses, where the lines' numbers go on from those of the clauses.
pub fn check_right(
    alloc: Global,
    cnf: &Cnf,
    lines: &[Line],
    uses: &[Vec<u64>],
) -> Result<(), Denied<BadUse>>
    requires { length uses.now ≡ length lines.now }
    ensures right { OnOk result (AreRight cnf.now.clauses.items lines.now (lists uses.now)) }
    ensures fault { IfErr result (λ denied. IfFault denied (λ bad. IsFirstWrong cnf.now.clauses.items lines.now (lists uses.now) bad.at)) }
{
    check_counted::<Brand>(alloc, Blank::new(1), cnf, lines, uses)
}
